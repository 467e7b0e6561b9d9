// A pairing of rows that grows: the search, and one row more.
#![tactic(auto)]

mod columns; // columns.rt: where a value finds the rows that hold it
mod search; // search.rt: a value asks rows, a taken row asks its present value to move
pub mod seats; // seats.rt: the rows that have mates, and whether one row more gets one
