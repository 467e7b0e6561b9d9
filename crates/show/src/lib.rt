// What the programs that compare share: sets by the names of their values, the script on standard input and its lines, and a count of comparisons.
#![tactic(auto)]

mod columns; // columns.rt: the numbers of a line, in columns
mod lines; // lines.rt: the script on standard input, and its lines
mod lists; // lists.rt: things in a line, each after a space
mod names; // names.rt: rows and families in letters or salaries
mod said; // said.rt: what an answer says, by plain numbers
mod tally; // tally.rt: how many comparisons agree and differ

pub use columns::Columns;
pub use lines::{BAR, NEWLINE, play, script, split_before};
pub use lists::{positions, spaced};
pub use names::{Family, Names, OneOf};
pub use said::{Said, conclude};
pub use tally::Tally;
