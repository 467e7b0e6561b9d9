// Lessons by script: each line is a turn and what must be told, and each turn is played through every door of the store.
#![tactic(auto)]

mod damage; // damage.rt: a sheet with one number changed
mod doors; // doors.rt: the doors of the store
mod kind; // kind.rt: the kinds of calls, by their numbers
mod lesson; // lesson.rt: a script from its first line to its last
mod lines; // lines.rt: the lines of a script
mod lists; // lists.rt: what a lent list holds after a call
mod neighbour; // neighbour.rt: a neighbour who asks her questions again after every turn
mod table; // table.rt: a lent table
mod told; // told.rt: what a desk is told, by plain numbers
mod trial; // trial.rt: one turn through every door, compared with what must be told
mod turn; // turn.rt: the turn of a line
mod words; // words.rt: what is told, in words
#[cfg(test)]
mod tests; // tests.rt: tables that no script lends

pub use doors::{Door, Handed};
pub use kind::Kind;
pub use lesson::{Score, play};
pub use table::Table;
pub use told::Told;
pub use trial::Trial;
pub use turn::Turn;
