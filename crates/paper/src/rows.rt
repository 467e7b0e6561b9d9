// Marked rows, each by its number in the paper, which counts from 1.
use std::fmt;

// Of so many rows those that are marked.
#[derive(Clone, Copy, PartialEq, Eq)]
pub struct Rows {
    pub many: usize,
    pub marks: u64,
}

impl fmt::Display for Rows {
    fn fmt<W: fmt::Write>(&self, f: &mut fmt::Formatter<W>) -> fmt::Result {
        for i in 0..self.many {
            if families::has(self.marks, i) {
                write!(f, " eta_{}", i + 1)?;
            }
        }
        Ok(())
    }
}
