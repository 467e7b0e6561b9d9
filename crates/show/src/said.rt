// What an answer says, by plain numbers, since a script may name any.
use refusals::Refusal;
use std::fmt::Display;
use std::io::Write;
use std::{fmt, io};

// The refusal number or 0, the row number, and what is told where nothing is refused. The refusal ROW is of a row.
#[derive(Clone, Copy, PartialEq, Eq)]
pub struct Said<T, const ROW: u64> {
    pub refusal: u64,
    pub row: u64,
    pub told: T,
}

impl<T: Default, const ROW: u64> Said<T, ROW> {
    // Nothing is refused.
    pub fn accepted(told: T) -> Self {
        Said {
            refusal: 0,
            row: 0,
            told,
        }
    }

    pub fn refused(refusal: u64, row: u64) -> Self {
        Said {
            refusal,
            row,
            told: T::default(),
        }
    }
}

impl<T: Default, const ROW: u64> From<Result<T, Refusal>> for Said<T, ROW> {
    fn from(answer: Result<T, Refusal>) -> Self {
        match answer {
            Ok(told) => Said::accepted(told),
            Err(why) => Said::refused(why.number() as u64, why.row() as u64),
        }
    }
}

impl<T: Display, const ROW: u64> Display for Said<T, ROW> {
    fn fmt<W: fmt::Write>(&self, f: &mut fmt::Formatter<W>) -> fmt::Result {
        if self.refusal == 0 {
            return write!(f, "{}", self.told);
        }
        write!(f, "refused with {}", self.refusal)?;
        if self.refusal == ROW {
            write!(f, " at row {}", self.row)?;
        }
        Ok(())
    }
}

// Ends a line that says what must be answered: whether that came, and what came where it did not.
pub fn conclude(out: &mut impl Write, right: bool, ours: impl Display + Drop) -> io::Result<bool> {
    if right {
        writeln!(out, " - as it should")?;
    } else {
        writeln!(out, " - DIFFERS: {ours}")?;
    }
    Ok(right)
}
