// A walk through the values of a row, from the lowest on.
ghost use Rattle.std.specs.Prelude.{◌≡◌};
ghost use Rattle.std.specs.Iterator.{at_most};
ghost use Rattle.sets.specs.Rows.{bits};
ghost use Rattle.sets.specs.Walk.{TakesLowest};

use crate::Row;

// The values that are left to come.
#[derive(Drop)]
pub struct ValuesLeft {
    left: Row,
}

impl Iterator for ValuesLeft {
    type Item = usize;

    ghost next_gives = { TakesLowest };

    ghost remaining = { λ values. at_most (bits values.left) };

    fn next(&mut self) -> Option<usize> {
        if self.left.is_empty() {
            return None;
        }
        let lowest = self.left.lowest();
        self.left = self.left.rest();
        Some(lowest)
    }
}

impl IntoIterator for Row {
    type Item = usize;

    type IntoIter = ValuesLeft;

    ghost into_iter_gives = { λ row values. values.left ≡ row };

    fn into_iter(self) -> ValuesLeft {
        ValuesLeft { left: self }
    }
}
