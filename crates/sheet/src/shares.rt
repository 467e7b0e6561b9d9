// What the desks hold together, from how many rows each of them holds.
ghost use Rattle.std.specs.Prelude.{◌≡◌, ◌-◌, ◌*◌, ◌≤◌, leb, take};
ghost use Rattle.std.specs.List.{list_all};
ghost use Rattle.sets.specs.Limits.{most_held, most_desks, promised};
ghost use Rattle.theory.specs.Pairings.{at};
ghost use Rattle.sheet.specs.Upto.{sum_to};

use crate::Sheet;

impl Sheet {
    // No desk holds more than it may.
    pub fn none_over(&self, counts: &[usize; Sheet::DESKS]) -> bool
        requires { self.now.desks ≤ most_desks }
        ensures { result ≡ list_all (λ held. leb held most_held) (take self.now.desks counts.now) }
    {
        counts[..self.desks].iter().all(|&held| held <= Sheet::HELD)
    }

    // How many rows are promised to the desks and not yet held.
    pub fn owed(&self, counts: &[usize; Sheet::DESKS]) -> usize
        requires { self.now.desks ≤ most_desks }
        ensures value { result ≡ sum_to (λ k. promised - at counts.now k) self.now.desks }
        ensures upper_bound { result ≤ most_desks * promised }
    {
        counts[..self.desks]
            .iter()
            .map(|held| Sheet::PROMISED.saturating_sub(*held))
            .sum()
    }
}
