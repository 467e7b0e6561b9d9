// Rows taken out of the places: those that stay close up in order.
ghost use Rattle.std.specs.Prelude.{◌≡◌, ◌≤◌};
ghost use Rattle.sets.specs.Limits.{most_places};
ghost use Rattle.sheet.specs.Changes.{without};
ghost use Rattle.sheet.specs.Code.Removals.{ClosedUp, emptied};

use crate::Sheet;

impl Sheet {
    // The desk's rows number `from` to `upto` - 1 are taken out, and the rest close up in order, where they lie. Answers how many are left.
    // Every row is put down, and one that goes is written over by the next: without a branch on it, a pass takes the same time whoever owns the rows.
    #[tactic(auto, using(crate::proofs::PlaceRows::place_rows))]
    fn close_up(&mut self, desk: usize, from: usize, upto: usize) -> usize
        requires { self.old.used ≤ most_places }
        ensures { ClosedUp self.old desk from upto result self.new }
    {
        let mut seen = 0;
        let mut left = 0;
        for next in 0..self.used {
            let owner = self.owners[next];
            let set = sets::row_at(&self.sets, next);
            let own = owner == desk;
            let goes = own & (from..upto).contains(&seen);
            sets::put_row(&mut self.sets, left, set);
            self.owners[left] = owner;
            seen += usize::from(own);
            left += usize::from(!goes);
        }
        left
    }

    // The places from `left` on become empty.
    fn empty_from(&mut self, left: usize)
        requires { left ≤ most_places }
        ensures { self.new ≡ emptied self.old left }
    {
        self.sets[left * sets::WORDS..].fill(0);
        self.owners[left..].fill(0);
        self.used = left;
    }

    // The desk's rows number `from` to `upto` - 1 are taken out.
    #[tactic(auto, using(crate::proofs::EmptyPlaces::closed_few, crate::proofs::EmptyPlaces::taken_out))]
    pub fn take_out(&mut self, desk: usize, from: usize, upto: usize)
        requires { self.old.used ≤ most_places }
        ensures { self.new ≡ without self.old desk from upto }
    {
        let left = self.close_up(desk, from, upto);
        self.empty_from(left);
    }
}
