// Whether a sheet is sound, however damaged it may be: the calls that follow may then trust it.
ghost use Rattle.std.specs.Prelude.{◌≡◌};
ghost use Rattle.sheet.specs.Sheets.{shaped, sound};
ghost use Rattle.sheet.specs.Code.Surveys.{Surveyed};

use crate::Sheet;

impl Sheet {
    // The four numbers of the sheet are within their limits.
    #[tactic(auto, unfolding(crate::specs::Sheets::shaped))]
    fn shaped(&self) -> bool
        ensures { result ≡ shaped self.now }
    {
        (1..=Sheet::VALUES).contains(&self.d)
            && self.rows <= Sheet::ROWS
            && (1..=Sheet::DESKS).contains(&self.desks)
            && self.used <= Sheet::PLACES
    }

    // How many rows each desk holds, where the sheet is sound.
    #[tactic(auto, using(crate::proofs::Checking::testing))]
    pub fn survey(&self) -> Option<[usize; Sheet::DESKS]>
        ensures { Surveyed sound self.now result }
    {
        if !self.shaped() {
            return None;
        }
        let counts = self.tally()?;
        let right = self.none_over(&counts)
            && self.used + self.owed(&counts) <= Sheet::PLACES
            && self.marks_right();
        right.then_some(counts)
    }
}
