// The places of the inserted rows: a row put in, and the places surveyed.
ghost use Rattle.std.specs.Prelude.{◌≡◌, ◌-◌, ◌≤◌, ◌<◌};
ghost use Rattle.std.specs.List.{list_all, range_with_len};
ghost use Rattle.sets.specs.Limits.{most_places, most_desks};
ghost use Rattle.sets.specs.Rows.{bits};
ghost use Rattle.sheet.specs.Sheets.{empty, placed};
ghost use Rattle.sheet.specs.Changes.{adding};
ghost use Rattle.sheet.specs.Code.Surveys.{Surveyed};

use crate::Sheet;
use sets::Row;

impl Sheet {
    // The row becomes the desk's last.
    #[tactic(auto, using(crate::proofs::PlaceRows::place_rows))]
    pub fn put_in(&mut self, desk: usize, row: Row)
        requires { self.old.used < most_places }
        ensures { self.new ≡ adding self.old desk (bits row) }
    {
        sets::put_row(&mut self.sets, self.used, row);
        self.owners[self.used] = desk;
        self.used += 1;
    }

    // The places from `used` on have set 0 and owner 0.
    #[tactic(auto, using(crate::proofs::PlaceRows::place_rows))]
    fn rest_empty(&self) -> bool
        ensures { result ≡ list_all (empty self.now) (range_with_len self.now.used (most_places - self.now.used)) }
    {
        (self.used..Sheet::PLACES).all(|place| self.owners[place] == 0
            && sets::row_at(&self.sets, place).is_empty())
    }

    // Where the places are right, how many rows each desk holds.
    #[tactic(auto, using(crate::proofs::Surveying::tallying))]
    pub fn tally(&self) -> Option<[usize; Sheet::DESKS]>
        requires { (self.now.used ≤ most_places) × (self.now.desks ≤ most_desks) }
        ensures { Surveyed placed self.now result }
    {
        let mut counts = [0; Sheet::DESKS];
        for place in 0..self.used {
            let owner = self.owners[place];
            if self.desks <= owner || !sets::row_at(&self.sets, place).within(self.d) {
                return None;
            }
            counts[owner] += 1;
        }
        self.rest_empty().then_some(counts)
    }
}
