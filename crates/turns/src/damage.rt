// A sheet with one number changed, as no call of the store changes it.
use sheet::Sheet;

// Where a sheet is changed: one of its numbers, all of them, or none.
#[derive(Clone, Copy)]
enum Spot {
    Values,
    Rows,
    Desks,
    Used,
    Marks(usize),
    Sets(usize),
    Owners(usize),
    All,
    Nowhere,
}

// By number: 1000 d, 2000 T, 3000 the desks, 4000 the used places, 5000 and on the words of marks, 6000 and on the sets, 7000 and on the owners, and
// 8000 the whole sheet.
impl From<u64> for Spot {
    fn from(number: u64) -> Spot {
        let i = (number % 1000) as usize;
        match number / 1000 {
            1 => Spot::Values,
            2 => Spot::Rows,
            3 => Spot::Desks,
            4 => Spot::Used,
            5 => Spot::Marks(i),
            6 => Spot::Sets(i),
            7 => Spot::Owners(i),
            8 => Spot::All,
            _ => Spot::Nowhere,
        }
    }
}

// A spot, and the value that is written there.
#[derive(Clone, Copy)]
pub struct Damage {
    spot: Spot,
    value: u64,
}

impl Damage {
    // The damage that a script names by a number; 0 names none.
    pub fn named(number: u64, value: u64) -> Option<Damage> {
        (number != 0).then(|| Damage {
            spot: Spot::from(number),
            value,
        })
    }

    // The sheet damaged so: where all of it is, the sheet of zeros.
    pub fn done_to(self, sheet: Sheet) -> Sheet {
        let mut next = sheet;
        let value = self.value;
        match self.spot {
            Spot::Values => next.d = value as usize,
            Spot::Rows => next.rows = value as usize,
            Spot::Desks => next.desks = value as usize,
            Spot::Used => next.used = value as usize,
            Spot::Marks(i) => next.marks[i % Sheet::MARKS] = value,
            Spot::Sets(i) => next.sets[i % Sheet::SETS] = value,
            Spot::Owners(i) => next.owners[i % Sheet::PLACES] = value as usize,
            Spot::All => next = Sheet::fresh(0, 0, 0),
            Spot::Nowhere => {}
        }
        next
    }
}
