// The class sheet: who hides which table rows, and one list of inserted rows with their owners.
#![tactic(auto)]

ghost use Rattle.std.specs.Prelude.{◌≡◌};
ghost use Rattle.sheet.specs.Changes.{fresh_sheet};

mod marks; // marks.rt: the hide marks
mod places; // places.rt: the places of the inserted rows
mod removals; // removals.rt: rows taken out of the places
mod shares; // shares.rt: what the desks hold together
mod sound; // sound.rt: whether a sheet is sound

// `rows` is the table's row count T. Desk k's marks are `WORDS` words: table row n is hidden where bit n % 64 of their word n / 64 is set.
// The first `used` places hold the inserted rows, in order of insertion. (Flat arrays with a number beside them, for hosts in C keep it.
// For the same reason it has no invariant: a sheet that a host hands in may hold anything, and what a method needs of it is asked there.)
#[repr(C)]
#[derive(Clone, Copy, PartialEq, Eq)]
pub struct Sheet {
    pub d: usize,
    pub rows: usize,
    pub desks: usize,
    pub used: usize,
    pub marks: [u64; Sheet::MARKS],
    pub sets: [u64; Sheet::SETS],
    pub owners: [usize; Sheet::PLACES],
}

impl Sheet {
    // The values that a column may have.
    pub const VALUES: usize = 64;
    // The rows that a desk may hold, and those that it is promised.
    pub const HELD: usize = 64;

    pub const PROMISED: usize = 8;

    pub const PLACES: usize = 512;
    // The words that hold the places' sets.
    pub const SETS: usize = Sheet::PLACES * sets::WORDS;

    pub const DESKS: usize = 32;
    // The rows that a table may have.
    pub const ROWS: usize = 256;
    // The rows that a view may have.
    pub const VIEW: usize = Sheet::ROWS + Sheet::HELD;
    // The words of one desk's marks, and of all desks'.
    pub const WORDS: usize = Sheet::ROWS / sets::word::BITS;

    pub const MARKS: usize = Sheet::DESKS * Sheet::WORDS;

    // The sheet of a class that begins: no marks, no rows.
    #[tactic(auto, unfolding(crate::specs::Changes::fresh_sheet))]
    pub fn fresh(d: usize, rows: usize, desks: usize) -> Sheet
        ensures { result ≡ fresh_sheet d rows desks }
    {
        Sheet {
            d,
            rows,
            desks,
            used: 0,
            marks: [0; Sheet::MARKS],
            sets: [0; Sheet::SETS],
            owners: [0; Sheet::PLACES],
        }
    }
}
