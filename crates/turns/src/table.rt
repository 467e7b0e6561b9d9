// A lent table.
ghost use Rattle.std.specs.Prelude.{◌≡◌};

use arrayvec::ArrayVec;
use sheet::Sheet;
use show::Columns;
use std::convert::AsSlice;

// One row more than a table may have.
const ROWS: usize = Sheet::ROWS + 1;

// The rows of a line: of fixed capacity, so that reading them allocates nothing.
pub type LineRows = ArrayVec<u64, ROWS>;

// Any list of rows may be lent, in a `Vec` or a slice too.
#[derive(Drop)]
pub struct Table<R = LineRows> {
    pub rows: R,
    pub d: usize,
}

impl Table {
    // The table of a line: how many rows, d, and the rows, of which the last stands for all that follow. One of more than `ROWS` rows has none.
    pub fn read(line: &[u8]) -> Table {
        let listed = Columns::read(line, [0; 12]);
        let [many, d, ..] = listed.row;
        let given = listed.from_column(2);
        let last = given.last().copied().unwrap_or(0);
        let many = many as usize;
        let many = if many <= ROWS { many } else { 0 };
        let mut rows = ArrayVec::new();
        for i in 0..many {
            if rows
                .try_push(given.get(i).copied().unwrap_or(last))
                .is_err()
            {
                break;
            }
        }
        Table {
            rows,
            d: d as usize,
        }
    }
}

impl<R: AsSlice<u64>> Table<R> {
    // All rows, however many: what is too long is for the store to refuse.
    pub fn all_rows(&self) -> &[u64]
        ensures { result.now ≡ R.items self.now.rows }
    {
        self.rows.as_slice()
    }
}
