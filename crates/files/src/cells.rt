// A file that is not refused, and its cells.
ghost use Rattle.std.specs.Prelude.{◌≡◌, ◌<◌, ◌≤◌, ◌*◌, ◌++◌, length, drop, Ok};
ghost use Rattle.sets.specs.Rows.{row_words, Holds, rows_of, in_words};
ghost use Rattle.files.specs.Files.{cell_in, cells_in};
ghost use Rattle.files.specs.Reading.{judged};

use crate::numbers;
use sets::Row;

// The file, its d, and as `rows` its T.
#[derive(Clone, Copy)]
pub struct Judged<'a> {
    pub file: &'a [u8],
    pub d: usize,
    pub rows: usize,
    ghost accepted: { judged file.now ≡ Ok (d, rows) },
}

impl Judged<'_> {
    // The cell of row i: an unknown one stands for all values of the column.
    pub fn cell(&self, i: usize) -> Row
        requires { i < self.now.rows }
        ensures { Holds result (cell_in self.now.file.now i) }
    {
        let row = numbers::row(self.file, i);
        if row.is_empty() {
            Row::all(self.d)
        } else {
            row
        }
    }

    // All cells go to the front of the list, which keeps its later places.
    pub fn fill(&self, list: &mut [u64])
        requires { self.now.rows ≤ length (rows_of list.old) }
        ensures { list.new ≡ in_words (cells_in self.now.file.now) ++ drop (self.now.rows * row_words) list.old }
    {
        for next in 0..self.rows {
            sets::put_row(list, next, self.cell(next));
        }
    }
}
