// The columns: a set of seats for each value, those whose rows hold it, so that a value finds the rows to ask at once.
ghost use Rattle.std.specs.Prelude.{◌≡◌, ◌<◌, ◌≤◌, length};
ghost use Rattle.sets.specs.Rows.{width, bits, rows_of};
ghost use Rattle.pairing.specs.Code.Asking.{Index};
ghost use Rattle.pairing.specs.Code.Seats.{seats, Entered};

use sets::Row;

// A row of at most so many values is light. Any number would be right; were all rows light, 64 rows of 32 values would take three times as long.
const LIGHT: usize = 8;

// Row i goes into the columns of its values.
fn enter(row: Row, i: usize, columns: &mut [u64])
    requires { (i < seats) × (length (rows_of columns.old) ≡ width) }
    ensures { Entered (bits row) i (rows_of columns.old) (rows_of columns.new) }
{
    for v in row {
        let more = sets::row_at(columns, v).with(i);
        sets::put_row(columns, v, more);
    }
}

// The light rows, from seat `entered` on, go into columns, where a search finds them at once; a row of many values is found soon anyway.
// They wait for a search, since most small views need none: entered as they sit, 16 rows would take a third longer.
pub fn enter_light(entered: usize, heavy: Row, rows: &[u64], columns: &mut [u64]) -> Row
    requires { (length (rows_of rows.now) ≤ seats) × Index (rows_of rows.now) (rows_of columns.old) (bits heavy) }
    ensures { Index (rows_of rows.now) (rows_of columns.new) (bits result) }
{
    let mut left = heavy;
    for i in entered..sets::row_count(rows) {
        let row = sets::row_at(rows, i);
        if row.count() <= LIGHT {
            enter(row, i, columns);
            left = left.without(i);
        }
    }
    left
}
