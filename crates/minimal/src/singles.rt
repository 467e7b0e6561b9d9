// The rows of one value: they are minimal, and no row that holds such a value and another one is.
ghost use Rattle.std.specs.Prelude.{◌≡◌, ◌≢◌, zero, length};
ghost use Rattle.sets.specs.Rows.{bits, rows_of};
ghost use Rattle.minimal.specs.Code.Marking.{NoMarks, NoneEmpty, IsSingle, Singles, Marks};

use sets::Row;

// The row has one value: without its lowest, it has none.
fn is_single(x: Row) -> bool
    requires { bits x ≢ zero }
    ensures { IsSingle result (bits x) }
{
    x.rest().is_empty()
}

// Marks the rows of one value, of equal ones the first, and answers the set of their values.
pub fn mark_singles(rows: &[u64], keep: &mut [bool]) -> Row
    requires { (length keep.old ≡ length (rows_of rows.now)) × NoMarks keep.old × NoneEmpty (rows_of rows.now) }
    ensures { Singles (rows_of rows.now) (length (rows_of rows.now)) (bits result)
        × Marks (rows_of rows.now) keep.new 0 0 }
{
    let mut singles = Row::empty();
    for i in 0..sets::row_count(rows) {
        let x = sets::row_at(rows, i);
        if is_single(x) && !x.meets(singles) {
            keep[i] = true;
            singles = singles.either(x);
        }
    }
    singles
}
