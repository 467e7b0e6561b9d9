// What a desk sees: the table rows that it does not hide, then its own.
ghost use Rattle.std.specs.Prelude.{◌≡◌, ℕ, Bool, ◌<◌, ◌≤◌, ◌+◌, length};
ghost use Rattle.sets.specs.Limits.{most_rows, most_desks, most_places, most_held, most_in_view};
ghost use Rattle.sets.specs.Rows.{rows_of};
ghost use Rattle.sheet.specs.Upto.{count_to, those};
ghost use Rattle.sheet.specs.Sheets.{owns, hides};
ghost use Rattle.store.specs.Code.Views.{Decides, Filled, Viewed};

use sheet::Sheet;

// The rows of `from` that pass go behind the first `start` rows: row i passes where `passes(i)` says so. Answers how many rows there are then.
// (`many` is no slice's length: to cut the sheet's places at the used ones, one would count words.)
fn put_those<F: Fn(usize) -> bool>(
    from: &[u64],
    many: usize,
    passes: F,
    start: usize,
    rows: &mut [u64],
) -> usize
    ghost f: { ℕ → Bool }
    requires test { Decides (F.pre passes) (F.post passes) f many }
    requires from_long { many ≤ length (rows_of from.now) }
    requires rows_long { start + count_to f many ≤ length (rows_of rows.old) }
    ensures { Filled f (rows_of from.now) many start (rows_of rows.old) result (rows_of rows.new) }
{
    let mut n = start;
    for i in 0..many {
        if passes(i) {
            sets::put_row(rows, n, sets::row_at(from, i));
            n += 1;
        }
    }
    n
}

// The desk's view goes to the front of the rows. Answers how many rows it has.
pub fn gather(table: &[u64], sheet: &Sheet, desk: usize, rows: &mut [u64]) -> usize
    requires { (desk < most_desks) × (length (rows_of table.now) ≤ most_rows)
        × (sheet.now.used ≤ most_places) × (count_to (owns sheet.now.owners desk) sheet.now.used ≤ most_held)
        × (length (rows_of rows.old) ≡ most_in_view) }
    ensures { Viewed (rows_of table.now) (hides sheet.now.marks desk)
        (those (owns sheet.now.owners desk) (rows_of sheet.now.sets) sheet.now.used) result (rows_of rows.new) }
{
    let seen = put_those(
        table,
        sets::row_count(table),
        |i| !sheet.hides(desk, i),
        0,
        rows,
    );
    put_those(
        &sheet.sets,
        sheet.used,
        |i| sheet.owners[i] == desk,
        seen,
        rows,
    )
}
