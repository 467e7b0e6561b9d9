// The rows that are to be judged, in chains: one for each number of values that a row can have.
ghost use Rattle.std.specs.Prelude.{◌≡◌, true, false, ◌+◌, ◌≤◌, ◌<◌, length};
ghost use Rattle.sets.specs.Limits.{most_in_view};
ghost use Rattle.sets.specs.Rows.{width, bits, rows_of};
ghost use Rattle.minimal.specs.Code.Marking.{NoneEmpty, Singles, Repeats, Past, Chains, Sizes};

use sets::Row;

// How many sizes a row can have: from no value to all of them.
pub const SIZES: usize = sets::VALUES + 1;

// Row i is the same as the row before it, and so not the first of equal ones. A view of equal rows would take half as long again.
fn repeats(rows: &[u64], i: usize) -> bool
    requires { i < length (rows_of rows.now) }
    ensures { (result ≡ true → Repeats (rows_of rows.now) i) × (result ≡ false → Repeats (rows_of rows.now) i → ⊥) }
{
    0 < i && sets::row_at(rows, i - 1).equal(sets::row_at(rows, i))
}

// The chained rows, in view order. `head[k]` is the first place with k values, and `next[i]` the next one after i with as many as row i:
// a number past the view where there is none.
// (Plain numbers in lent places, no Options or Vecs: `next` is lent to `mark_minimal`, for it serves the second step as mates, and holds the heads.)
#[derive(Clone, Copy)]
pub struct Chained<'a> {
    pub head: &'a [u16],
    pub next: &'a [usize],
}

// Chains the rows that have no value of `singles` and are not the same as the row before it.
// Answers how many values the chained rows have: the set has k - 1 where there are rows of k values.
// (It fills places of the caller: a `Chained` that it made, with the heads in it, would be copied, and a view of one row would take twice as long.)
pub fn chain(rows: &[u64], singles: Row, next: &mut [usize], head: &mut [u16]) -> Row
    requires rows_len_bound { (length (rows_of rows.now) ≤ most_in_view) × NoneEmpty (rows_of rows.now)
        × Singles (rows_of rows.now) (length (rows_of rows.now)) (bits singles) }
    requires rows_in_bounds { (length (rows_of rows.now) ≤ length next.old) × (length head.old ≡ width + 1) × Past (rows_of rows.now) head.old }
    ensures { Chains (rows_of rows.now) next.new head.new 0 × Sizes (rows_of rows.now) 0 (bits result) }
{
    let mut sizes = Row::empty();
    for i in (0..sets::row_count(rows)).rev() {
        let row = sets::row_at(rows, i);
        if !row.meets(singles) && !repeats(rows, i) {
            let k = row.count();
            next[i] = usize::from(head[k]);
            head[k] = i as u16;
            sizes = sizes.with(k - 1);
        }
    }
    sizes
}
