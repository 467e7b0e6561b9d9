// The first step of DISTINCT: marks the minimal rows of a view, of equal ones the first.
// Rows of one value are minimal, and no row that holds such a value and another one is. The other rows are judged by how many values they have,
// few values first: a proper subset has fewer, so it is judged before. A row that is the same as the row before it is not the first of equal ones.
#![tactic(auto)]

ghost use Rattle.std.specs.Prelude.{◌≡◌, ◌≤◌, length};
ghost use Rattle.sets.specs.Limits.{most_in_view};
ghost use Rattle.sets.specs.Rows.{rows_of};
ghost use Rattle.theory.specs.Kept.{firsts};
ghost use Rattle.minimal.specs.Code.Marking.{NoMarks, NoneEmpty};

mod singles; // singles.rt: the rows of one value
mod chains; // chains.rt: the other rows, in chains by how many values they have
mod tags; // tags.rt: rows of as many values are told apart
mod sieve; // sieve.rt: the rows of the chains are judged, few values first

// Marks the minimal rows, of equal ones the first. `next` and `mins` are scratch places.
// (What is asked of a view stands in the contract, since docs/PROMISES.md names this function, whose callers lend plain words;
// a struct for the two functions below would be made here for one call of each, and each asks for more beside it.)
pub fn mark_minimal(rows: &[u64], keep: &mut [bool], next: &mut [usize], mins: &mut [u64])
    requires rows_len_bound { (length (rows_of rows.now) ≤ most_in_view) × (length keep.old ≡ length (rows_of rows.now)) × NoMarks keep.old
        × NoneEmpty (rows_of rows.now) }
    requires rows_in_bounds { (length (rows_of rows.now) ≤ length next.old) × (length (rows_of rows.now) ≤ length (rows_of mins.old)) }
    ensures { keep.new ≡ firsts (rows_of rows.now) }
{
    let singles = singles::mark_singles(rows, keep);
    sieve::sift(rows, singles, keep, next, mins);
}
