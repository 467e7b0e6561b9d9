// The sieve: rows of few values are judged first, since a proper subset has fewer, each against the minimal rows found so far.
ghost use Rattle.std.specs.Prelude.{◌≡◌, ◌+◌, ◌≤◌, length};
ghost use Rattle.sets.specs.Limits.{most_in_view};
ghost use Rattle.sets.specs.Rows.{width, bits, rows_of};
ghost use Rattle.theory.specs.Kept.{firsts};
ghost use Rattle.minimal.specs.Code.Marking.{NoneEmpty, Singles, Marks, Scanned, Chains, Sieve};

use crate::chains;
use crate::chains::{Chained, SIZES};
use crate::tags::Tags;
use sets::Row;

// None of the first `found` rows of `mins` is a subset of x: each has a value that x has not.
// Four rows are tested at a time, and the rest one by one: all one by one, 320 rows of many values would take half as long again.
fn none_within(mins: &[u64], found: usize, x: Row) -> bool
    requires { found ≤ length (rows_of mins.now) }
    ensures { Scanned result (rows_of mins.now) found (bits x) }
{
    let others = Row::all(sets::VALUES).minus(x);
    for four in 0..found / 4 {
        let next = 4 * four;
        let a = sets::row_at(mins, next).meets(others);
        let b = sets::row_at(mins, next + 1).meets(others);
        let c = sets::row_at(mins, next + 2).meets(others);
        let d = sets::row_at(mins, next + 3).meets(others);
        if !a | !b | !c | !d {
            return false;
        }
    }
    for i in found / 4 * 4..found {
        if !sets::row_at(mins, i).meets(others) {
            return false;
        }
    }
    true
}

// Judges the chained rows of k values: one that has no subset among the minimal rows found so far is minimal too.
// (The walk follows links, not an index, and so it is a `while`.)
fn level(
    rows: &[u64],
    chained: &Chained,
    k: usize,
    keep: &mut [bool],
    mins: &mut [u64],
    mut found: usize,
) -> usize
    requires k_le_width { (k ≤ width) × (length (rows_of rows.now) ≤ length (rows_of mins.old))
        × Chains (rows_of rows.now) chained.now.next.now chained.now.head.now 0 }
    requires sieve { Sieve (rows_of rows.now) keep.old (rows_of mins.old) found k 0 }
    ensures { Sieve (rows_of rows.now) keep.new (rows_of mins.new) result (k + 1) 0 }
{
    let n = sets::row_count(rows);
    let base = found;
    let mut tags = Tags::none();
    let mut place = usize::from(chained.head[k]);
    while place < n {
        let i = place;
        place = chained.next[i];
        let x = sets::row_at(rows, i);
        if none_within(mins, tags.to_test(x, base, found), x) {
            keep[i] = true;
            sets::put_row(mins, found, x);
            found += 1;
            tags.add(x);
        }
    }
    found
}

// Judges the rows that have no value of `singles`, few values first. `next` and `mins` are scratch places.
pub fn sift(rows: &[u64], singles: Row, keep: &mut [bool], next: &mut [usize], mins: &mut [u64])
    requires rows_len_bound { (length (rows_of rows.now) ≤ most_in_view) × NoneEmpty (rows_of rows.now)
        × Singles (rows_of rows.now) (length (rows_of rows.now)) (bits singles) }
    requires rows_in_bounds { (length (rows_of rows.now) ≤ length next.old) × (length (rows_of rows.now) ≤ length (rows_of mins.old))
        × Marks (rows_of rows.now) keep.old 0 0 }
    ensures { keep.new ≡ firsts (rows_of rows.now) }
{
    let mut head = [sets::row_count(rows) as u16; SIZES];
    let sizes = chains::chain(rows, singles, next, &mut head);
    let chained = Chained { head: &head, next };
    let mut found: usize = 0;
    for less in sizes {
        let k = less + 1;
        found = level(rows, &chained, k, keep, mins, found);
    }
}
