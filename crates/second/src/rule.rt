// Which rows are kept, as the request says it and in no quicker way.
use crate::rank::rank;
use families::{has, with};

// Row i is minimal and the first of those equal to it: no row of the view is a proper subset of it, and no earlier one is the same.
fn first_minimal(view: &[u64], i: usize, row: u64) -> bool {
    view.iter().enumerate().all(|(at, &other)| other & row != other || (other == row && i <= at))
}

// Step 1: of equal minimal rows the first.
fn minimal(view: &[u64]) -> u64 {
    view.iter()
        .enumerate()
        .filter(|&(i, &row)| first_minimal(view, i, row))
        .fold(0, |kept, (i, _)| with(kept, i))
}

// Row i is not kept yet, and raises the rank of the rows kept so far.
fn raises(view: &[u64], kept: u64, i: usize) -> bool {
    !has(kept, i) && rank(view, kept) < rank(view, with(kept, i))
}

// Step 2: the others in view order, where one raises the rank of the rows kept so far.
fn raising(view: &[u64], start: u64) -> u64 {
    let mut kept = start;
    for i in 0..view.len() {
        if raises(view, kept, i) {
            kept = with(kept, i);
        }
    }
    kept
}

// The marks of the rows that DISTINCT is to keep.
pub fn kept(view: &[u64]) -> u64 {
    raising(view, minimal(view))
}
