// The rank of rows by going through every pairing, with no search for a better one.
use families::{choose_each, has, size};

// The family of the value sets that some pairing gives rows to. Each marked row in turn is left out, or given one of its values.
fn paired(view: &[u64], marks: u64) -> u64 {
    // With no row, only the empty set is paired. A value that has a row already makes no new set when it is put in again.
    view.iter()
        .enumerate()
        .filter(|&(i, _)| has(marks, i))
        .fold(1, |sets, (_, &row)| sets | choose_each(sets, row))
}

// The size of the largest set of a family.
fn largest(family: u64) -> usize {
    (0..64)
        .filter(|&set| has(family, set))
        .map(|set| size(set as u64))
        .max()
        .unwrap_or(0)
}

// The size of the largest pairing of the marked rows.
pub fn rank(view: &[u64], marks: u64) -> usize {
    largest(paired(view, marks))
}
