// Sets of values and families of sets, from the paper's definitions alone, by going through every choice.
// (Nothing of `sets`: what the store is compared with must not stand on the store.)
// Value v is in a set where bit v of the set's number is 1; in the same way the set numbered s is in a family where bit s of the
// family's number is 1.
// A family has room for the sets of 6 values. A sublist of a view is given by marks: position i is in it where bit i is 1.
#![tactic(auto)]

// The marks of every position.
pub const EVERY: u64 = u64::MAX;

// Value v is in the set; so too a set in a family, and a position in marks. No number has a bit 64.
pub fn has(set: u64, v: usize) -> bool {
    v < 64 && (set >> v) % 2 == 1
}

// The set with the value v put in.
pub fn with(set: u64, v: usize) -> u64 {
    if v < 64 { set | (1 << v) } else { set }
}

// How many values the set has.
pub fn size(set: u64) -> usize {
    set.count_ones() as usize
}

// The marks of the first n positions of a list.
pub fn marked(list: &[usize], n: usize) -> u64 {
    list.iter().take(n).fold(0, |marks, &i| with(marks, i))
}

// What a value set becomes when one row more is gone through: the family of the set with one of the row's values put in, whichever is chosen.
fn choose(set: usize, row: u64) -> u64 {
    let mut family = 0;
    for v in 0..6 {
        if has(row, v) {
            family = with(family, with(set as u64, v) as usize);
        }
    }
    family
}

// What a family becomes when one row more is gone through, from every one of its sets.
pub fn choose_each(family: u64, row: u64) -> u64 {
    let mut grown = 0;
    for set in 0..64 {
        if has(family, set) {
            grown |= choose(set, row);
        }
    }
    grown
}

// The family of the marked rows: the value sets of all choices. A choice starts with the empty set, which has number 0.
pub fn family(view: &[u64], marks: u64) -> u64 {
    let sets = view
        .iter()
        .enumerate()
        .filter(|&(i, _)| has(marks, i))
        .fold(1, |sets, (_, &row)| choose_each(sets, row));
    // Still only the empty set: no row is marked, and then the family is empty (Definition 2.5).
    if sets == 1 { 0 } else { sets }
}

// The fewest rows of any sublist with the view's family, by trying every sublist: for views of a few rows.
pub fn fewest(view: &[u64]) -> usize {
    let whole = family(view, EVERY);
    (0..with(0, view.len()))
        .filter(|&marks| family(view, marks) == whole)
        .map(size)
        .min()
        .unwrap_or(view.len())
}
