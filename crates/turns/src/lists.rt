// What a lent list holds after a call.
use sheet::Sheet;

// A list with a place for every row of the longest view.
pub const PLENTY: usize = Sheet::VIEW;

// What stands in each place of the list before the call: no position of any view.
pub const LENT: usize = 999;

// The positions in the first n places of a list, as a set, if it is tidy: they rise, and every later place holds what it had.
// No script lists a position above 63, so a word holds the set.
pub fn read(list: &[usize; PLENTY], n: u64) -> Option<u64> {
    let (front, later) = list.split_at(PLENTY.min(n as usize));
    if later.iter().any(|place| *place != LENT) {
        return None;
    }
    let mut kept: u64 = 0;
    for position in front {
        if 64 <= *position || kept >> *position != 0 {
            return None;
        }
        kept |= 1 << *position;
    }
    Some(kept)
}
