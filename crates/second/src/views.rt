// Small views to compare on, by number.
ghost use Rattle.std.specs.Prelude.{◌<◌};

use arrayvec::ArrayVec;

// The longest view.
pub const MOST: usize = 7;

// How many rows a column of d values can have, for d from 1 to 5: the non-empty sets.
fn row_kinds(d: usize) -> u64
    ensures { 0 < result }
{
    match d {
        1 => 1,
        2 => 3,
        3 => 7,
        4 => 15,
        _ => 31,
    }
}

// The view of a number: its digits are the rows, written with as many digits as there are kinds of rows and with no zero, so that each number has
// its own view, the longer ones after all shorter ones. Where it has more digits, the first `most` are taken.
pub fn spelt(number: u64, d: usize, most: usize) -> ArrayVec<u64, MOST> {
    let kinds = row_kinds(d);
    let mut view = ArrayVec::new();
    let mut left = number;
    for _ in 0..most {
        // Numbers count round and round through the kinds of rows.
        if left == 0 || view.try_push(1 + (left - 1) % kinds).is_err() {
            break;
        }
        left = (left - 1) / kinds;
    }
    view
}

// The next number of a fixed sequence that looks random: Marsaglia's xorshift with 13, 7 and 17.
pub fn stir(state: u64) -> u64 {
    let a = state ^ (state << 13);
    let b = a ^ (a >> 7);
    b ^ (b << 17)
}
