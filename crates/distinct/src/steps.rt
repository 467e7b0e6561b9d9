// The two steps of DISTINCT, on marks: keep[i] says whether row i is kept.
ghost use Rattle.std.specs.Prelude.{◌≡◌, ◌≤◌, length, replicate};
ghost use Rattle.sets.specs.Limits.{most_in_view};
ghost use Rattle.sets.specs.Rows.{width, rows_of};
ghost use Rattle.theory.specs.Kept.{marks, tries};
ghost use Rattle.minimal.specs.Code.Marking.{NoMarks};
ghost use Rattle.pairing.specs.Code.Seats.{seats};
ghost use Rattle.distinct.specs.Code.Steps.{InColumn, Places, Pairs, offered, marks_then};

use pairing::seats::{Seating, Seats};
use sets::Row;

// A row that has a mate sits on a seat, and there are no more mates than values.
pub const SEATS: usize = sets::VALUES;

// The rows whose mark is `marked` are offered seats in view order, and one that gets a seat is marked. For marked rows that changes no mark.
// Once no value is free, nobody more gets a seat.
fn offer_seats(marked: bool, view: &[u64], keep: &mut [bool], seats: &mut Seats)
    requires { Pairs (rows_of view.now) (offered marked 0 keep.old) seats.old.seating (rows_of seats.old.rows.now) (rows_of seats.old.columns.now)
        seats.old.mates.now }
    ensures { (keep.new ≡ marks_then marked (rows_of view.now) (length (rows_of view.now)) keep.old)
        × Pairs (rows_of view.now) keep.new seats.new.seating (rows_of seats.new.rows.now) (rows_of seats.new.columns.now) seats.new.mates.now }
{
    for i in 0..sets::row_count(view) {
        if seats.seating.free.is_empty() {
            return;
        }
        if keep[i] == marked {
            let row = sets::row_at(view, i);
            if !seats.seating.hopeless(row) {
                keep[i] |= seats.offer(row);
            }
        }
    }
}

// The second step: the marked rows get seats, a largest pairing of them; then the others are tried, and one is kept where it gets a seat.
// Both turns are one call, so that the compiler builds it in, which a small view would feel.
fn second_step(
    d: usize,
    view: &[u64],
    keep: &mut [bool],
    rows: &mut [u64],
    columns: &mut [u64],
    mates: &mut [usize],
)
    requires keep_len { (length keep.old ≡ length (rows_of view.now)) × InColumn d (rows_of view.now) }
    requires rows_len { (length (rows_of rows.old) ≡ seats) × (rows_of columns.old ≡ replicate width 0) × (length mates.old ≡ seats) }
    ensures { keep.new ≡ tries width (rows_of view.now) (length (rows_of view.now)) 0 keep.old }
{
    let all = Row::all(d);
    let none = Row::empty();
    let mut seats = Seats {
        rows,
        columns,
        mates,
        seating: Seating {
            d,
            used: 0,
            entered: 0,
            free: all,
            dead: none,
            fresh: all,
            heavy: none,
        },
    };
    for marked in [true, false] {
        offer_seats(marked, view, keep, &mut seats);
    }
}

// The rows that DISTINCT keeps are marked. `rows` and `mates` are scratch places in the first step, and so need not be made ready for the second
// (and are lent one by one).
pub fn settle(d: usize, view: &[u64], keep: &mut [bool], rows: &mut [u64], mates: &mut [usize])
    requires view_len_bound { (length (rows_of view.now) ≤ most_in_view) × (length keep.old ≡ length (rows_of view.now)) × NoMarks keep.old
        × InColumn d (rows_of view.now) }
    requires places { Places (rows_of view.now) (rows_of rows.old) × Places (rows_of view.now) mates.old }
    ensures { keep.new ≡ marks d (rows_of view.now) }
{
    minimal::mark_minimal(view, keep, mates, rows);
    let mut columns = [0u64; sets::VALUES * sets::WORDS];
    second_step(
        d,
        view,
        keep,
        &mut rows[..SEATS * sets::WORDS],
        &mut columns,
        &mut mates[..SEATS],
    );
}
