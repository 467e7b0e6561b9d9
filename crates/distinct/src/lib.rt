// DISTINCT over a view: the minimal rows, then the other rows in view order, then the kept positions.
#![tactic(auto)]

ghost use Rattle.std.specs.Prelude.{◌≡◌, ◌≤◌, ◌*◌, ◌++◌, length, drop};
ghost use Rattle.sets.specs.Limits.{most_in_view};
ghost use Rattle.sets.specs.Rows.{row_words, rows_of};
ghost use Rattle.theory.specs.Kept.{kept};
ghost use Rattle.pairing.specs.Code.Seats.{seats};
ghost use Rattle.distinct.specs.Asked.{ask_answer, listed};
ghost use Rattle.distinct.specs.Code.Steps.{Askable};

use refusals::{Refusal, tables};
use sheet::Sheet;
use steps::SEATS;

mod steps; // steps.rt: the two steps, on marks
mod list; // list.rt: the positions of marks into a lent list

// The words that hold as many rows as there are seats, and as a view may have.
const SEAT_WORDS: usize = SEATS * sets::WORDS;

const VIEW_WORDS: usize = Sheet::VIEW * sets::WORDS;

// DISTINCT with N places for the marks, the rows and the mates of the steps: enough for the view, and for the seats. `WORDS` words hold N rows.
// (Arrays, no Vec: an allocation can fail, and DISTINCT can't.)
fn distinct_on<const N: usize, const WORDS: usize>(
    d: usize,
    view: &[u64],
    list: &mut [usize],
) -> usize
    requires askable { Askable d (rows_of view.now) list.old }
    requires places { (length (rows_of view.now) ≤ N) × (seats ≤ N) × (N ≤ most_in_view) × (WORDS ≡ N * row_words) }
    ensures { (result ≡ length (kept d (rows_of view.now)))
        × (list.new ≡ kept d (rows_of view.now) ++ drop result list.old) }
{
    let mut marks = [false; N];
    let keep = &mut marks[..sets::row_count(view)];
    let mut rows = [0u64; WORDS];
    let mut mates = [0usize; N];
    steps::settle(d, view, keep, &mut rows, &mut mates);
    list::list_positions(keep, list)
}

// DISTINCT for a caller that has checked the view: the kept positions go to the front of the list, which keeps its later places.
// Answers their number. A small view gets few places: to make them ready is most of its time.
pub fn distinct(d: usize, view: &[u64], list: &mut [usize]) -> usize
    requires { Askable d (rows_of view.now) list.old }
    ensures { (result ≡ length (kept d (rows_of view.now)))
        × (list.new ≡ kept d (rows_of view.now) ++ drop result list.old) }
{
    if sets::row_count(view) <= SEATS {
        distinct_on::<SEATS, SEAT_WORDS>(d, view, list)
    } else {
        distinct_on::<{ Sheet::VIEW }, VIEW_WORDS>(d, view, list)
    }
}

// DISTINCT for any caller: how many rows are kept; a view that cannot be asked about is refused, with nothing written.
pub fn ask(d: usize, view: &[u64], list: &mut [usize]) -> Result<usize, Refusal>
    ensures { (result ≡ ask_answer d (rows_of view.now) (length list.old))
        × (list.new ≡ listed d (rows_of view.now) list.old result) }
{
    tables::judge(view, d, Sheet::VIEW)?;
    if list.len() < sets::row_count(view) {
        return Err(Refusal::ShortList);
    }
    Ok(distinct(d, view, list))
}
