// The calls of a lesson: begin, and what a desk may ask; what is answered, and the sheet that is handed back.
#![tactic(auto)]

ghost use Rattle.std.specs.Prelude.{◌≡◌, length};
ghost use Rattle.sets.specs.Rows.{rows_of};
ghost use Rattle.refusals.specs.Cases.{decided};
ghost use Rattle.store.specs.Calls.{begin_cases, begun, replied, told};

use refusals::{Refusal, tables};
use sets::Row;
use sheet::Sheet;

mod view; // view.rt: what a desk sees
mod desk; // desk.rt: refusals 4 to 12, and the answers
pub mod in_place; // in_place.rt: a desk's call on a sheet, altered where it lies

// What a delete is aimed at: a table row by its number, or an own row by its place among the desk's own.
#[derive(Clone, Copy, PartialEq, Eq)]
pub enum Target {
    Table(usize),
    Own(usize),
}

// What a desk may do to what it sees: `Insert` holds the row.
#[derive(Clone, Copy, PartialEq, Eq)]
pub enum Change {
    Delete(Target),
    Insert(Row),
    Reset,
}

// What a desk may ask: a question hands the sheet back as it came.
#[derive(Clone, Copy, PartialEq, Eq)]
pub enum Question {
    Look(usize),
    Count,
    Distinct,
}

// The calls of a desk.
#[derive(Clone, Copy, PartialEq, Eq)]
pub enum Call {
    Do(Change),
    Ask(Question),
}

// What an accepted call is answered: a change is done; the set at a position; the rows in the view and the own rows; how many positions were listed.
#[derive(Clone, Copy, PartialEq, Eq)]
pub enum Answer {
    Done,
    Seen(Row),
    Counted(usize, usize),
    Listed(usize),
}

// What every call hands back.
#[derive(Clone, Copy)]
pub struct Reply {
    pub answer: Result<Answer, Refusal>,
    pub sheet: Sheet,
}

// Whether a lesson may begin: refusals 1, 2 and 13.
fn may_begin(table: &[u64], d: usize, desks: usize) -> Result<(), Refusal>
    ensures { result ≡ decided Err (begin_cases d (rows_of table.now) desks) (Ok tt) }
{
    tables::judge(table, d, Sheet::ROWS)?;
    if desks == 0 || Sheet::DESKS < desks {
        return Err(Refusal::BadDesks);
    }
    Ok(())
}

// A lesson begins: a fresh sheet for this table, or a sheet of zeros, which no call accepts.
pub fn begin(table: &[u64], d: usize, desks: usize) -> Reply
    ensures { result ≡ begun d (rows_of table.now) desks }
{
    match may_begin(table, d, desks) {
        Ok(()) => Reply {
            answer: Ok(Answer::Done),
            sheet: Sheet::fresh(d, sets::row_count(table), desks),
        },
        Err(refusal) => Reply {
            answer: Err(refusal),
            sheet: Sheet::fresh(0, 0, 0),
        },
    }
}

// A desk calls: the answer, and the sheet for the next call.
pub fn desk_call(
    table: &[u64],
    d: usize,
    mut sheet: Sheet,
    desk: usize,
    call: Call,
    list: &mut [usize],
) -> Reply
    ensures { (result ≡ replied d (rows_of table.now) sheet desk call (length list.old))
        × (list.new ≡ (told d (rows_of table.now) sheet desk call list.old).list) }
{
    let answer = in_place::carry_out(&mut sheet, table, d, desk, call, list);
    Reply { answer, sheet }
}
