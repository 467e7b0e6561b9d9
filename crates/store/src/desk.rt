// What a desk is answered on a sound sheet: refusals 4 to 12, and the answers.
ghost use Rattle.std.specs.Prelude.{◌≡◌, ◌<◌, ◌≤◌, length};
ghost use Rattle.sets.specs.Limits.{most_values, most_rows, most_desks, most_in_view};
ghost use Rattle.sets.specs.Rows.{bits, as_row, rows_of};
ghost use Rattle.theory.specs.Pairings.{at};
ghost use Rattle.theory.specs.Kept.{kept};
ghost use Rattle.distinct.specs.Code.Steps.{InColumn};
ghost use Rattle.sheet.specs.Sheets.{hides};
ghost use Rattle.store.specs.declared.Answer.TheVariants.{Seen, Listed};
ghost use Rattle.refusals.specs.Cases.{decided};
ghost use Rattle.store.specs.Calls.{desk_cases};
ghost use Rattle.store.specs.Desks.{row_cases, hide_cases, insert_cases, list_cases, list_after};
ghost use Rattle.store.specs.Code.Serving.{Trusted, ChangeJudged, Replied, Served};

use crate::{Answer, Call, Change, Question, Target, view};
use refusals::Refusal;
use sets::Row;
use sheet::Sheet;

// The table lent is of the d and T that the sheet began with, and the desk is one of its desks, or refusal 4 or 5.
#[tactic(auto, unfolding(refusals::specs::Cases::decided))]
pub fn known(d: usize, rows: usize, sheet: &Sheet, desk: usize) -> Result<(), Refusal>
    ensures { result ≡ decided Err (desk_cases d rows sheet.now.d sheet.now.rows sheet.now.desks desk) (Ok tt) }
{
    if sheet.d != d || sheet.rows != rows {
        return Err(Refusal::OtherTable);
    }
    if sheet.desks <= desk {
        return Err(Refusal::NoDesk);
    }
    Ok(())
}

// A table row is hidden, of `rows` that the table has.
#[tactic(auto, unfolding(refusals::specs::Cases::decided))]
fn delete_table(rows: usize, sheet: &Sheet, desk: usize, n: usize) -> Result<(), Refusal>
    requires { (desk < most_desks) × (rows ≤ most_rows) }
    ensures { result ≡ decided Err (hide_cases rows (hides sheet.now.marks desk) n) (Ok tt) }
{
    if rows <= n {
        return Err(Refusal::NoRow);
    }
    if sheet.hides(desk, n) {
        return Err(Refusal::HiddenAlready);
    }
    Ok(())
}

// An own row goes, of those that the desk has.
#[tactic(auto, unfolding(refusals::specs::Cases::decided))]
fn delete_own(held: usize, n: usize) -> Result<(), Refusal>
    ensures { result ≡ decided Err (row_cases held n) (Ok tt) }
{
    if held <= n {
        return Err(Refusal::NoRow);
    }
    Ok(())
}

// A row is put in; `full` where every free place is owed.
#[tactic(auto, unfolding(refusals::specs::Cases::decided))]
fn insert(d: usize, full: bool, held: usize, row: Row) -> Result<(), Refusal>
    requires { d ≤ most_values }
    ensures { result ≡ decided Err (insert_cases d full held (bits row)) (Ok tt) }
{
    if !row.within(d) {
        return Err(Refusal::BadSet);
    }
    if Sheet::HELD <= held {
        return Err(Refusal::Full);
    }
    if held < Sheet::PROMISED {
        return Ok(());
    }
    if full {
        return Err(Refusal::NoRoom);
    }
    Ok(())
}

// A row of the view is shown.
fn look(rows: &[u64], n: usize) -> Result<Answer, Refusal>
    ensures { result ≡ decided Err (row_cases (length (rows_of rows.now)) n) (Ok (Seen (as_row (at (rows_of rows.now) n)))) }
{
    if sets::row_count(rows) <= n {
        return Err(Refusal::NoRow);
    }
    Ok(Answer::Seen(sets::row_at(rows, n)))
}

// The kept rows of the view are listed.
fn list_kept(d: usize, rows: &[u64], list: &mut [usize]) -> Result<Answer, Refusal>
    requires { (length (rows_of rows.now) ≤ most_in_view) × InColumn d (rows_of rows.now) }
    ensures { (result ≡ decided Err (list_cases (length list.old) (length (rows_of rows.now)))
        (Ok (Listed (length (kept d (rows_of rows.now))))))
        × (list.new ≡ list_after (kept d (rows_of rows.now)) result list.old) }
{
    if list.len() < sets::row_count(rows) {
        return Err(Refusal::ShortList);
    }
    Ok(Answer::Listed(distinct::distinct(d, rows, list)))
}

// What a question is answered, of the rows that the desk sees, `held` of them its own; and what it writes.
fn answer_question(
    d: usize,
    rows: &[u64],
    held: usize,
    question: Question,
    list: &mut [usize],
) -> Result<Answer, Refusal>
    requires { (length (rows_of rows.now) ≤ most_in_view) × InColumn d (rows_of rows.now) }
    ensures { Replied d (rows_of rows.now) held question list.old result list.new }
{
    match question {
        Question::Look(n) => look(rows, n),
        Question::Count => Ok(Answer::Counted(sets::row_count(rows), held)),
        Question::Distinct => list_kept(d, rows, list),
    }
}

// Whether a change may be made on a sound sheet.
fn judge_change(
    table: &[u64],
    d: usize,
    sheet: &Sheet,
    counts: &[usize; Sheet::DESKS],
    desk: usize,
    change: Change,
) -> Result<(), Refusal>
    requires { Trusted d (rows_of table.now) sheet.now counts.now desk }
    ensures { ChangeJudged d (rows_of table.now) sheet.now desk change result }
{
    match change {
        Change::Delete(Target::Table(n)) => delete_table(sets::row_count(table), sheet, desk, n),
        Change::Delete(Target::Own(n)) => delete_own(counts[desk], n),
        Change::Insert(row) => {
            let owed = sheet.owed(counts);
            insert(d, sheet.used + owed == Sheet::PLACES, counts[desk], row)
        }
        Change::Reset => Ok(()),
    }
}

// What the desk is told: the answer, and for DISTINCT the kept positions in its list.
pub fn serve(
    table: &[u64],
    d: usize,
    sheet: &Sheet,
    counts: &[usize; Sheet::DESKS],
    desk: usize,
    call: Call,
    list: &mut [usize],
) -> Result<Answer, Refusal>
    requires { Trusted d (rows_of table.now) sheet.now counts.now desk }
    ensures { Served d (rows_of table.now) sheet.now desk call list.old result list.new }
{
    match call {
        Call::Do(change) => {
            judge_change(table, d, sheet, counts, desk, change)?;
            Ok(Answer::Done)
        }
        Call::Ask(question) => {
            let mut rows = [0u64; Sheet::VIEW * sets::WORDS];
            let many = view::gather(table, sheet, desk, &mut rows);
            answer_question(d, &rows[..many * sets::WORDS], counts[desk], question, list)
        }
    }
}
