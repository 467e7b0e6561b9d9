// A desk's call on a sheet, altered where it lies.
ghost use Rattle.std.specs.Prelude.{◌≡◌};
ghost use Rattle.sets.specs.Rows.{rows_of};
ghost use Rattle.store.specs.declared.Call.TheVariants.{Do};
ghost use Rattle.store.specs.Calls.{changed_by};
ghost use Rattle.store.specs.Code.Serving.{Possible, Responded, CarriedOut};

use crate::{Answer, Call, Change, Target, desk};
use refusals::{Refusal, tables};
use sheet::Sheet;

// What the desk is answered, and for DISTINCT the kept positions in its list.
// (The arguments are those of `desk_call`, whose form the request names: a struct of them would be made and taken apart in one call.)
fn respond(
    table: &[u64],
    d: usize,
    sheet: &Sheet,
    desk: usize,
    call: Call,
    list: &mut [usize],
) -> Result<Answer, Refusal>
    ensures { Responded d (rows_of table.now) sheet.now desk call list.old result list.new }
{
    tables::judge(table, d, Sheet::ROWS)?;
    let Some(counts) = sheet.survey() else {
        return Err(Refusal::Unsound);
    };
    desk::known(d, sets::row_count(table), sheet, desk)?;
    desk::serve(table, d, sheet, &counts, desk, call, list)
}

// An accepted change is made.
fn make(sheet: &mut Sheet, desk: usize, change: Change)
    requires { Possible sheet.old desk (Do change) }
    ensures { sheet.new ≡ changed_by sheet.old desk change }
{
    match change {
        Change::Delete(Target::Table(n)) => sheet.hide(desk, n),
        Change::Delete(Target::Own(n)) => sheet.take_out(desk, n, n + 1),
        Change::Insert(row) => sheet.put_in(desk, row),
        Change::Reset => {
            sheet.take_out(desk, 0, Sheet::PLACES);
            sheet.show_all(desk);
        }
    }
}

// A desk calls, and the sheet is altered where it lies. Only an accepted change moves it, and only an accepted question writes to the list.
// `desk_call` and the host's call are thin doors to it: a sheet that is handed on by value from function to function is copied each time.
pub fn carry_out(
    sheet: &mut Sheet,
    table: &[u64],
    d: usize,
    desk: usize,
    call: Call,
    list: &mut [usize],
) -> Result<Answer, Refusal>
    ensures { CarriedOut d (rows_of table.now) sheet.old desk call list.old result sheet.new list.new }
{
    let answer = respond(table, d, sheet, desk, call, list);
    let Call::Do(change) = call else {
        return answer;
    };
    if answer.is_ok() {
        make(sheet, desk, change);
    }
    answer
}
