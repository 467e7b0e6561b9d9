// For the class server, which holds a single sheet: a desk's call that alters it in place.
#![tactic(auto)]

ghost use Rattle.std.specs.Prelude.{◌≡◌, length};
ghost use Rattle.sets.specs.Rows.{rows_of};
ghost use Rattle.store.specs.Calls.{answered, sheet_after, replied, told};

use refusals::Refusal;
use sheet::Sheet;
use store::{Answer, Call, Reply};

// The sheet becomes what `desk_call` hands back, and the answer is its answer. (The request names this form: by the call by value.)
pub fn alter(
    sheet: &mut Sheet,
    table: &[u64],
    d: usize,
    desk: usize,
    call: Call,
    list: &mut [usize],
) -> Result<Answer, Refusal>
    ensures { (result ≡ answered d (rows_of table.now) sheet.old desk call (length list.old))
        × (sheet.new ≡ sheet_after d (rows_of table.now) sheet.old desk call (length list.old))
        × (list.new ≡ (told d (rows_of table.now) sheet.old desk call list.old).list) }
{
    let reply = store::desk_call(table, d, *sheet, desk, call, list);
    *sheet = reply.sheet;
    reply.answer
}

// The same for callers that pass the sheet on by value: a local one is altered in place.
pub fn altered(
    mut sheet: Sheet,
    table: &[u64],
    d: usize,
    desk: usize,
    call: Call,
    list: &mut [usize],
) -> Reply
    ensures { (result ≡ replied d (rows_of table.now) sheet desk call (length list.old))
        × (list.new ≡ (told d (rows_of table.now) sheet desk call list.old).list) }
{
    let answer = alter(&mut sheet, table, d, desk, call, list);
    Reply { answer, sheet }
}
