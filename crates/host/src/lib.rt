// The store for hosts in other languages: plain numbers and slices, and nothing that a host has to promise.
// The two that take a sheet are built into `host_c`, so that it isn't copied once more.
#![tactic(auto)]

ghost use Rattle.std.specs.Prelude.{◌≡◌, length};
ghost use Rattle.sets.specs.Rows.{rows_of};
ghost use Rattle.distinct.specs.Asked.{ask_answer, listed};
ghost use Rattle.host.specs.Numbers.{plain_number};
ghost use Rattle.store.specs.Calls.{begun};
ghost use Rattle.host.specs.Spoken.{asked_by, handed_by, handed, list_of};

use sheet::Sheet;
use store::in_place;

mod lessons; // lessons.rt: lesson files
mod spoken; // spoken.rt: calls and answers as plain numbers

pub use lessons::{foliokettle_read, foliokettle_write};
pub use spoken::{Handed, Plain};

// DISTINCT over a view that belongs to no desk. Answers how many positions stand at the front of the list, or a refusal and its row.
pub fn foliokettle_distinct(d: usize, view: &[u64], list: &mut [usize]) -> Plain
    ensures { (result ≡ plain_number (ask_answer d (rows_of view.now) (length list.old)))
        × (list.new ≡ listed d (rows_of view.now) list.old
        (ask_answer d (rows_of view.now) (length list.old))) }
{
    Plain::from(distinct::ask(d, view, list))
}

// A lesson begins.
pub fn foliokettle_begin(table: &[u64], d: usize, desks: usize) -> Handed
    ensures { result ≡ handed (begun d (rows_of table.now) desks) }
{
    let reply = store::begin(table, d, desks);
    Handed {
        told: Plain::from(reply.answer),
        sheet: reply.sheet,
    }
}

// A desk calls, by the kind of the call and its argument. What is no call is refused by the largest number, and nothing changes.
#[inline(always)]
pub fn foliokettle_call(
    table: &[u64],
    d: usize,
    mut sheet: Sheet,
    desk: usize,
    kind: u64,
    n: u64,
    list: &mut [usize],
) -> Handed
    ensures { (result ≡ handed_by (asked_by kind n) d (rows_of table.now) sheet desk (length list.old))
        × (list.new ≡ list_of (asked_by kind n) d (rows_of table.now) sheet desk list.old) }
{
    let Some(call) = spoken::heard(kind, n) else {
        let told = Plain {
            refusal: u64::MAX,
            first: 0,
            second: 0,
        };
        return Handed { told, sheet };
    };
    let told = Plain::from(in_place::carry_out(&mut sheet, table, d, desk, call, list));
    Handed { told, sheet }
}

// The same for a host that keeps a single sheet: the sheet becomes the one that `foliokettle_call` hands back. (The form that the request names.)
#[inline(always)]
pub fn foliokettle_alter(
    sheet: &mut Sheet,
    table: &[u64],
    d: usize,
    desk: usize,
    kind: u64,
    n: u64,
    list: &mut [usize],
) -> Plain
    ensures { (result ≡ (handed_by (asked_by kind n) d (rows_of table.now) sheet.old desk (length list.old)).told)
        × (sheet.new
        ≡ (handed_by (asked_by kind n) d (rows_of table.now) sheet.old desk (length list.old)).sheet)
        × (list.new ≡ list_of (asked_by kind n) d (rows_of table.now) sheet.old desk list.old) }
{
    let handed = foliokettle_call(table, d, *sheet, desk, kind, n, list);
    *sheet = handed.sheet;
    handed.told
}
