// What hosts in C link: each function of `host` by its name, with the same clauses. include/foliokettle.h declares them.
// (A static library exports functions of its own alone, and the clauses of each are stated there.)
#![tactic(auto)]

ghost use Rattle.std.specs.Prelude.{◌≡◌, length};
ghost use Rattle.sets.specs.Rows.{rows_of};
ghost use Rattle.distinct.specs.Asked.{ask_answer, listed};
ghost use Rattle.store.specs.Calls.{begun};
ghost use Rattle.files.specs.Reading.{read_answer, filled};
ghost use Rattle.files.specs.Writing.{write_answer, buffer_after};
ghost use Rattle.host.specs.Numbers.{plain_number, plain_read};
ghost use Rattle.host.specs.Spoken.{asked_by, handed_by, handed, list_of};

use host::{Handed, Plain};
use sheet::Sheet;

// DISTINCT over a view that belongs to no desk. Answers how many positions stand at the front of the list, or a refusal and its row.
#[unsafe(no_mangle)]
pub extern "C" fn foliokettle_distinct(d: usize, view: &[u64], list: &mut [usize]) -> Plain
    ensures { (result ≡ plain_number (ask_answer d (rows_of view.now) (length list.old)))
        × (list.new ≡ listed d (rows_of view.now) list.old
        (ask_answer d (rows_of view.now) (length list.old))) }
{
    host::foliokettle_distinct(d, view, list)
}

// A lesson begins.
#[unsafe(no_mangle)]
pub extern "C" fn foliokettle_begin(table: &[u64], d: usize, desks: usize) -> Handed
    ensures { result ≡ handed (begun d (rows_of table.now) desks) }
{
    host::foliokettle_begin(table, d, desks)
}

// A desk calls, by the kind of the call and its argument. What is no call is refused by the largest number, and nothing changes.
#[unsafe(no_mangle)]
pub extern "C" fn foliokettle_call(
    table: &[u64],
    d: usize,
    sheet: Sheet,
    desk: usize,
    kind: u64,
    n: u64,
    list: &mut [usize],
) -> Handed
    ensures { (result ≡ handed_by (asked_by kind n) d (rows_of table.now) sheet desk (length list.old))
        × (list.new ≡ list_of (asked_by kind n) d (rows_of table.now) sheet desk list.old) }
{
    host::foliokettle_call(table, d, sheet, desk, kind, n, list)
}

// The same for a host that keeps a single sheet: the sheet becomes the one that `foliokettle_call` hands back.
#[unsafe(no_mangle)]
pub extern "C" fn foliokettle_alter(
    sheet: &mut Sheet,
    table: &[u64],
    d: usize,
    desk: usize,
    kind: u64,
    n: u64,
    list: &mut [usize],
) -> Plain
    ensures { (result ≡ (handed_by (asked_by kind n) d (rows_of table.now) sheet.old desk (length list.old)).told)
        × (sheet.new
        ≡ (handed_by (asked_by kind n) d (rows_of table.now) sheet.old desk (length list.old)).sheet)
        × (list.new ≡ list_of (asked_by kind n) d (rows_of table.now) sheet.old desk list.old) }
{
    host::foliokettle_alter(sheet, table, d, desk, kind, n, list)
}

// A lesson file into a lent list. Answers d and T, or a refusal and its row.
#[unsafe(no_mangle)]
pub extern "C" fn foliokettle_read(file: &[u8], rows: &mut [u64]) -> Plain
    ensures { (result ≡ plain_read (read_answer file.now (length (rows_of rows.old))))
        × (rows.new ≡ filled file.now rows.old
        (read_answer file.now (length (rows_of rows.old)))) }
{
    host::foliokettle_read(file, rows)
}

// A table as a lesson file into a lent buffer. Answers the file's length, or a refusal and its row.
#[unsafe(no_mangle)]
pub extern "C" fn foliokettle_write(d: usize, table: &[u64], buffer: &mut [u8]) -> Plain
    ensures { (result ≡ plain_number (write_answer d (rows_of table.now) (length buffer.old)))
        × (buffer.new ≡ buffer_after d (rows_of table.now) buffer.old
        (write_answer d (rows_of table.now) (length buffer.old))) }
{
    host::foliokettle_write(d, table, buffer)
}
