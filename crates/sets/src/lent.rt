// The rows of lent words. These functions and those of lib.rt that read a row's words are the only ones that know how many a row has.
ghost use Rattle.std.specs.Prelude.{◌≡◌, ◌<◌, length, get_or};
ghost use Rattle.sets.specs.Rows.{bits, Holds, rows_of, put_row};
ghost use Rattle.sets.specs.Tables.{bad_row};

use crate::Row;

// How many rows the words hold.
pub fn row_count(words: &[u64]) -> usize
    ensures { result ≡ length (rows_of words.now) }
{
    words.len()
}

// Row i of the words.
pub fn row_at(words: &[u64], i: usize) -> Row
    requires { i < length (rows_of words.now) }
    ensures { Holds result (get_or (rows_of words.now) i 0) }
{
    Row { low: words[i] }
}

// Row i of the words becomes `row`. (Its word is computed, not only copied: so the prover knows it for a word.)
pub fn put_row(words: &mut [u64], i: usize, row: Row)
    requires { i < length (rows_of words.old) }
    ensures { words.new ≡ put_row words.old i (bits row) }
{
    words[i] = row.low | 0;
}

// The lowest row that is empty or has a value d or above.
pub fn bad_row(table: &[u64], d: usize) -> Option<usize>
    ensures { result ≡ bad_row d (rows_of table.now) }
{
    for i in 0..row_count(table) {
        if !row_at(table, i).within(d) {
            return Some(i);
        }
    }
    None
}
