// A line of the script has words to print. Where it has a bar, it stands for a table: after the bar come its numbers,
//     d rows set row *other =refusal row length /room @bytes
// The table has so many rows of one set, but for one row, which has the other. The answer is what follows the =, the lent buffer has so many bytes,
// and the file is these bytes; rows that are not written out are as the last one.
// Where it has a < instead, it stands for a file: after the < come its bytes, and then after a > those that must be written once it is read, or
// after an = the number that it must be refused with.
use crate::check;
use crate::check::{ROWS, Table};
use crate::wanted::{Length, Said, Wanted};
use arrayvec::ArrayVec;
use show::{Columns, split_before};
use std::io;
use std::io::Write;

// The number after an = stands in this column.
const REFUSAL: usize = 4;

// The bytes of a line begin at this column.
const BYTES: usize = 11;

// Bytes of a file that a line writes out.
const MOST: usize = 40;

// A table of 257 rows: the set in each row but one.
fn rows(set: u64, row: u64, other: u64) -> [u64; ROWS] {
    let mut table = [set; ROWS];
    if let Some(changed) = table.get_mut(row as usize) {
        *changed = other;
    }
    table
}

// The table of the numbers. Where they say nothing else, all rows are the same and the buffer takes any file.
fn table_trial(out: &mut impl Write, numbers: &[u8]) -> io::Result<bool> {
    let mut usual = [0u64; BYTES + MOST];
    usual[3] = 257;
    usual[9] = 2100;
    let line = Columns::read(numbers, usual);
    let [
        d,
        many,
        set,
        changed,
        refusal,
        row,
        length,
        _,
        other,
        room,
        ..
    ] = line.row;
    let rows = rows(set, changed, other);
    let table = Table {
        d: d as usize,
        rows: rows.get(..many as usize).unwrap_or(&[]),
    };
    let wanted = Wanted {
        said: Said {
            refusal,
            row,
            told: Length(length),
        },
        bytes: line.from_column(BYTES),
    };
    check::check(out, table, room as usize, wanted)
}

// The numbers as bytes.
fn bytes(numbers: &[u64]) -> ArrayVec<u8, MOST> {
    let mut bytes = ArrayVec::new();
    for &n in numbers {
        if bytes.try_push((n % 256) as u8).is_err() {
            break;
        }
    }
    bytes
}

// The numbers of a part of a line with a file.
fn listed(numbers: &[u8]) -> Columns<MOST> {
    Columns::read(numbers, [0; MOST])
}

// A file that is read and written again, or refused.
fn file_trial(out: &mut impl Write, text: &[u8]) -> io::Result<bool> {
    if let Some((file, refusal)) = split_before(text, b'=') {
        let file = bytes(listed(file).from_column(0));
        return check::check_refused(out, &file, listed(refusal).row[REFUSAL]);
    }
    let (file, again) = split_before(text, b'>').unwrap_or((text, &[]));
    let file = bytes(listed(file).from_column(0));
    check::check_file(out, &file, listed(again).from_column(0))
}

// The table or the file of the numbers, which begin with their sign.
pub fn trial(out: &mut impl Write, numbers: &[u8]) -> io::Result<bool> {
    if numbers.first() == Some(&b'<') {
        file_trial(out, numbers)
    } else {
        table_trial(out, numbers)
    }
}
