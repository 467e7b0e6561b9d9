// One table through `write`, and what was written through `read`.
use crate::wanted::{BEFORE, Length, Said, Wanted};
use std::io;
use std::io::Write;

// More than any file takes.
const ROOM: usize = 2100;

// The refusal of a file that has bytes behind its rows. (A number, since a script has the request's own: DECISIONS 54.)
const LONG_FILE: u64 = 29;

// One row more than a table may have.
pub const ROWS: usize = 257;

// A table over d values.
#[derive(Clone, Copy, PartialEq, Eq)]
pub struct Table<'a> {
    pub d: usize,
    pub rows: &'a [u64],
}

// The file is read as the table.
fn reads_as(file: &[u8], table: Table<'_>) -> bool {
    let mut list = [0u64; ROWS];
    match files::read(file, &mut list) {
        Ok((d, rows)) => {
            let rows = list.get(..rows).unwrap_or(&[]);
            table == Table { d, rows }
        }
        Err(_) => false,
    }
}

// The number that a file is refused with, or 0.
fn refusal_of(file: &[u8]) -> u64 {
    let mut list = [0u64; ROWS];
    match files::read(file, &mut list) {
        Ok(_) => 0,
        Err(why) => why.number() as u64,
    }
}

// The bytes written are a file; the whole buffer, which is longer, is none.
fn reads_alone(buffer: &[u8], length: u64, table: Table<'_>) -> bool {
    buffer
        .get(..length as usize)
        .is_some_and(|file| reads_as(file, table))
        && refusal_of(buffer) == LONG_FILE
}

// Says what must be answered, and whether all of it came: the answer, every byte and what is read again.
pub fn check(
    out: &mut impl Write,
    table: Table<'_>,
    room: usize,
    wanted: Wanted<'_>,
) -> io::Result<bool> {
    let must = wanted.said;
    write!(out, "{must}")?;
    let mut buffer = [BEFORE; ROOM];
    let saved = files::write(table.d, table.rows, &mut buffer[..room.min(ROOM)]);
    let ours = Said::from(saved.map(|n| Length(n as u64)));
    let right = ours == must
        && wanted.is_whole()
        && wanted.is_in(&buffer)
        && (must.refusal != 0 || reads_alone(&buffer, wanted.length(), table));
    show::conclude(out, right, ours)
}

// A file, read and written again, must give these bytes.
pub fn check_file(out: &mut impl Write, file: &[u8], bytes: &[u64]) -> io::Result<bool> {
    let mut list = [0u64; ROWS];
    match files::read(file, &mut list) {
        Ok((d, rows)) => {
            let said = Said::accepted(Length(bytes.len() as u64));
            let rows = list.get(..rows).unwrap_or(&[]);
            check(out, Table { d, rows }, ROOM, Wanted { said, bytes })
        }
        Err(_) => {
            writeln!(out, "DIFFERS: not read")?;
            Ok(false)
        }
    }
}

// A file must be refused with this number.
pub fn check_refused(out: &mut impl Write, file: &[u8], number: u64) -> io::Result<bool> {
    write!(out, "refused with {number}")?;
    let ours = refusal_of(file);
    show::conclude(out, ours == number, ours)
}
