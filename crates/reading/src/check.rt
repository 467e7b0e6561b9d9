// One file through `read` and through the reader.
use sets::Row;
use std::io::Write;
use std::{fmt, io};

// What stands in the list before the call, to see what is written.
const BEFORE: u64 = 77;

const PLACES: usize = 300;

// What is told of a file that is read: d and T.
#[derive(Clone, Copy, PartialEq, Eq, Default)]
pub struct Header {
    pub d: u64,
    pub rows: u64,
}

impl fmt::Display for Header {
    fn fmt<W: fmt::Write>(&self, f: &mut fmt::Formatter<W>) -> fmt::Result {
        write!(f, "d {}, {} rows", self.d, self.rows)
    }
}

// Of a file refusal 26 is of a row.
pub type Said = show::Said<Header, 26>;

// The d and T of a file.
impl From<(usize, usize)> for Header {
    fn from((d, rows): (usize, usize)) -> Header {
        Header {
            d: d as u64,
            rows: rows as u64,
        }
    }
}

// Every place of the list holds what it should: a cell where the file is read and has so many, or else what stood there.
fn list_right(list: &[u64], refusal: u64, cells: &[u64]) -> bool {
    let written = if refusal == 0 { cells } else { &[] };
    list.iter().enumerate().all(|(i, &cell)| cell == written.get(i).copied().unwrap_or(BEFORE))
}

// The reader has no more rows there, and its cursor stays.
fn no_more(file: &[u8], at: usize) -> bool {
    let step = files::take(file, at);
    step.row.is_none() && step.next == at
}

// The reader hands out these cells in turn, and then says that there are no more, and says so again.
fn turns_right(file: &[u8], cells: &[u64]) -> bool {
    cells.iter().enumerate().all(|(i, &cell)| {
        let step = files::take(file, i);
        step.row == Some(Row::from(cell)) && step.next == i + 1
    }) && no_more(file, cells.len())
        && no_more(file, cells.len())
}

// Says what must be answered, and whether all of it came: the answer, the list and the reader's turns.
pub fn check(
    out: &mut impl Write,
    file: &[u8],
    places: usize,
    must: Said,
    cells: &[u64],
) -> io::Result<bool> {
    write!(out, "{must}")?;
    let mut list = [BEFORE; PLACES];
    let read = files::read(file, &mut list[..places.min(PLACES)]);
    let ours = Said::from(read.map(Header::from));
    let right = ours == must && list_right(&list, must.refusal, cells) && turns_right(file, cells);
    show::conclude(out, right, ours)
}
