// Lesson files: a table out of bytes, all at once or row by row, and into bytes.
#![tactic(auto)]

ghost use Rattle.std.specs.Prelude.{◌≡◌, length};
ghost use Rattle.sets.specs.Rows.{rows_of};
ghost use Rattle.files.specs.Reading.{read_answer, filled};
ghost use Rattle.files.specs.RowByRow.{step_at};
ghost use Rattle.files.specs.Writing.{write_answer, buffer_after};

use refusals::{Refusal, tables};
use sets::Row;
use sheet::Sheet;

mod numbers; // numbers.rt: numbers in bytes, and the rows of a file
mod judge; // judge.rt: refusals 20 to 26, and 29
mod cells; // cells.rt: a file that is not refused, and its cells
mod reader; // reader.rt: row by row
mod writer; // writer.rt: a table's bytes, put into a buffer

pub use reader::{Reader, take};

// The row that a reader hands out, or that there are no more, and the cursor after it.
#[derive(Clone, Copy)]
pub struct Step {
    pub row: Option<Row>,
    pub next: usize,
}

// A lesson file into a lent list: d and T, or the refusal that is first in their order, with nothing written.
pub fn read(file: &[u8], rows: &mut [u64]) -> Result<(usize, usize), Refusal>
    ensures { (result ≡ read_answer file.now (length (rows_of rows.old)))
        × (rows.new ≡ filled file.now rows.old result) }
{
    let judged = judge::judge(file)?;
    if sets::row_count(rows) < judged.rows {
        return Err(Refusal::FewPlaces);
    }
    judged.fill(rows);
    Ok((judged.d, judged.rows))
}

// What stands at a cursor, and where the cursor goes.
#[tactic(auto, unfolding(crate::specs::RowByRow::step_at))]
pub fn step_at(file: &[u8], at: usize) -> Step
    ensures { result ≡ step_at file.now at }
{
    match judge::judge(file) {
        Ok(judged) if at < judged.rows => Step {
            row: Some(judged.cell(at)),
            next: at + 1,
        },
        _ => Step {
            row: None,
            next: at,
        },
    }
}

// A table as a lesson file at the front of a lent buffer: the file's length, or the lowest refusal, with nothing written.
pub fn write(d: usize, table: &[u64], buffer: &mut [u8]) -> Result<usize, Refusal>
    ensures { (result ≡ write_answer d (rows_of table.now) (length buffer.old))
        × (buffer.new ≡ buffer_after d (rows_of table.now) buffer.old result) }
{
    tables::judge(table, d, Sheet::ROWS)?;
    let t = sets::row_count(table);
    let length = 8 + 8 * t;
    if buffer.len() < length {
        return Err(Refusal::ShortBuffer);
    }
    writer::put_header(buffer, d, t);
    writer::put_rows(buffer, table);
    Ok(length)
}
