// Lesson files for hosts in other languages.
ghost use Rattle.std.specs.Prelude.{◌≡◌, length};
ghost use Rattle.sets.specs.Rows.{rows_of};
ghost use Rattle.files.specs.Reading.{read_answer, filled};
ghost use Rattle.files.specs.Writing.{write_answer, buffer_after};
ghost use Rattle.host.specs.Numbers.{plain_number, plain_read};

use crate::spoken::Plain;

// A lesson file into a lent list. Answers d and T, or a refusal and its row.
pub fn foliokettle_read(file: &[u8], rows: &mut [u64]) -> Plain
    ensures { (result ≡ plain_read (read_answer file.now (length (rows_of rows.old))))
        × (rows.new ≡ filled file.now rows.old
        (read_answer file.now (length (rows_of rows.old)))) }
{
    Plain::from(files::read(file, rows))
}

// A table as a lesson file into a lent buffer. Answers the file's length, or a refusal and its row.
pub fn foliokettle_write(d: usize, table: &[u64], buffer: &mut [u8]) -> Plain
    ensures { (result ≡ plain_number (write_answer d (rows_of table.now) (length buffer.old)))
        × (buffer.new ≡ buffer_after d (rows_of table.now) buffer.old
        (write_answer d (rows_of table.now) (length buffer.old))) }
{
    Plain::from(files::write(d, table, buffer))
}
