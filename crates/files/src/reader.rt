// The reader: a lesson file and a cursor, which hands out the rows in turn.
ghost use Rattle.std.specs.Prelude.{◌≡◌};
ghost use Rattle.files.specs.RowByRow.{step_at, moved};

use crate::{Step, step_at};
use sets::Row;

// `at` is the number of the row that is handed out next.
#[derive(Clone, Copy)]
pub struct Reader<'a> {
    pub file: &'a [u8],
    pub at: usize,
}

impl<'a> Reader<'a> {
    // A reader before the first row.
    pub fn new(file: &'a [u8]) -> Reader<'a>
        ensures { (result.file ≡ file.entry) × (result.at ≡ 0) }
    {
        Reader { file, at: 0 }
    }

    // The next row, or that there are no more; the cursor moves on. (No `Iterator`: `next_contract` is a theorem about this contract.)
    pub fn next(&mut self) -> Option<Row>
        ensures { (result ≡ (step_at self.old.file.now self.old.at).row)
            × (self.new ≡ moved self.old) }
    {
        let step = step_at(self.file, self.at);
        self.at = step.next;
        step.row
    }
}

// One step of a reader, for callers that keep the file and the cursor apart.
pub fn take(file: &[u8], at: usize) -> Step
    ensures { result ≡ step_at file.now at }
{
    let mut reader = Reader { file, at };
    let row = reader.next();
    Step {
        row,
        next: reader.at,
    }
}
