// Comparisons counted.
use std::io;
use std::io::Write;

// How many agree, and how many differ.
#[derive(Clone, Copy, Default)]
pub struct Tally {
    pub agree: usize,
    pub differ: usize,
}

impl Tally {
    // One comparison more, which agrees or differs. A count that is full stays so.
    pub fn count(self, agrees: bool) -> Tally {
        if agrees {
            Tally {
                agree: self.agree.saturating_add(1),
                ..self
            }
        } else {
            Tally {
                differ: self.differ.saturating_add(1),
                ..self
            }
        }
    }

    // The last line: all agree, or how many do not.
    pub fn conclude(self, out: &mut impl Write) -> io::Result<()> {
        let Tally { agree, differ } = self;
        if differ == 0 {
            writeln!(out, "\nAll {agree} comparisons agree.")
        } else {
            writeln!(out, "\n{differ} comparisons DIFFER, and {agree} agree.")
        }
    }
}
