// A neighbour who asks her questions again after every turn, and must be told the same.
use crate::lines::{Line, Lines};
use crate::table::Table;
use crate::trial::Trial;
use crate::turn::Turn;
use sheet::Sheet;
use show::Tally;
use std::io;
use std::io::Write;

// Her table, and the lines after it, of which those that are questions are her turns. (They are read again each time she asks: kept as turns, they
// would take up to sixty times the room of the script.)
#[derive(Drop)]
pub struct Neighbour<'a> {
    table: Table,
    after: Lines<'a>,
}

impl<'a> Neighbour<'a> {
    // The neighbour whose table a line has.
    pub fn read(line: &[u8], after: Lines<'a>) -> Neighbour<'a> {
        Neighbour {
            table: Table::read(line),
            after,
        }
    }

    // She asks one, and is told what it must be.
    fn is_told(&self, sheet: &Sheet, turn: Turn) -> bool {
        Trial::new(&self.table, *sheet, turn)
            .at_every_door()
            .is_ok()
    }

    // She asks some, and each is told what it must be.
    pub fn is_told_the_same(&self, sheet: &Sheet) -> bool {
        let mut right = false;
        for line in self.after {
            let Line::Question(text) = line else {
                break;
            };
            right = self.is_told(sheet, Turn::read(text));
            if !right {
                break;
            }
        }
        right
    }
}

// What she says of it, in a different way each time.
pub fn says(out: &mut impl Write, looks: Tally) -> io::Result<()> {
    if looks.differ != 0 {
        return write!(out, " LENA'S ROWS HAVE CHANGED.");
    }
    match looks.agree % 4 {
        0 => write!(out, " Lena: no change."),
        1 => write!(out, " Lena: all there."),
        2 => write!(out, " Lena: as before."),
        _ => write!(out, " Lena: the same rows."),
    }
}
