// The lines of a script. A line that begins with
//     |  has the table that is lent from here on: table.rt says how it is read;
//     ?  has the neighbour's table, and the turns after it that begin with > are her questions, asked again after every turn;
//     !  ends her questions.
// Any other line has words to print, and where it has a bar it is a turn: turn.rt says how its numbers are read.
ghost use Rattle.std.specs.Prelude.{length};
ghost use Rattle.std.specs.Iterator.{at_most};

use show::{BAR, NEWLINE};

#[derive(Clone, Copy)]
pub enum Line<'a> {
    Table(&'a [u8]),
    // Her table, and the lines after it.
    Neighbour(&'a [u8], Lines<'a>),
    Question(&'a [u8]),
    NoQuestions,
    Words(&'a [u8]),
}

// The lines that are left of a script.
#[derive(Clone, Copy)]
pub struct Lines<'a> {
    rest: &'a [u8],
}

impl<'a> Lines<'a> {
    pub fn of(script: &'a [u8]) -> Lines<'a> {
        Lines { rest: script }
    }
}

impl<'a> Iterator for Lines<'a> {
    type Item = Line<'a>;

    ghost remaining = { λ s. at_most (length s.rest.now) };

    fn next(&mut self) -> Option<Line<'a>> {
        let mark = *self.rest.first()?;
        let newline = self.rest.iter().position(|byte| *byte == NEWLINE);
        let (line, rest) = self.rest.split_at(newline.unwrap_or(self.rest.len()));
        self.rest = rest.get(1..).unwrap_or(&[]);
        Some(match mark {
            BAR => Line::Table(line),
            b'?' => Line::Neighbour(line, *self),
            b'>' => Line::Question(line),
            b'!' => Line::NoQuestions,
            _ => Line::Words(line),
        })
    }
}
