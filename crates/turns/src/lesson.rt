// A script from its first line to its last.
use crate::kind::Kind;
use crate::lines::{Line, Lines};
use crate::neighbour::Neighbour;
use crate::table::Table;
use crate::told::Told;
use crate::trial::Trial;
use crate::turn::Turn;
use crate::{neighbour, words};
use sheet::Sheet;
use show::{BAR, Tally};
use std::alloc::Global;
use std::io;
use std::io::Write;

// How often all was as it must be, in the turns and in the neighbour's looks.
#[derive(Clone, Copy)]
pub struct Score {
    pub told: Tally,
    pub looks: Tally,
}

// How the class stands: its sheet, the table that is lent, the neighbour while she has questions, and the score.
#[derive(Drop)]
struct Class<'a> {
    sheet: Sheet,
    table: Table,
    neighbour: Option<Neighbour<'a>>,
    score: Score,
}

// What came instead of what must.
fn complain(out: &mut impl Write, kind: Kind, came: Told) -> io::Result<()> {
    write!(out, " - DIFFERS: told ")?;
    words::tell(out, kind, came)?;
    write!(out, ", or the list or the sheet is not as it must be")
}

// What must be told, and how often.
fn announce(out: &mut impl Write, turn: Turn) -> io::Result<()> {
    words::tell(out, turn.kind, turn.must)?;
    if 1 < turn.times {
        write!(out, ", {} times", turn.times)?;
    }
    write!(out, ".")
}

impl<'a> Class<'a> {
    // A turn that is played once.
    fn play_once(&mut self, out: &mut impl Write, turn: Turn) -> io::Result<()> {
        let outcome = Trial::new(&self.table, self.sheet, turn).at_every_door();
        self.score.told = self.score.told.count(outcome.is_ok());
        let handed = match outcome {
            Ok(handed) => handed,
            Err(handed) => {
                complain(out, turn.kind, handed.told)?;
                handed
            }
        };
        if handed.told.refusal == 0 && turn.damage.is_none() {
            self.sheet = handed.sheet;
        }
        Ok(())
    }

    // The neighbour looks, once she has questions.
    fn look(&mut self) {
        if let Some(neighbour) = &self.neighbour {
            let same = neighbour.is_told_the_same(&self.sheet);
            self.score.looks = self.score.looks.count(same);
        }
    }

    // A turn that is played as often as it says, and the neighbour who looks after each time.
    fn play(&mut self, out: &mut impl Write, turn: Turn) -> io::Result<()> {
        for i in 0..turn.times {
            self.play_once(out, turn.at_time(i))?;
            self.look();
        }
        Ok(())
    }

    // A line's words, and its turn where it has one.
    fn read_out(&mut self, out: &mut impl Write, line: &[u8]) -> io::Result<()> {
        let Some((words, numbers)) = show::split_before(line, BAR) else {
            out.write_all(line)?;
            return writeln!(out);
        };
        out.write_all(words)?;
        let turn = Turn::read(numbers);
        announce(out, turn)?;
        self.play(out, turn)?;
        if self.neighbour.is_some() {
            neighbour::says(out, self.score.looks)?;
        }
        writeln!(out)
    }

    fn hear(&mut self, out: &mut impl Write, line: Line<'a>) -> io::Result<()> {
        match line {
            Line::Table(text) => self.table = Table::read(text),
            Line::Neighbour(text, after) => self.neighbour = Some(Neighbour::read(text, after)),
            Line::Question(_) => {}
            Line::NoQuestions => self.neighbour = None,
            Line::Words(text) => self.read_out(out, text)?,
        }
        Ok(())
    }
}

// The script on standard input.
pub fn play(out: &mut impl Write, rt: &impl Input, alloc: Global) -> io::Result<Score> {
    let script = show::script(rt, alloc)?;
    let mut class = Class {
        sheet: Sheet::fresh(0, 0, 0),
        table: Table::read(b""),
        neighbour: None,
        score: Score {
            told: Tally::default(),
            looks: Tally::default(),
        },
    };
    for line in Lines::of(&script) {
        class.hear(out, line)?;
    }
    Ok(class.score)
}
