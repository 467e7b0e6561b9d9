// A lesson of calls that nobody has thought out: five desks call in a class of four, for rows and sets that are there or not.
use sheet::Sheet;
use show::Tally;
use std::io;
use std::io::Write;
use turns::{Door, Kind, Table, Told, Trial, Turn};

const TURNS: usize = 900;

// The calls that come in turn, each with the number below which its argument stays.
const CALLS: [(Kind, usize); 11] = [
    (Kind::Insert, 17),
    (Kind::DeleteTable, 7),
    (Kind::Insert, 15),
    (Kind::Look, 13),
    (Kind::Count, 1),
    (Kind::DeleteOwn, 6),
    (Kind::Insert, 9),
    (Kind::Distinct, 1),
    (Kind::Insert, 13),
    (Kind::Insert, 16),
    (Kind::Distinct, 1),
];

// The sheet, how often every door told the same, how many turns were accepted, and all that was told, mixed into one number.
#[derive(Drop)]
struct Lesson {
    table: Table,
    sheet: Sheet,
    told: Tally,
    accepted: Tally,
    sum: u64,
}

fn drawn(i: usize) -> Turn {
    let (kind, below) = CALLS[i % 11];
    Turn {
        kind: if i % 99 == 10 { Kind::Reset } else { kind },
        desk: i % 5,
        number: i.checked_rem(below).unwrap_or(0) as u64,
        places: i % 37,
        ..Turn::read(b"")
    }
}

// Three times the sum and a number more, in 64 bits, for each number told: none can be changed without changing it.
fn mixed_in(sum: u64, told: Told) -> u64 {
    [told.refusal, told.first, told.second, told.kept]
        .iter()
        .fold(sum, |sum, number| sum.wrapping_mul(3).wrapping_add(*number))
}

impl Lesson {
    // The class of four that begins.
    fn begin(told: Tally) -> Lesson {
        let table = Table::read(b"6 rows, d 4: 1 3 3 12 6 15");
        let turn = Turn {
            kind: Kind::Begin,
            number: 4,
            ..Turn::read(b"")
        };
        let (Ok(begun) | Err(begun)) = Trial::new(
            &table,
            Sheet::fresh(0, 0, 0),
            turn,
        ).at_every_door();
        Lesson {
            table,
            sheet: begun.sheet,
            told,
            accepted: Tally::default(),
            sum: 0,
        }
    }

    // Turn i through every door: what the first door tells is what the others must tell.
    fn play(&mut self, i: usize) {
        let turn = drawn(i);
        let (Ok(first) | Err(first)) = Trial::new(&self.table, self.sheet, turn).at_door(
            Door::ByValue,
        );
        let must = first.told;
        let outcome = Trial::new(&self.table, self.sheet, Turn { must, ..turn }).at_every_door();
        self.told = self.told.count(outcome.is_ok());
        self.accepted = self.accepted.count(must.refusal == 0);
        self.sum = mixed_in(self.sum, must);
        let (Ok(handed) | Err(handed)) = outcome;
        self.sheet = handed.sheet;
    }

    fn report(&self, out: &mut impl Write) -> io::Result<()> {
        writeln!(
            out,
            "\nA lesson of {TURNS} turns that nobody has thought out: {} accepted, {} refused. What is told comes to {}.",
            self.accepted.agree, self.accepted.differ, self.sum
        )
    }
}

// All turns.
pub fn play(out: &mut impl Write, told: Tally) -> io::Result<Tally> {
    let mut lesson = Lesson::begin(told);
    for i in 0..TURNS {
        lesson.play(i);
    }
    lesson.report(out)?;
    Ok(lesson.told)
}
