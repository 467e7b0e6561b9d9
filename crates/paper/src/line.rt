// A line of the script has words to print. Where it has a bar, the first number after it says what is compared:
//     1 d names =rows       a view, whose values are letters, or salaries where `names` is 1: what DISTINCT keeps has its family, and is shortest;
//     2 rows =sets          the family of these rows, or of all where none is named, has these sets;
//     3 rows =kept          of these rows, or of all, these are kept;
//     4 =sets               the view's family has no others than these sets;
//     5 d many row =kept    a view of so many equal rows keeps its first, this many.
// A set is the number of its values, as in crates/families; rows are named by the paper's numbers, which count from 1.
use crate::compare::compare;
use crate::example::Example;
use crate::large;
use families::EVERY;
use show::{Columns, Tally};
use std::io;
use std::io::Write;

// What a line compares.
enum Kind {
    View,
    Family,
    Kept,
    Within,
    Large,
}

impl From<u64> for Kind {
    fn from(number: u64) -> Kind {
        match number {
            1 => Kind::View,
            2 => Kind::Family,
            3 => Kind::Kept,
            5 => Kind::Large,
            _ => Kind::Within,
        }
    }
}

// The numbers as a set of numbers. A 0 stands for none.
fn gathered(numbers: &[u64]) -> u64 {
    numbers
        .iter()
        .filter(|&&n| n != 0)
        .fold(0, |set, &n| families::with(set, n as usize))
}

// The marks of the rows that a line names, or of every row.
fn named(rows: &[u64]) -> u64 {
    match gathered(rows) / 2 {
        0 => EVERY,
        marks => marks,
    }
}

// How the comparisons went after what a line's numbers say, of the example before it or of their own.
pub fn trial(
    out: &mut impl Write,
    example: &mut Example,
    tally: Tally,
    numbers: &[u8],
) -> io::Result<Tally> {
    let line = Columns::read(numbers, [0; 12]);
    let [kind, d, many, row, wanted, ..] = line.row;
    let marks = named(&line.row[1..4]);
    let sets = gathered(&line.row[4..]);
    let agrees = match Kind::from(kind) {
        Kind::View => {
            *example = Example::read(line);
            return example.show(out, tally);
        }
        Kind::Family => compare(out, example.family(marks), example.family_of(sets))?,
        Kind::Kept => compare(out, example.kept_rows(marks), example.rows(sets / 2))?,
        Kind::Within => {
            let whole = example.family(EVERY).family;
            compare(
                out,
                example.family_of(whole | sets),
                example.family_of(sets),
            )?
        }
        Kind::Large => {
            return large::keeps_first(out, tally, d as usize, many as usize, row, wanted);
        }
    };
    Ok(tally.count(agrees))
}
