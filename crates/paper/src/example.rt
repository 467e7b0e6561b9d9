// One example: its rows, those that DISTINCT keeps, and the families of both.
use crate::compare::compare;
use crate::rows::Rows;
use families::{EVERY, has};
use show::{Columns, Family, Names, OneOf, Tally};
use std::io;
use std::io::Write;

// The names of an example's values, the line that has its view, and the marks of the rows that DISTINCT keeps.
#[derive(Clone, Copy)]
pub struct Example {
    names: Names,
    line: Columns<12>,
    kept: u64,
}

// The rows of an example begin at this column.
const ROWS: usize = 4;

// The marks of the rows that DISTINCT keeps; none where it refuses.
fn kept(d: usize, view: &[u64]) -> u64 {
    let mut list = [0usize; 8];
    let n = distinct::ask(d, view, &mut list).unwrap_or(0);
    families::marked(&list, n)
}

impl Example {
    // No example yet.
    pub fn none() -> Example {
        Example {
            names: Names::Letters,
            line: Columns::read(b"", [0; 12]),
            kept: 0,
        }
    }

    // The example of a line's numbers.
    pub fn read(line: Columns<12>) -> Example {
        let names = if line.row[2] == 0 {
            Names::Letters
        } else {
            Names::Salaries
        };
        let kept = kept(line.row[1] as usize, line.from_column(ROWS));
        Example { names, line, kept }
    }

    fn view(&self) -> &[u64] {
        self.line.from_column(ROWS)
    }

    // The family of the marked rows.
    pub fn family(&self, marks: u64) -> Family {
        self.family_of(families::family(self.view(), marks))
    }

    // The family with these sets.
    pub fn family_of(&self, family: u64) -> Family {
        Family {
            names: self.names,
            family,
        }
    }

    // The marked rows.
    pub fn rows(&self, marks: u64) -> Rows {
        Rows {
            many: self.view().len(),
            marks,
        }
    }

    // Those of the marked rows that DISTINCT keeps.
    pub fn kept_rows(&self, marks: u64) -> Rows {
        self.rows(self.kept & marks)
    }

    // The marked rows by their numbers, and in full with their values.
    fn show_rows(&self, out: &mut impl Write, marks: u64) -> io::Result<()> {
        let names = self.names;
        for (i, &set) in self.view().iter().enumerate() {
            if has(marks, i) {
                write!(out, "  eta_{} {}", i + 1, OneOf { names, set })?;
            }
        }
        Ok(())
    }

    // Shows the rows, the kept ones and the families, and compares them: the kept rows have the family of all, and no fewer rows would do.
    pub fn show(&self, out: &mut impl Write, tally: Tally) -> io::Result<Tally> {
        write!(out, "\n  rows:                   ")?;
        self.show_rows(out, EVERY)?;
        write!(out, "\n  DISTINCT keeps:         ")?;
        self.show_rows(out, self.kept)?;
        let whole = self.family(EVERY);
        write!(
            out,
            "\n  family of all rows:       {whole}\n  family of the kept rows:  "
        )?;
        let same_family = compare(out, self.family(self.kept), whole)?;
        write!(out, "  fewest rows that have it: ")?;
        let fewest = compare(
            out,
            families::size(self.kept),
            families::fewest(self.view()),
        )?;
        Ok(tally.count(same_family).count(fewest))
    }
}
