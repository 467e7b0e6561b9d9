// The one comparison that every check goes through: of numbers, families or marked rows.
use std::fmt::Display;
use std::io;
use std::io::Write;

// Shows what is wanted, and whether ours is the same; where it is not, ours too.
pub fn compare<T: Display + PartialEq + Drop>(
    out: &mut impl Write,
    ours: T,
    wanted: T,
) -> io::Result<bool> {
    let agrees = ours == wanted;
    if agrees {
        writeln!(out, "{wanted}  - agrees")?;
    } else {
        writeln!(out, "{wanted}  - DIFFERS: ours is {ours}")?;
    }
    Ok(agrees)
}
