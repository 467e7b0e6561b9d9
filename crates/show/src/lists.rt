// Things in a line, each after a space.
ghost use Rattle.std.specs.Iterator.{IsFinite};

use std::fmt::Display;
use std::io;
use std::io::Write;

// Each of some things.
pub fn spaced<T: Display + Drop, I: Iterator<Item = T> + Drop>(
    out: &mut impl Write,
    things: I,
) -> io::Result<()>
    requires can { I.can_next things }
    requires ends { IsFinite (I.remaining things) }
{
    for thing in things {
        write!(out, " {thing}")?;
    }
    Ok(())
}

// The numbers of a set.
pub fn positions(out: &mut impl Write, set: u64) -> io::Result<()> {
    spaced(out, (0..64).filter(|&i| families::has(set, i)))
}
