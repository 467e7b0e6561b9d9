// The script on standard input, and its lines.
ghost use Rattle.std.specs.Prelude.{◌≡◌, ◌++◌, IfSome};

use crate::Tally;
use std::alloc::Global;
use std::io;
use std::io::{Read, Write};

pub const NEWLINE: u8 = b'\n';

// What stands between the words of a line and its numbers.
pub const BAR: u8 = b'|';

// How many bytes of a script are read; what comes after them is left.
const SCRIPT: u64 = 65_536;

// The script on standard input.
pub fn script(rt: &impl Input, alloc: Global) -> io::Result<Vec<u8>> {
    let mut script = Vec::new(alloc);
    rt.reader().take(SCRIPT).read_to_end(&mut script)?;
    Ok(script)
}

// What stands before a byte, and what begins with it; none where the text has no such byte.
pub fn split_before(text: &[u8], byte: u8) -> Option<(&[u8], &[u8])>
    ensures { IfSome result (λ parts. parts.0.now ++ parts.1.now ≡ text.now) }
{
    let at = text.iter().position(|&b| b == byte)?;
    Some(text.split_at(at))
}

// Plays the lines of a script, of which the last may have no newline, and says how the comparisons went. A line has words to print; where it has one
// of the signs, what begins with the first of these is tried, and counted.
pub fn play<W: Write, F: FnMut(&mut W, Tally, &[u8]) -> io::Result<Tally>>(
    out: &mut W,
    script: &[u8],
    signs: &[u8],
    mut trial: F,
) -> io::Result<()>
    requires { F.IsAlwaysCallable trial }
{
    let mut tally = Tally::default();
    for ended in script.split_inclusive(|&byte| byte == NEWLINE) {
        let line = ended.strip_suffix(b"\n").unwrap_or(ended);
        match signs.iter().find_map(|&sign| split_before(line, sign)) {
            Some((words, numbers)) => {
                out.write_all(words)?;
                tally = trial(out, tally, numbers)?;
            }
            None => {
                out.write_all(line)?;
                out.write_all(b"\n")?;
            }
        }
    }
    tally.conclude(out)?;
    out.flush()
}
