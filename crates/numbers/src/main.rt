// The request's numbers on desks, every refusal by its number, and a long drawn lesson.
#![tactic(auto)]

mod drawn; // drawn.rt: a lesson of calls that nobody has thought out

use std::io;
use std::io::{BufWriter, Write};

// Each turn, and what the request says that it must be told, is in `stdin`: crates/turns/src/lines.rt says how a line is read.
fn main(rt: HostRuntime) -> io::Result<()> {
    let mut out = BufWriter::new(rt.alloc(), io::writer(&rt))?;
    let score = turns::play(&mut out, &rt, rt.alloc())?;
    let tally = drawn::play(&mut out, score.told)?;
    tally.conclude(&mut out)?;
    out.flush()
}
