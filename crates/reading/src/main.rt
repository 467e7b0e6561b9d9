// Lesson files, read at once and row by row, compared with the request's numbers. The files and what must be said of them are in `stdin`.
#![tactic(auto)]

mod check; // check.rt: one file through `read` and through the reader
mod line; // line.rt: a line of the script, and the file that it stands for

use std::io;
use std::io::BufWriter;

fn main(rt: HostRuntime) -> io::Result<()> {
    let script = show::script(&rt, rt.alloc())?;
    let mut out = BufWriter::new(rt.alloc(), io::writer(&rt))?;
    show::play(&mut out, &script, b"|", |out, tally, numbers| {
        Ok(tally.count(line::trial(out, numbers)?))
    })
}
