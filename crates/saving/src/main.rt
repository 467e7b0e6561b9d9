// Tables saved as lesson files and read again, compared with the request's bytes. The tables, and what must be said and written of them, are in
// `stdin`.
#![tactic(auto)]

mod check; // check.rt: one table through `write`, and what was written through `read`
mod line; // line.rt: a line of the script, and the table or the file that it stands for
mod wanted; // wanted.rt: what must be answered, and which bytes must be written

use std::io;
use std::io::BufWriter;

fn main(rt: HostRuntime) -> io::Result<()> {
    let script = show::script(&rt, rt.alloc())?;
    let mut out = BufWriter::new(rt.alloc(), io::writer(&rt))?;
    show::play(&mut out, &script, b"|<", |out, tally, numbers| {
        Ok(tally.count(line::trial(out, numbers)?))
    })
}
