// The examples of the source and its salary table through DISTINCT, compared on families, and the request's numbers beside them. The examples and
// what must come of them are in `stdin`.
#![tactic(auto)]

mod compare; // compare.rt: the one comparison
mod example; // example.rt: what is shown and compared of every example
mod large; // large.rt: the request's large views
mod line; // line.rt: a line of the script
mod rows; // rows.rt: marked rows by the paper's numbers

use example::Example;
use std::io;
use std::io::BufWriter;

fn main(rt: HostRuntime) -> io::Result<()> {
    let script = show::script(&rt, rt.alloc())?;
    let mut out = BufWriter::new(rt.alloc(), io::writer(&rt))?;
    let mut example = Example::none();
    show::play(&mut out, &script, b"|", |out, tally, numbers| {
        line::trial(out, &mut example, tally, numbers)
    })
}
