// A second DISTINCT, written from the definitions alone and by exhaustion, compared with the store's on many small views.
#![tactic(auto)]

mod compare; // compare.rt: one view through both
mod rank; // rank.rt: the size of the largest pairing, by every pairing
mod rule; // rule.rt: which rows are kept, by the request's two steps
mod views; // views.rt: the views to compare on

use compare::compare;
use show::Tally;
use std::io;
use std::io::{BufWriter, Write};

// All views of 0 to 4 rows over 1 to 3 values: with k kinds of rows there are 1 + k + k^2 + k^3 + k^4.
fn every_view(out: &mut impl Write) -> io::Result<Tally> {
    let mut tally = Tally::default();
    for (d, many) in [(1, 5), (2, 121), (3, 2801)] {
        for number in 0..many {
            let view = views::spelt(number, d, 4);
            tally = compare(out, tally, d, &view)?;
        }
    }
    Ok(tally)
}

// 4,000 drawn views of 0 to 7 rows over 1 to 5 values.
fn drawn_views(out: &mut impl Write) -> io::Result<Tally> {
    let mut tally = Tally::default();
    let mut number: u64 = 20_240_229;
    for _ in 0..4000 {
        let shape = views::stir(number);
        number = views::stir(shape);
        let d = 1 + (shape / 256 % 5) as usize;
        let most = (shape / 65536 % 8) as usize;
        let view = views::spelt(number, d, most);
        tally = compare(out, tally, d, &view)?;
    }
    Ok(tally)
}

// One line on how it went.
fn report(out: &mut impl Write, tally: Tally) -> io::Result<()> {
    let Tally { agree, differ } = tally;
    writeln!(out, "{agree} agree, {differ} differ.")
}

fn main(rt: HostRuntime) -> io::Result<()> {
    let mut out = BufWriter::new(rt.alloc(), io::writer(&rt))?;
    write!(
        out,
        "DISTINCT against a second one, written from the definitions. On each view are compared
- the positions in the list, with those that the rule gives by definition, and its later places, with what stood there;
- the number of rows kept, with the shortest of all sublists that have the view's family;
- the family of the rows kept, with the view's.
All views of 0 to 4 rows over 1 to 3 values: "
    )?;
    let every = every_view(&mut out)?;
    report(&mut out, every)?;
    write!(out, "Drawn views of 0 to 7 rows over 1 to 5 values: ")?;
    let drawn = drawn_views(&mut out)?;
    report(&mut out, drawn)?;
    out.flush()
}
