// The lesson as the naughtiest child runs it: Max, at desk 0, tries everything, and Lena, at desk 1, sees nothing of it.
// The story is in `stdin`; crates/turns/src/lines.rt says how its lines are read. After each turn Lena looks at every row that she should see and
// at the place after the last, counts, and asks DISTINCT: [a], [b] and [c, d] are minimal; [a, b] does not raise the rank, [a, c, d, e] and her
// first own row do, and then it is 5, and no row can raise it more.
#![tactic(auto)]

use std::io;
use std::io::{BufWriter, Write};
use turns::Score;

// Whether Max was always told what he should be, and whether Lena ever saw a change.
fn end(out: &mut impl Write, score: Score) -> io::Result<()> {
    let told = score.told;
    let looks = score.looks;
    if told.differ == 0 && looks.differ == 0 {
        return write!(
            out,
            "
Max and the others were told {} times what they should be told, and never anything else.
Lena looked {} times, and nothing had changed. She thinks that Max was ill today.
",
            told.agree, looks.agree
        );
    }
    write!(
        out,
        "
Max and the others were told {} times what they should be told, AND {} TIMES SOMETHING ELSE.
Lena looked {} times in peace, AND {} TIMES SOMETHING HAD CHANGED.
",
        told.agree, told.differ, looks.agree, looks.differ
    )
}

fn main(rt: HostRuntime) -> io::Result<()> {
    let mut out = BufWriter::new(rt.alloc(), io::writer(&rt))?;
    let score = turns::play(&mut out, &rt, rt.alloc())?;
    end(&mut out, score)?;
    out.flush()
}
