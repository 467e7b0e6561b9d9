// The request's two large views, too many choices to list: what is kept is compared with the request alone.
use crate::compare::compare;
use show::Tally;
use std::io;
use std::io::Write;

// How far the list goes 0, 1, 2 and on.
fn in_order(list: &[usize]) -> usize {
    list.iter()
        .enumerate()
        .take_while(|&(i, &position)| position == i)
        .count()
}

// DISTINCT on a view of so many equal rows keeps as many as wanted, and they are the first ones.
pub fn keeps_first(
    out: &mut impl Write,
    tally: Tally,
    d: usize,
    many: usize,
    row: u64,
    wanted: u64,
) -> io::Result<Tally> {
    let rows = [row; 320];
    let view = rows.get(..many).unwrap_or(&[]);
    // 999 is no position here, so that a place which was not written ends the order.
    let mut list = [999usize; 320];
    let kept = distinct::ask(d, view, &mut list).unwrap_or(0);
    write!(out, "\n  rows kept:                ")?;
    let counted = compare(out, kept as u64, wanted)?;
    write!(out, "  in order from position 0: ")?;
    let ordered = compare(out, in_order(&list) as u64, wanted)?;
    Ok(tally.count(counted).count(ordered))
}
