// One view through both: DISTINCT as the store has it, and the definitions.
use crate::rule;
use families::{EVERY, family, has, marked, size};
use show::{Names, OneOf, Tally, spaced};
use std::io;
use std::io::Write;

// How many places are lent: more than any view here has rows, so that some must stay as they were.
const PLACES: usize = 10;

// What stands in each place before the call.
const LENT: usize = 99;

// How many views that differ are shown.
const SHOWN: usize = 5;

// How many rows are kept, and the lent list after the call: the kept positions in view order, and after them what stood there.
#[derive(Clone, Copy, PartialEq, Eq)]
struct Listed {
    kept: usize,
    list: [usize; PLACES],
}

// What the store answers. A refusal, which none of these views earns, counts as more rows than there are.
fn by_store(d: usize, view: &[u64]) -> Listed {
    let mut list = [LENT; PLACES];
    let kept = distinct::ask(d, view, &mut list).unwrap_or(LENT);
    Listed { kept, list }
}

// What the rule gives.
fn by_definition(view: &[u64]) -> Listed {
    let marks = rule::kept(view);
    let mut list = [LENT; PLACES];
    for (place, i) in list.iter_mut().zip((0..PLACES).filter(|&i| has(marks, i))) {
        *place = i;
    }
    Listed {
        kept: size(marks),
        list,
    }
}

// The rows listed have the view's family, and no sublist that has it is shorter.
fn shortest(view: &[u64], listed: &Listed) -> bool {
    listed.kept == families::fewest(view)
        && family(view, marked(&listed.list, listed.kept)) == family(view, EVERY)
}

// A view on which the two differ: its rows and both answers.
fn show_difference(
    out: &mut impl Write,
    view: &[u64],
    store: &Listed,
    rule: &Listed,
) -> io::Result<()> {
    write!(out, "DIFFERENT on")?;
    let names = Names::Letters;
    spaced(out, view.iter().map(|&set| OneOf { names, set }))?;
    write!(out, "\n  the store answers {}, and its list is", store.kept)?;
    spaced(out, store.list.iter())?;
    write!(out, "\n  by definition it is {}, and the list", rule.kept)?;
    spaced(out, rule.list.iter())?;
    writeln!(
        out,
        "\n  the fewest rows that will do are {}",
        families::fewest(view)
    )
}

// Compares on one view, to the last place of the list. The first few on which the two differ are shown.
pub fn compare(out: &mut impl Write, tally: Tally, d: usize, view: &[u64]) -> io::Result<Tally> {
    let store = by_store(d, view);
    let rule = by_definition(view);
    let agrees = store == rule && shortest(view, &store);
    if !agrees && tally.differ < SHOWN {
        show_difference(out, view, &store, &rule)?;
    }
    Ok(tally.count(agrees))
}
