// What is told, in words.
use crate::kind::Kind;
use crate::told::Told;
use show::{Names, OneOf};
use std::io;
use std::io::Write;

// Why a call is refused, as one would tell it to a pupil.
fn reason(refusal: u64) -> Option<&'static str> {
    match refusal {
        1 => Some("no table has that size"),
        2 => Some("that is no row"),
        3 => Some("scribbles"),
        4 => Some("that is not today's table"),
        5 => Some("nobody sits there"),
        6 => Some("there is no such row"),
        7 => Some("it is hidden already"),
        8 => Some("that is no set of this column"),
        9 => Some("64 rows are enough for anybody"),
        10 => Some("every free place is promised"),
        11 => Some("the list is too short"),
        12 => Some("nobody sees that much"),
        13 => Some("a class has 1 to 32 desks"),
        _ => None,
    }
}

// A refusal by its number, refusal 2 with its row, and why.
fn tell_refusal(out: &mut impl Write, told: Told) -> io::Result<()> {
    write!(out, "refused with {}", told.refusal)?;
    if told.refusal == 2 {
        write!(out, " at row {}", told.first)?;
    }
    match reason(told.refusal) {
        Some(why) => write!(out, " ({why})"),
        None => Ok(()),
    }
}

// How many rows DISTINCT keeps, and where.
fn tell_kept(out: &mut impl Write, told: Told) -> io::Result<()> {
    write!(out, "{} kept", told.first)?;
    if told.kept != 0 {
        write!(out, ", at")?;
        show::positions(out, told.kept)?;
    }
    Ok(())
}

// What a call of this kind is told. (No `Display`: the same numbers are said in other words for another kind.)
pub fn tell(out: &mut impl Write, kind: Kind, told: Told) -> io::Result<()> {
    if told.refusal != 0 {
        return tell_refusal(out, told);
    }
    match kind {
        Kind::Look => {
            let names = Names::Letters;
            write!(
                out,
                "{}",
                OneOf {
                    names,
                    set: told.first
                }
            )
        }
        Kind::Count => write!(
            out,
            "{} rows in view, {} of them own",
            told.first, told.second
        ),
        Kind::Distinct => tell_kept(out, told),
        _ => write!(out, "done"),
    }
}
