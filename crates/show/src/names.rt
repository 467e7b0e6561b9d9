// Rows and families by the names of their values.
use std::fmt;

// What the values of a column are called: a, b, c and so on, or the salaries of the paper's introduction.
#[derive(Clone, Copy, PartialEq, Eq)]
pub enum Names {
    Letters,
    Salaries,
}

// A value by its name; those after the last by number.
#[derive(Clone, Copy)]
struct Value {
    names: Names,
    value: usize,
}

impl fmt::Display for Value {
    fn fmt<W: fmt::Write>(&self, f: &mut fmt::Formatter<W>) -> fmt::Result {
        match (self.names, self.value) {
            (Names::Letters, v) if v < 26 => f.write_char(char::from(b'a' + v as u8)),
            (Names::Salaries, 0) => f.write_str("20k"),
            (Names::Salaries, 1) => f.write_str("30k"),
            (Names::Salaries, 2) => f.write_str("35k"),
            (_, v) => write!(f, "{v}"),
        }
    }
}

// The members of a set, each as it is shown, with words between.
fn joined<W: fmt::Write, T: fmt::Display + Drop, F: Fn(usize) -> T>(
    f: &mut fmt::Formatter<W>,
    set: u64,
    between: &str,
    shown: F,
) -> fmt::Result
    requires { F.IsAlwaysCallable shown }
{
    for (nth, member) in (0..64).filter(|&v| families::has(set, v)).enumerate() {
        if nth != 0 {
            f.write_str(between)?;
        }
        write!(f, "{}", shown(member))?;
    }
    Ok(())
}

// The names of a set's values, with commas between.
fn values<W: fmt::Write>(f: &mut fmt::Formatter<W>, names: Names, set: u64) -> fmt::Result {
    joined(f, set, ", ", |value| Value { names, value })
}

// A set by the names of its values: in braces all of them, in the paper's brackets one of them.
#[derive(Clone, Copy)]
pub struct Shown<const ALL: bool> {
    pub names: Names,
    pub set: u64,
}

pub type OneOf = Shown<false>;

type AllOf = Shown<true>;

impl<const ALL: bool> fmt::Display for Shown<ALL> {
    fn fmt<W: fmt::Write>(&self, f: &mut fmt::Formatter<W>) -> fmt::Result {
        let (open, close) = if ALL { ("{", "}") } else { ("[", "]") };
        f.write_str(open)?;
        values(f, self.names, self.set)?;
        f.write_str(close)
    }
}

// A family: its sets, in the order of their numbers.
#[derive(Clone, Copy, PartialEq, Eq)]
pub struct Family {
    pub names: Names,
    pub family: u64,
}

impl fmt::Display for Family {
    fn fmt<W: fmt::Write>(&self, f: &mut fmt::Formatter<W>) -> fmt::Result {
        let names = self.names;
        if self.family == 0 {
            return f.write_str("none");
        }
        joined(f, self.family, " ", |set| {
            let set = set as u64;
            AllOf { names, set }
        })
    }
}
