// Calls and answers as plain numbers.
ghost use Rattle.std.specs.Prelude.{◌≡◌};
ghost use Rattle.host.specs.Numbers.{plain_refused, plain_number, plain_read};
ghost use Rattle.host.specs.Spoken.{asked_by, plain_of};

use refusals::Refusal;
use sets::Row;
use sheet::Sheet;
use store::{Answer, Call, Change, Question, Target};

// The refusal number, 0 where the call is accepted, and the values that the answer returns, 0 where it has none. (Enums don't pass to C.)
#[repr(C)]
#[derive(Clone, Copy, PartialEq, Eq)]
pub struct Plain {
    pub refusal: u64,
    pub first: u64,
    pub second: u64,
}

// What a host is handed back.
#[repr(C)]
#[derive(Clone, Copy)]
pub struct Handed {
    pub told: Plain,
    pub sheet: Sheet,
}

// The call of a kind and its argument, or that there is none. (A kind is a number, since enums don't pass to C.)
#[tactic(auto, unfolding(crate::specs::Spoken::asked_by))]
pub fn heard(kind: u64, n: u64) -> Option<Call>
    ensures { result ≡ asked_by kind n }
{
    match kind {
        0 => Some(Call::Do(Change::Delete(Target::Table(n as usize)))),
        1 => Some(Call::Do(Change::Delete(Target::Own(n as usize)))),
        2 => Some(Call::Do(Change::Insert(Row::from(n)))),
        3 => Some(Call::Do(Change::Reset)),
        4 => Some(Call::Ask(Question::Look(n as usize))),
        5 => Some(Call::Ask(Question::Count)),
        6 => Some(Call::Ask(Question::Distinct)),
        _ => None,
    }
}

impl From<Refusal> for Plain {
    ghost from_gives = { λ refusal plain. plain ≡ plain_refused refusal };

    fn from(refusal: Refusal) -> Plain {
        Plain {
            refusal: refusal.number() as u64,
            first: refusal.row() as u64,
            second: 0,
        }
    }
}

// What a call is answered.
impl From<Result<Answer, Refusal>> for Plain {
    ghost from_gives = { λ answer plain. plain ≡ plain_of answer };

    fn from(answer: Result<Answer, Refusal>) -> Plain {
        let (first, second) = match answer {
            Ok(Answer::Done) => (0, 0),
            Ok(Answer::Seen(row)) => (u64::from(row), 0),
            Ok(Answer::Counted(rows, held)) => (rows as u64, held as u64),
            Ok(Answer::Listed(n)) => (n as u64, 0),
            Err(refusal) => return Plain::from(refusal),
        };
        Plain {
            refusal: 0,
            first,
            second,
        }
    }
}

// How many positions are kept, or how long a file is.
impl From<Result<usize, Refusal>> for Plain {
    ghost from_gives = { λ answer plain. plain ≡ plain_number answer };

    fn from(answer: Result<usize, Refusal>) -> Plain {
        match answer {
            Ok(n) => Plain {
                refusal: 0,
                first: n as u64,
                second: 0,
            },
            Err(refusal) => Plain::from(refusal),
        }
    }
}

// The d and T of a file.
impl From<Result<(usize, usize), Refusal>> for Plain {
    ghost from_gives = { λ answer plain. plain ≡ plain_read answer };

    fn from(answer: Result<(usize, usize), Refusal>) -> Plain {
        match answer {
            Ok((d, t)) => Plain {
                refusal: 0,
                first: d as u64,
                second: t as u64,
            },
            Err(refusal) => Plain::from(refusal),
        }
    }
}
