// What a desk is told, by plain numbers.
use refusals::Refusal;
use store::Answer;

// The refusal number or 0 and the values of the answer, plain because hosts in C are told so; and the set of the positions listed.
// (`host::Plain` has no such set.)
#[derive(Clone, Copy, PartialEq, Eq)]
pub struct Told {
    pub refusal: u64,
    pub first: u64,
    pub second: u64,
    pub kept: u64,
}

fn numbers(refusal: u64, first: u64, second: u64) -> Told {
    Told {
        refusal,
        first,
        second,
        kept: 0,
    }
}

// The values stand in the order in which the request names them.
impl From<Result<Answer, Refusal>> for Told {
    fn from(answer: Result<Answer, Refusal>) -> Told {
        match answer {
            Ok(Answer::Done) => numbers(0, 0, 0),
            Ok(Answer::Seen(row)) => numbers(0, u64::from(row), 0),
            Ok(Answer::Counted(rows, own)) => numbers(0, rows as u64, own as u64),
            Ok(Answer::Listed(n)) => numbers(0, n as u64, 0),
            Err(why) => numbers(why.number() as u64, why.row() as u64, 0),
        }
    }
}

impl From<host::Plain> for Told {
    fn from(plain: host::Plain) -> Told {
        numbers(plain.refusal, plain.first, plain.second)
    }
}
