// The kinds of calls, by the numbers that a script gives them.

// The calls of include/foliokettle.h, and two more: a lesson begins, with so many desks; and each of the seven calls in turn.
#[derive(Clone, Copy, PartialEq, Eq)]
pub enum Kind {
    DeleteTable,
    DeleteOwn,
    Insert,
    Reset,
    Look,
    Count,
    Distinct,
    Begin,
    EachInTurn,
    NoCall(u64),
}

impl From<u64> for Kind {
    fn from(number: u64) -> Kind {
        match number {
            0 => Kind::DeleteTable,
            1 => Kind::DeleteOwn,
            2 => Kind::Insert,
            3 => Kind::Reset,
            4 => Kind::Look,
            5 => Kind::Count,
            6 => Kind::Distinct,
            10 => Kind::Begin,
            97 => Kind::EachInTurn,
            _ => Kind::NoCall(number),
        }
    }
}

impl From<Kind> for u64 {
    fn from(kind: Kind) -> u64 {
        match kind {
            Kind::DeleteTable => 0,
            Kind::DeleteOwn => 1,
            Kind::Insert => 2,
            Kind::Reset => 3,
            Kind::Look => 4,
            Kind::Count => 5,
            Kind::Distinct => 6,
            Kind::Begin => 10,
            Kind::EachInTurn => 97,
            Kind::NoCall(number) => number,
        }
    }
}

impl Kind {
    // Every other call hands back the sheet that it was handed.
    pub fn may_change(self) -> bool {
        matches!(
            self,
            Kind::DeleteTable | Kind::DeleteOwn | Kind::Insert | Kind::Reset | Kind::Begin
        )
    }
}
