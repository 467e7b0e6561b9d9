// Every refusal of the request, under one name and one number.
#![tactic(auto)]

ghost use Rattle.std.specs.Prelude.{◌≡◌};
ghost use Rattle.refusals.specs.Refusals.{number, row};

pub mod tables; // tables.rt: refusals 1 and 2, of a lent table

// Why a call or a lesson file is refused, in the order of the refusal numbers. `BadRow` and `RowOver` hold the row that is returned.
#[derive(Clone, Copy, PartialEq, Eq)]
pub enum Refusal {
    TooLarge,
    BadRow(usize),
    Unsound,
    OtherTable,
    NoDesk,
    NoRow,
    HiddenAlready,
    BadSet,
    Full,
    NoRoom,
    ShortList,
    LongView,
    BadDesks,
    ShortFile,
    WrongMark,
    WrongVersion,
    BadValues,
    ManyRows,
    CutShort,
    RowOver(usize),
    FewPlaces,
    LongFile,
    ShortBuffer,
}

impl Refusal {
    // The request's number. (A match: a case that holds a row has no number of its own to be cast.)
    pub fn number(self) -> usize
        ensures { result ≡ number self }
    {
        match self {
            Refusal::TooLarge => 1,
            Refusal::BadRow(_) => 2,
            Refusal::Unsound => 3,
            Refusal::OtherTable => 4,
            Refusal::NoDesk => 5,
            Refusal::NoRow => 6,
            Refusal::HiddenAlready => 7,
            Refusal::BadSet => 8,
            Refusal::Full => 9,
            Refusal::NoRoom => 10,
            Refusal::ShortList => 11,
            Refusal::LongView => 12,
            Refusal::BadDesks => 13,
            Refusal::ShortFile => 20,
            Refusal::WrongMark => 21,
            Refusal::WrongVersion => 22,
            Refusal::BadValues => 23,
            Refusal::ManyRows => 24,
            Refusal::CutShort => 25,
            Refusal::RowOver(_) => 26,
            Refusal::FewPlaces => 28,
            Refusal::LongFile => 29,
            Refusal::ShortBuffer => 30,
        }
    }

    // The row that is returned, or 0.
    pub fn row(self) -> usize
        ensures { result ≡ row self }
    {
        match self {
            Refusal::BadRow(i) | Refusal::RowOver(i) => i,
            _ => 0,
        }
    }
}
