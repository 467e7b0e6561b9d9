// The turn of a line: its numbers are
//     kind desk number =refusal first second kept *times /each #places @spot value
// What is no digit parts two numbers. One that is left out has its usual value; a sign leads on to the number that it stands before.
// The kinds are those of kind.rt. What follows the = must be told; `kept` is the set of positions that DISTINCT lists. The turn is played so many
// times, and where `each` is not 0 the next desk comes after each so many. The lent list has so many places.
// The sheet is one with a number changed: damage.rt has the spots.
use crate::damage::Damage;
use crate::kind::Kind;
use crate::lists::PLENTY;
use crate::told::Told;
use sets::Row;
use show::Columns;
use store::{Call, Change, Question, Target};

#[derive(Clone, Copy)]
pub struct Turn {
    pub kind: Kind,
    pub desk: usize,
    pub number: u64,
    pub must: Told,
    pub times: usize,
    pub each: usize,
    pub places: usize,
    pub damage: Option<Damage>,
}

impl Turn {
    // The turn of a text.
    pub fn read(text: &[u8]) -> Turn {
        let usual = [0, 0, 0, 0, 0, 0, 0, 0, 1, 0, PLENTY as u64, 0, 0];
        let [
            kind,
            desk,
            number,
            _,
            refusal,
            first,
            second,
            kept,
            times,
            each,
            places,
            spot,
            value,
        ] = Columns::read(text, usual).row;
        Turn {
            kind: Kind::from(kind),
            desk: desk as usize,
            number,
            must: Told {
                refusal,
                first,
                second,
                kept,
            },
            times: times as usize,
            each: each as usize,
            places: places as usize,
            damage: Damage::named(spot, value),
        }
    }

    // The turn as it is played for the i-th time.
    pub fn at_time(self, i: usize) -> Turn {
        let kind = match self.kind {
            Kind::EachInTurn => Kind::from((i % 7) as u64),
            kind => kind,
        };
        let desks_on = i.checked_div(self.each).unwrap_or(0);
        Turn {
            kind,
            desk: self.desk.wrapping_add(desks_on),
            ..self
        }
    }

    // The call that the desk makes, if the turn is one.
    pub fn call(self) -> Option<Call> {
        let number = self.number;
        match self.kind {
            Kind::DeleteTable => Some(Call::Do(Change::Delete(Target::Table(number as usize)))),
            Kind::DeleteOwn => Some(Call::Do(Change::Delete(Target::Own(number as usize)))),
            Kind::Insert => Some(Call::Do(Change::Insert(Row::from(number)))),
            Kind::Reset => Some(Call::Do(Change::Reset)),
            Kind::Look => Some(Call::Ask(Question::Look(number as usize))),
            Kind::Count => Some(Call::Ask(Question::Count)),
            Kind::Distinct => Some(Call::Ask(Question::Distinct)),
            Kind::Begin | Kind::EachInTurn | Kind::NoCall(_) => None,
        }
    }
}
