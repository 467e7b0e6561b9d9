// One turn through every door, compared with what must be told.
ghost use Rattle.std.specs.Prelude.{◌≡◌};

use crate::doors::{Door, Handed};
use crate::kind::Kind;
use crate::lists;
use crate::lists::{LENT, PLENTY};
use crate::table::{LineRows, Table};
use crate::told::Told;
use crate::turn::Turn;
use sheet::Sheet;
use std::convert::AsSlice;

// A turn, and the table and the sheet that it is played on.
#[derive_where(Clone, Copy)]
pub struct Trial<'a, R = LineRows> {
    pub table: &'a Table<R>,
    pub(crate) sheet: Sheet,
    pub turn: Turn,
}

impl<'a, R: AsSlice<u64>> Trial<'a, R> {
    // The sheet is damaged as the turn says. A begin is handed none: where it is refused, a sheet of zeros comes back.
    pub fn new(table: &'a Table<R>, sheet: Sheet, turn: Turn) -> Trial<'a, R>
        ensures lends { result.table.now ≡ table.now }
        ensures plays { result.turn ≡ turn }
    {
        let sheet = match (turn.kind, turn.damage) {
            (Kind::Begin, _) => Sheet::fresh(0, 0, 0),
            (_, Some(damage)) => damage.done_to(sheet),
            (_, None) => sheet,
        };
        Trial { table, sheet, turn }
    }

    // `Ok` where a door told what must be told, and left the list's later places and the sheet as they may be.
    fn judged(&self, handed: Handed, list: &[usize; PLENTY]) -> Result<Handed, Handed> {
        let done = handed.told.refusal == 0;
        let kind = self.turn.kind;
        let written = if done && kind == Kind::Distinct {
            handed.told.first
        } else {
            0
        };
        let listed = lists::read(list, written);
        let told = Told {
            kept: listed.unwrap_or(0),
            ..handed.told
        };
        let handed = Handed { told, ..handed };
        let stays = done && kind.may_change() || handed.sheet == self.sheet;
        if listed.is_some() && stays && told == self.turn.must {
            Ok(handed)
        } else {
            Err(handed)
        }
    }

    // The turn through one door.
    pub fn at_door(&self, door: Door) -> Result<Handed, Handed> {
        let mut list = [LENT; PLENTY];
        let places = self.turn.places.min(PLENTY);
        let handed = door.play(self, &mut list[..places]);
        self.judged(handed, &list)
    }

    // The turn through every door: what came of it at one where it is not right, or else at the first.
    pub fn at_every_door(&self) -> Result<Handed, Handed> {
        let first = self.at_door(Door::ByValue)?;
        for door in [Door::InPlace, Door::ByNumbers] {
            let other = self.at_door(door)?;
            if other.sheet != first.sheet {
                return Err(other);
            }
        }
        Ok(first)
    }
}
