// The doors of the store, each of which plays the same turns.
use crate::kind::Kind;
use crate::table::Table;
use crate::told::Told;
use crate::trial::Trial;
use sheet::Sheet;
use std::convert::AsSlice;
use store::Reply;

// What a door hands back.
#[derive(Clone, Copy)]
pub struct Handed {
    pub told: Told,
    pub sheet: Sheet,
}

impl From<Reply> for Handed {
    fn from(reply: Reply) -> Handed {
        Handed {
            told: Told::from(reply.answer),
            sheet: reply.sheet,
        }
    }
}

impl From<host::Handed> for Handed {
    fn from(handed: host::Handed) -> Handed {
        Handed {
            told: Told::from(handed.told),
            sheet: handed.sheet,
        }
    }
}

#[derive(Clone, Copy)]
pub enum Door {
    ByValue,
    InPlace,
    ByNumbers,
}

impl Door {
    // A lesson begins.
    fn begin<R: AsSlice<u64>>(self, table: &Table<R>, desks: usize) -> Handed {
        match self {
            Door::ByValue | Door::InPlace => Handed::from(store::begin(
                table.all_rows(),
                table.d,
                desks,
            )),
            Door::ByNumbers => Handed::from(host::foliokettle_begin(
                table.all_rows(),
                table.d,
                desks,
            )),
        }
    }

    // The turn through the door. What is no call can be said by numbers alone, so it goes through that door each time.
    pub fn play<R: AsSlice<u64>>(self, trial: &Trial<R>, list: &mut [usize]) -> Handed {
        let table = trial.table;
        let sheet = trial.sheet;
        let turn = trial.turn;
        if turn.kind == Kind::Begin {
            return self.begin(table, turn.number as usize);
        }
        match (self, turn.call()) {
            (Door::ByValue, Some(call)) => {
                Handed::from(store::desk_call(
                    table.all_rows(),
                    table.d,
                    sheet,
                    turn.desk,
                    call,
                    list,
                ))
            }
            (Door::InPlace, Some(call)) => {
                Handed::from(server::altered(
                    sheet,
                    table.all_rows(),
                    table.d,
                    turn.desk,
                    call,
                    list,
                ))
            }
            (Door::ByNumbers, _) | (_, None) => Handed::from(host::foliokettle_call(
                table.all_rows(),
                table.d,
                sheet,
                turn.desk,
                u64::from(turn.kind),
                turn.number,
                list,
            )),
        }
    }
}
