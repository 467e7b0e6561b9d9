// The rows that have mates sit on seats, in the order in which they got one: a row that has a mate once has one for good,
// though not always the same.
// A row more is put in where that makes the pairing larger: it takes a free value that it holds, or is hopeless, or seeks.
ghost use Rattle.std.specs.Prelude.{◌≡◌, ◌≢◌, true, ◌<◌};
ghost use Rattle.std.specs.Int.Bits.{bit_and};
ghost use Rattle.sets.specs.Sets.{has};
ghost use Rattle.sets.specs.Rows.{width, bits, rows_of};
ghost use Rattle.theory.specs.Pairings.{at};
ghost use Rattle.pairing.specs.Code.Asking.{Inside};
ghost use Rattle.pairing.specs.Code.Seats.{seats, Mates, Unreached, Below, Seeks, Reseated, OfSeat, Hopeless, SitOn, Answers};

use crate::columns;
use crate::search::Directory;
use sets::Row;

// `d` is how many values the column has, `used` how many seats are taken, `free` the values below d that have no row,
// `dead` values that never come free again, `fresh` values that no row on a seat holds,
// `heavy` the seats that stand in no column, and those before `entered` are as they should be.
#[derive(Clone, Copy)]
pub struct Seating {
    pub d: usize,
    pub used: usize,
    pub entered: usize,
    pub free: Row,
    pub dead: Row,
    pub fresh: Row,
    pub heavy: Row,
}

// The seats: the rows on them, the columns of these, their mates, and how they sit. (Rows are words and mates are not: both are lent places,
// since DISTINCT allocates nothing.)
#[derive(Drop)]
pub struct Seats<'a> {
    pub rows: &'a mut [u64],
    pub columns: &'a mut [u64],
    pub mates: &'a mut [usize],
    pub seating: Seating,
}

// The values of the rows that were not asked.
fn unreached(asked: Row, mates: &[usize]) -> Row
    requires { Mates mates.now }
    ensures { Unreached (bits asked) mates.now (bits result) }
{
    let mut dead = Row::empty();
    for (i, &mate) in mates.iter().enumerate() {
        if mate != 0 && !asked.has(i) {
            dead = dead.with(mate - 1);
        }
    }
    dead
}

// The seats when the value v has got a row, and the new row a seat.
fn seated(s: Seating, row: Row, v: usize) -> Seating
    requires { (v < width) × (s.used < seats) }
    ensures { Reseated s (bits row) v result }
{
    Seating {
        used: s.used + 1,
        free: s.free.without(v),
        fresh: s.fresh.minus(row),
        heavy: s.heavy.with(s.used),
        ..s
    }
}

// The free value that a row takes: one that no row on a seat holds, where there is one, for such a row may want the others.
// So a chain of pairs needs no search; it would take almost three times as long.
fn near(row: Row, free: Row, fresh: Row) -> usize
    requires { (bit_and (bits row) (bits free) ≢ 0) × Inside (bit_and (bits row) (bits fresh)) (bits free) }
    ensures { (result < width) × (has (bits free) result ≡ true) × (has (bits row) result ≡ true) }
{
    let new = row.both(fresh);
    if new.is_empty() {
        row.both(free).lowest()
    } else {
        new.lowest()
    }
}

// The row holds no free value, and a search decides whether it gets a seat. If not, the values that no question reached never come free again.
// A free value that no row holds would ask in vain, so the search starts from the others: 16 rows of one value would take four times as long.
// (No method of the seats: once a part of `self.rows` is lent, the proof does not know these rows any more.)
fn seek(row: Row, s: Seating, rows: &mut [u64], columns: &mut [u64], mates: &mut [usize]) -> Seating
    requires { Seeks (bits row) s (rows_of rows.old) (rows_of columns.old) mates.old }
    ensures { OfSeat (bits row) s (rows_of rows.old) result (rows_of rows.new) (rows_of columns.new) mates.new }
{
    let used = s.used;
    sets::put_row(rows, used, row);
    mates[used] = 0;
    let heavy = columns::enter_light(s.entered, s.heavy, &rows[..used * sets::WORDS], columns);
    let through = used + 1;
    let directory = Directory {
        rows: &rows[..through * sets::WORDS],
        columns,
        heavy: heavy.with(used),
    };
    let from = s.free.minus(s.fresh);
    let mut asked = Row::empty();
    let found = directory.search(from, &mut mates[..through], &mut asked);
    let s = Seating {
        entered: used,
        heavy,
        ..s
    };
    match found {
        Some(v) => seated(s, row, v),
        None => Seating {
            dead: unreached(asked, &mates[..used]),
            ..s
        },
    }
}

impl Seating {
    // A row that gets no seat: no value is free, or the row holds dead values only. A view of one value over and over would search for each row.
    // A row that holds a free value is told first, since most rows of a small view do.
    pub fn hopeless(&self, row: Row) -> bool
        ensures { Hopeless result (bits row) (bits self.now.free) (bits self.now.dead) }
    {
        !row.meets(self.free) && (self.free.is_empty() || row.subset(self.dead))
    }
}

impl Seats<'_> {
    // The row holds a value that is free, and takes it.
    fn sit_near(&mut self, row: Row)
        requires sitting { SitOn self.old × Below self.old.seating.d (bits row) }
        requires free_nonzero { bit_and (bits row) (bits self.old.seating.free) ≢ 0 }
        ensures { Answers true (bits row) self.old self.new }
    {
        let s = self.seating;
        let v = near(row, s.free, s.fresh);
        sets::put_row(self.rows, s.used, row);
        self.mates[s.used] = v + 1;
        self.seating = seated(s, row, v);
    }

    // A row is offered a seat: it takes a free value that it holds, or is hopeless, or seeks. True where it has got one.
    pub fn offer(&mut self, row: Row) -> bool
        requires { SitOn self.old × Below self.old.seating.d (bits row) }
        ensures { Answers result (bits row) self.old self.new }
    {
        if row.meets(self.seating.free) {
            self.sit_near(row);
            return true;
        }
        if self.seating.hopeless(row) {
            return false;
        }
        let used = self.seating.used;
        self.seating = seek(row, self.seating, self.rows, self.columns, self.mates);
        used < self.seating.used
    }
}
