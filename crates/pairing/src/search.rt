// The search for a larger pairing. Row i of `rows` is a set of values; mates[i] is 0, or v + 1 where row i is paired with the value v.
// The question passes from value to row and from row to value, and no row is asked twice: `asked` is the set of the rows asked so far.
// (A mate is a plain number, no Option: half the memory, and the first step has used the same places.)
ghost use Rattle.std.specs.Prelude.{◌≡◌, zero, true, ◌<◌, length};
ghost use Rattle.sets.specs.Sets.{has};
ghost use Rattle.sets.specs.Rows.{bits, rows_of};
ghost use Rattle.theory.specs.Pairings.{at};
ghost use Rattle.pairing.specs.Code.Asking.{Asks, Searches, OfValue, OfRow, OfSearch};

use sets::Row;

// The rows, and where a value finds those that hold it: in its column, or among the heavy rows. (A search reads it; what it changes,
// mates and asked rows, is lent beside it.)
#[derive(Clone, Copy)]
pub struct Directory<'a> {
    pub rows: &'a [u64],
    pub columns: &'a [u64],
    pub heavy: Row,
}

impl Directory<'_> {
    // The value v, which has no row, asks the rows that hold it and are not asked yet, the last first. True where it has got one.
    #[cycle(ask_row_ask_value)]
    fn ask_value(self, v: usize, mates: &mut [usize], asked: &mut Row) -> bool
        requires { Asks v (rows_of self.rows.now) (rows_of self.columns.now) (bits self.heavy) mates.old }
        ensures { OfValue result v (rows_of self.entry.rows.now) mates.old (bits asked.old) mates.new (bits asked.new) }
    {
        let mut left = sets::row_at(self.columns, v).either(self.heavy);
        while let Some(i) = left.minus(*asked).top().checked_sub(1) {
            left = left.without(i);
            if sets::row_at(self.rows, i).has(v) {
                *asked = asked.with(i);
                if self.ask_row(i, v, mates, asked) {
                    return true;
                }
            }
        }
        false
    }

    // Row i is asked to take v. A row without a mate takes it; a row that is taken asks its present value to move,
    // which stays where it finds no other row.
    #[cycle(ask_row_ask_value)]
    fn ask_row(self, i: usize, v: usize, mates: &mut [usize], asked: &mut Row) -> bool
        requires asks { Asks v (rows_of self.rows.now) (rows_of self.columns.now) (bits self.heavy) mates.old }
        requires i_in_bounds { (i < length (rows_of self.rows.now)) × (has (at (rows_of self.rows.now) i) v ≡ true)
            × (has (bits asked.old) i ≡ true) }
        ensures { OfRow result i v (rows_of self.entry.rows.now) mates.old (bits asked.old) mates.new (bits asked.new) }
    {
        let w = mates[i];
        mates[i] = v + 1;
        if w == 0 || self.ask_value(w - 1, mates, asked) {
            return true;
        }
        mates[i] = w;
        false
    }

    // The values of `free`, which have no rows, ask one after another until one has got a row: the answer is that value.
    // `asked` starts empty.
    pub fn search(self, free: Row, mates: &mut [usize], asked: &mut Row) -> Option<usize>
        requires { Searches (bits free) (rows_of self.rows.now) (rows_of self.columns.now) (bits self.heavy) mates.old
            × (bits asked.old ≡ zero) }
        ensures { OfSearch result (bits free) (rows_of self.entry.rows.now) mates.old mates.new (bits asked.new) }
    {
        for v in free {
            if self.ask_value(v, mates, asked) {
                return Some(v);
            }
        }
        None
    }
}
