// A row by value: a set of values. What knows its words stands first, then what goes by sets alone.
#![tactic(auto)]

ghost use Rattle.std.specs.Prelude.{◌≡◌, not, zero, ◌-◌, ◌<◌, ◌≤◌, eqb};
ghost use Rattle.std.specs.Int.Bits.{bit_and, bit_or};
ghost use Rattle.std.specs.Int.Count.{ones, count_trailing_zeros, count_leading_zeros};
ghost use Rattle.sets.specs.Sets.{has, single, all, subset, minus, below, within};
ghost use Rattle.sets.specs.Rows.{width, bits, Holds, tag_of};

pub mod word; // word.rt: one word as a set
mod lent; // lent.rt: the rows of lent words
mod walk; // walk.rt: a walk through the values of a row

pub use lent::{bad_row, put_row, row_at, row_count};

// A set of values below `VALUES`: value v is bit v.
#[derive(Clone, Copy, PartialEq, Eq)]
pub struct Row {
    pub low: u64,
}

// How many words a row has, and how many values there can be. (The limit of d, a rule of the request, is `Sheet::VALUES`.)
pub const WORDS: usize = 1;

pub const VALUES: usize = WORDS * word::BITS;

// The row of one word, for hosts and files that speak in words.
impl From<u64> for Row {
    ghost from_gives = { λ word row. Holds row word };

    fn from(word: u64) -> Row {
        Row { low: word }
    }
}

// The same the other way. (Computed, as in `put_row`.)
impl From<Row> for u64 {
    ghost from_gives = { λ row word. word ≡ bits row };

    fn from(row: Row) -> u64 {
        row.low | 0
    }
}

// What knows the words.
impl Row {
    // The set of no value.
    pub fn empty() -> Row
        ensures { Holds result zero }
    {
        Row { low: 0 }
    }

    // The set of the one value v.
    pub fn single(v: usize) -> Row
        requires { v < width }
        ensures { bits result ≡ single v }
    {
        Row {
            low: word::single(v),
        }
    }

    // The set of all values below d.
    pub fn all(d: usize) -> Row
        requires { d ≤ width }
        ensures { Holds result (all d) }
    {
        Row { low: word::all(d) }
    }

    // It has no value.
    pub fn is_empty(self) -> bool
        ensures { result ≡ eqb (bits self) zero }
    {
        self.low == 0
    }

    // Value v is possible in the row. Total, so that no caller owes a bound: a row has no value from VALUES on.
    pub fn has(self, v: usize) -> bool
        ensures { result ≡ has (bits self) v }
    {
        word::has(u64::from(self), v)
    }

    // The values that both have.
    pub fn both(self, other: Row) -> Row
        ensures { bits result ≡ bit_and (bits self) (bits other) }
    {
        Row {
            low: self.low & other.low,
        }
    }

    // The values that either has.
    pub fn either(self, other: Row) -> Row
        ensures { bits result ≡ bit_or (bits self) (bits other) }
    {
        Row {
            low: self.low | other.low,
        }
    }

    // Its values that are not the other's.
    pub fn minus(self, other: Row) -> Row
        ensures { bits result ≡ minus (bits self) (bits other) }
    {
        Row {
            low: word::minus(self.low, other.low),
        }
    }

    // How many values the set has.
    pub fn count(self) -> usize
        ensures { result ≡ ones (bits self) }
    {
        self.low.count_ones() as usize
    }

    // The lowest value of the set, and VALUES where it has none.
    pub fn lowest(self) -> usize
        ensures { result ≡ count_trailing_zeros width (bits self) }
    {
        self.low.trailing_zeros() as usize
    }

    // The set without its lowest value.
    pub fn rest(self) -> Row
        ensures { bits result ≡ minus (bits self) (single (count_trailing_zeros width (bits self))) }
    {
        if self.low == 0 {
            return self;
        }
        Row {
            low: self.low & (self.low - 1),
        }
    }

    // One more than the highest value of the set, and 0 where it has none.
    pub fn top(self) -> usize
        ensures { result ≡ width - count_leading_zeros width (bits self) }
    {
        VALUES - self.low.leading_zeros() as usize
    }

    // A number below 512 that goes by the set alone: sets with different tags are different.
    // 509 is a prime, so that different sets mostly have different tags.
    pub fn tag(self) -> usize
        ensures { result ≡ tag_of (bits self) }
    {
        (self.low % 509) as usize
    }
}

// What goes by sets, whatever the number of words.
impl Row {
    // The set with the value v put in.
    pub fn with(self, v: usize) -> Row
        requires { v < width }
        ensures { bits result ≡ bit_or (bits self) (single v) }
    {
        self.either(Row::single(v))
    }

    // The set with the value v taken out.
    pub fn without(self, v: usize) -> Row
        requires { v < width }
        ensures { bits result ≡ minus (bits self) (single v) }
    {
        self.minus(Row::single(v))
    }

    // They have the same values. (The derived `==` speaks of words, and this of sets, whatever is known of the words.)
    pub fn equal(self, other: Row) -> bool
        ensures { result ≡ eqb (bits self) (bits other) }
    {
        u64::from(self) == u64::from(other)
    }

    // A value is in both.
    pub fn meets(self, other: Row) -> bool
        ensures { result ≡ not (eqb (bit_and (bits self) (bits other)) zero) }
    {
        !self.both(other).is_empty()
    }

    // Each of its values is one of the other's.
    pub fn subset(self, other: Row) -> bool
        ensures { result ≡ subset (bits self) (bits other) }
    {
        self.minus(other).is_empty()
    }

    // No value d or above.
    #[tactic(auto, using(crate::proofs::ValuesBelow::below_all, crate::proofs::RowValues::below_wide))]
    pub fn below(self, d: usize) -> bool
        ensures { result ≡ below d (bits self) }
    {
        if d < VALUES {
            self.subset(Row::all(d))
        } else {
            true
        }
    }

    // Not empty, and no value d or above.
    #[tactic(auto, unfolding(crate::specs::Sets::within))]
    pub fn within(self, d: usize) -> bool
        ensures { result ≡ within d (bits self) }
    {
        !self.is_empty() && self.below(d)
    }
}
