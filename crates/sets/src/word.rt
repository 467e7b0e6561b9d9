// One word as a set: what marks and tags are, and what a row is made of.
ghost use Rattle.std.specs.Prelude.{◌≡◌, ◌<◌, ◌≤◌};
ghost use Rattle.std.specs.Int.Bits.{bit_or};
ghost use Rattle.sets.specs.Limits.{word_bits};
ghost use Rattle.sets.specs.Sets.{has, single, all, minus};

// How many bits a word has.
pub const BITS: usize = 64;

// Value v is in the set. Total, so that no caller owes a bound.
pub fn has(set: u64, v: usize) -> bool
    ensures { result ≡ has set v }
{
    if v < BITS { (set >> v) % 2 == 1 } else { false }
}

// The values of a that are not b's.
pub fn minus(a: u64, b: u64) -> u64
    ensures { result ≡ minus a b }
{
    a ^ (a & b)
}

// The set of the one value v.
pub fn single(v: usize) -> u64
    requires { v < word_bits }
    ensures { result ≡ single v }
{
    1 << v
}

// The set with the value v put in.
pub fn with(set: u64, v: usize) -> u64
    requires { v < word_bits }
    ensures { result ≡ bit_or set (single v) }
{
    set | (1 << v)
}

// The set of all values below d.
pub fn all(d: usize) -> u64
    requires { d ≤ word_bits }
    ensures { result ≡ all d }
{
    if d < BITS { (1 << d) - 1 } else { u64::MAX }
}
