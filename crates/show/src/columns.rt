// The numbers of a line, in columns.
ghost use Rattle.std.specs.Prelude.{◌<◌};

// A number with one digit more. What would be too large is the largest number, and so are the last few below it, which saturating steps would read.
fn longer(n: u64, digit: u8) -> u64
    requires { digit < 10 }
{
    if n < 1_844_674_407_370_955_160 {
        n * 10 + u64::from(digit)
    } else {
        u64::MAX
    }
}

// The column of the number after a byte that is no digit: a sign leads on to its own, and anything else to the next, once the last is filled.
fn column(byte: u8, next: usize) -> usize {
    match byte {
        b'=' => 4,
        b'*' => 8,
        b'/' => 9,
        b'#' => 10,
        b'@' => 11,
        _ => next,
    }
}

// The numbers of a text, into the columns of a row; answers how far the row is filled.
fn numbers(text: &[u8], row: &mut [u64]) -> usize {
    let mut value: u64 = 0;
    let mut at: usize = 0;
    let mut filled: usize = 0;
    for &byte in text {
        if !byte.is_ascii_digit() {
            at = column(byte, filled);
            value = 0;
            continue;
        }
        if row.len() <= at {
            return filled;
        }
        value = longer(value, byte - b'0');
        row[at] = value;
        filled = at + 1;
    }
    filled
}

// A line's numbers in their columns, and how far the columns are filled. (No Vec: a sign jumps over columns, which keep their usual values.)
#[derive(Clone, Copy)]
pub struct Columns<const N: usize> {
    pub row: [u64; N],
    filled: usize,
}

impl<const N: usize> Columns<N> {
    // The numbers of a text, each in the place of its usual value.
    pub fn read(text: &[u8], usual: [u64; N]) -> Self {
        let mut row = usual;
        let filled = numbers(text, &mut row);
        Columns { row, filled }
    }

    // The numbers from a column on.
    pub fn from_column(&self, column: usize) -> &[u64] {
        self.row.get(column..self.filled).unwrap_or(&[])
    }
}
