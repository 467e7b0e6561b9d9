// Numbers in bytes, and the rows of a file.
ghost use Rattle.std.specs.Prelude.{◌≡◌, ◌≤◌, ◌+◌, ◌*◌, not, length};
ghost use Rattle.sets.specs.Sets.{below};
ghost use Rattle.sets.specs.Rows.{Holds};
ghost use Rattle.files.specs.Bytes.{big};
ghost use Rattle.files.specs.Rows.{lowest_to};
ghost use Rattle.files.specs.Files.{row_in};

use sets::Row;

// The number in n bytes from a place on, the first byte highest.
pub fn big(file: &[u8], from: usize, n: usize) -> u64
    requires { (n ≤ 8) × (from + n ≤ length file.now) }
    ensures { result ≡ big file.now from n }
{
    let mut value: u64 = 0;
    for next in 0..n {
        value = value * 256 + file[from + next] as u64;
    }
    value
}

// Row i as it stands in the file.
pub fn row(file: &[u8], i: usize) -> Row
    requires { 16 + 8 * i ≤ length file.now }
    ensures { Holds result (row_in file.now i) }
{
    Row::from(big(file, 8 + 8 * i, 8))
}

// The lowest of the first n rows that has a value d or above. (`sets::bad_row` asks more, of rows in words: they share no more than a loop.)
pub fn over(file: &[u8], d: usize, n: usize) -> Option<usize>
    requires { 8 + 8 * n ≤ length file.now }
    ensures { result ≡ lowest_to (λ i. not (below d (row_in file.now i))) n }
{
    for next in 0..n {
        if !row(file, next).below(d) {
            return Some(next);
        }
    }
    None
}
