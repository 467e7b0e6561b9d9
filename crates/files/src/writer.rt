// A table's bytes, put into a buffer.
ghost use Rattle.std.specs.Prelude.{◌≡◌, ◌≤◌, ◌+◌, ◌*◌, ◌++◌, length, take, drop};
ghost use Rattle.sets.specs.Rows.{rows_of};
ghost use Rattle.files.specs.Bytes.{in_bytes};
ghost use Rattle.files.specs.Writing.{header, row_bytes};

// The n bytes of a number, the first byte highest, go to a place; all others stay.
fn put(buffer: &mut [u8], from: usize, n: usize, value: u64)
    requires { from + n ≤ length buffer.old }
    ensures { buffer.new ≡ take from buffer.old ++ in_bytes n value ++ drop (from + n) buffer.old }
{
    let mut rest = value;
    for left in (0..n).rev() {
        buffer[from + left] = (rest % 256) as u8;
        rest /= 256;
    }
}

// The mark "PVT", version 1, d and T.
pub fn put_header(buffer: &mut [u8], d: usize, t: usize)
    requires { 8 ≤ length buffer.old }
    ensures { buffer.new ≡ header d t ++ drop 8 buffer.old }
{
    put(buffer, 0, 3, 0x505654);
    put(buffer, 3, 2, 1);
    put(buffer, 5, 1, d as u64);
    put(buffer, 6, 2, t as u64);
}

// The rows, behind the header.
pub fn put_rows(buffer: &mut [u8], table: &[u64])
    requires { 8 + 8 * length (rows_of table.now) ≤ length buffer.old }
    ensures { buffer.new ≡ take 8 buffer.old ++ row_bytes (rows_of table.now)
        ++ drop (8 + 8 * length (rows_of table.now)) buffer.old }
{
    for next in 0..sets::row_count(table) {
        let row = sets::row_at(table, next);
        put(buffer, 8 + 8 * next, 8, u64::from(row));
    }
}
