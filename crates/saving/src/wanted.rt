// What must be answered, and which bytes must be written.
use std::fmt;

// What stands in the buffer before the call, to see what is written.
pub const BEFORE: u8 = 77;

// What is told of a table that is saved: the file's length.
#[derive(Clone, Copy, PartialEq, Eq, Default)]
pub struct Length(pub u64);

impl fmt::Display for Length {
    fn fmt<W: fmt::Write>(&self, f: &mut fmt::Formatter<W>) -> fmt::Result {
        write!(f, "{} bytes", self.0)
    }
}

// Of a table refusal 2 is of a row.
pub type Said = show::Said<Length, 2>;

// The answer, and the file's bytes as a script writes them out: whole rows, of which those left out are as the last.
#[derive(Clone, Copy)]
pub struct Wanted<'a> {
    pub said: Said,
    pub bytes: &'a [u64],
}

impl Wanted<'_> {
    // How many bytes the file has.
    pub fn length(&self) -> u64 {
        self.said.told.0
    }

    // The script writes out whole rows, and no more bytes than the file has.
    pub fn is_whole(&self) -> bool {
        let n = self.bytes.len();
        n % 8 == 0 && n as u64 <= self.length()
    }

    // What byte i of the buffer should be: the file's, and behind the file what stood there.
    fn byte(&self, i: usize) -> u64 {
        let bytes = self.bytes;
        let n = bytes.len();
        if self.length() <= i as u64 {
            u64::from(BEFORE)
        } else if i < n {
            bytes[i]
        } else if n < 8 {
            0
        } else {
            bytes[n - 8 + (i - n) % 8]
        }
    }

    // Every byte of the buffer is what it should be.
    pub fn is_in(&self, buffer: &[u8]) -> bool {
        buffer
            .iter()
            .enumerate()
            .all(|(i, &byte)| u64::from(byte) == self.byte(i))
    }
}
