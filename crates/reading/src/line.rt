// A line of the script has words to print. Where it has a bar, it stands for a file: after the bar come its numbers,
//     place byte place byte =refusal row d rows /length #places @cells
// The file is the request's, and the same again behind it, with these bytes changed, cut to a length. The answer is what follows the =, the lent
// list has so many places, and the reader hands out the cells, which a file that is read also puts into the list.
use crate::check;
use crate::check::{Header, Said};
use show::Columns;
use std::io;
use std::io::Write;

// The request's file: d 4 and three rows, 3, 0 and 4.
const REQUEST: [u8; 32] = [
    0x50, 0x56, 0x54, 0, 1, 4, 0, 3, 0, 0, 0, 0, 0, 0, 0, 3, 0, 0, 0, 0, 0, 0, 0, 0, 0, 0, 0, 0, 0,
    0, 0, 4,
];

// As long as a file of 257 rows with all their bytes, and one more.
const LONGEST: usize = 2065;

// The cells of a line begin at this column.
const CELLS: usize = 11;

// Changes one byte of the file.
fn change(file: &mut [u8], place: u64, byte: u64) {
    if let Some(changed) = file.get_mut(place as usize) {
        *changed = (byte % 256) as u8;
    }
}

// The request's file twice, and zeros behind it.
fn glued() -> [u8; LONGEST] {
    let mut file = [0u8; LONGEST];
    file[..32].copy_from_slice(&REQUEST);
    file[32..64].copy_from_slice(&REQUEST);
    file
}

// The file of the numbers. Where they say nothing else, it is the request's with its bytes as they are, whole and alone, and the list has a place
// for every row.
pub fn trial(out: &mut impl Write, numbers: &[u8]) -> io::Result<bool> {
    let line = Columns::read(numbers, [0, 80, 0, 80, 0, 0, 0, 0, 0, 32, 300, 0, 0, 0, 0]);
    let [
        place,
        byte,
        other,
        its_byte,
        refusal,
        row,
        d,
        rows,
        _,
        length,
        places,
        ..
    ] = line.row;
    let mut file = glued();
    change(&mut file, place, byte);
    change(&mut file, other, its_byte);
    let must = Said {
        refusal,
        row,
        told: Header { d, rows },
    };
    check::check(
        out,
        file.get(..length as usize).unwrap_or(&file),
        places as usize,
        must,
        line.from_column(CELLS),
    )
}
