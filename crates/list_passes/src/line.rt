// A line that is put together from left to right: each call takes the offset where it begins, and gives the one behind what it put. What
// has no room is left out.

use passes::LIMIT;

// How long the words at the beginning of a line are.
const HEAD: usize = 12;

// How long a number's text is at most: a minus sign and sixteen digits.
const NUMBER: usize = 17;

// How long a line is at most: its head, a blank and a number for each pass, and its end.
pub const LONGEST: usize = HEAD + LIMIT * (1 + NUMBER) + 1;

// How wide a cell is at least; and how wide with the blank before it.
const WIDTH: usize = 6;

const BLANKS: usize = 7;

// How many digits a number in decimal has at most.
const DECIMALS: usize = 20;

// How many hexadecimal digits a number has at most, and at least.
const DIGITS: usize = 16;

const LEAST: usize = 4;

// Puts a text as a cell: at the right of its width, and behind one blank at least.
pub fn put_cell(line: &mut [u8], at: usize, text: &[u8]) -> usize {
    let spaced = put_blanks(line, at, text.len());
    page::put_all(line, spaced, text)
}

// Puts the blanks before a text of this length.
fn put_blanks(line: &mut [u8], at: usize, length: usize) -> usize {
    let blanks = [b' '; BLANKS];
    if length < WIDTH {
        return page::put_all(line, at, &blanks[length..]);
    }
    page::put_all(line, at, b" ")
}

// Puts an id, in four hexadecimal digits and with two blanks behind it.
pub fn put_id(line: &mut [u8], at: usize, id: u16) -> usize {
    let named = put_digits(line, at, id as u64);
    page::put_all(line, named, b"  ")
}

// Puts a cell with a number in decimal.
pub fn put_decimal(line: &mut [u8], at: usize, n: u64) -> usize {
    let mut digits = [0u8; DECIMALS];
    let end = io::decimal(n, &mut digits);
    put_cell(line, at, &digits[..end])
}

// Puts a cell with a number in hexadecimal, a minus sign before its digits where it is below 0.
pub fn put_hex(line: &mut [u8], at: usize, z: i64) -> usize {
    let mut text = [0u8; NUMBER];
    let signed = put_sign(&mut text, z);
    let end = put_digits(&mut text, signed, int64::size(z));
    put_cell(line, at, page::cut(&text, end))
}

// Puts the minus sign of a number that is below 0.
fn put_sign(line: &mut [u8], z: i64) -> usize {
    if z < 0 {
        return page::put_all(line, 0, b"-");
    }
    0
}

// Puts the hexadecimal digits of a number, four at least.
fn put_digits(line: &mut [u8], from: usize, n: u64) -> usize {
    let mut at = from;
    for i in (0..DIGITS).rev() {
        let quotient = n >> (4 * i);
        if i < LEAST || quotient != 0 {
            at = page::put_all(line, at, &[hexadecimal::digit((quotient % 16) as u8)]);
        }
    }
    at
}
