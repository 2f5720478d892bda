// What is handed in with a tape: numbers and bytes.

// Room for numbers; and for bytes, of which one is too many.
const NUMBERS: usize = 2000;

const BYTES: usize = 65537;

// How many numbers and bytes there are, of those for which there is room.
#[derive(Clone, Copy)]
pub struct Hand {
    numbers: [i64; NUMBERS],
    count: usize,
    bytes: [u8; BYTES],
    length: usize,
}

impl Hand {
    // Nothing.
    pub fn new() -> Self {
        Hand {
            numbers: [0; NUMBERS],
            count: 0,
            bytes: [0; BYTES],
            length: 0,
        }
    }

    // The numbers.
    pub fn numbers(&self) -> &[i64] {
        self.numbers.get(..self.count).unwrap_or(&self.numbers)
    }

    // The bytes.
    pub fn bytes(&self) -> &[u8] {
        page::cut(&self.bytes, self.length)
    }

    // The byte at an index.
    pub fn byte(&self, at: usize) -> u8 {
        little::u8_at(&self.bytes, at)
    }

    // Puts a byte at an index, if there is room.
    pub fn set_byte(&mut self, at: usize, byte: u8) {
        page::put(&mut self.bytes, at, byte);
    }

    // Other bytes: BYTES.
    pub fn set_bytes(&mut self, line: &[u8]) {
        self.length = script_tapes::put_bytes(&mut self.bytes, 0, line);
    }

    // Another byte: AT BYTE.
    pub fn put_byte(&mut self, line: &[u8]) {
        page::put_hex(
            &mut self.bytes,
            script::number(line, 1),
            script::words_from(line, 2),
        );
    }

    // Other numbers: Z Z ..
    pub fn set_numbers(&mut self, line: &[u8]) {
        let count = script::words(script::words_from(line, 1));
        for (i, number) in self.numbers.iter_mut().enumerate().take(count) {
            *number = signed(line, i + 1);
        }
        self.count = count;
    }

    // The same number so often: N Z.
    pub fn fill_numbers(&mut self, line: &[u8]) {
        self.numbers.fill(signed(line, 2));
        self.count = script::number(line, 1);
    }

    // Another number: AT Z.
    pub fn put_number(&mut self, line: &[u8]) {
        if let Some(number) = self.numbers.get_mut(script::number(line, 1)) {
            *number = signed(line, 2);
        }
    }
}

// The number of a word, which may be below 0.
fn signed(line: &[u8], index: usize) -> i64 {
    let size = script::number(line, index) as u64;
    if script::word(line, index).starts_with(b"-") {
        return int64::of_word(size.wrapping_neg());
    }
    int64::of_word(size)
}
