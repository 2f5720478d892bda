// Lists the tape on standard input, built from 2000 hex: a line for each record that writes, and one of start, end and passes; or the
// refused line.
#![tactic(auto)]

use descriptors::{STDIN_FILENO, STDOUT_FILENO};

// Where a tape is built.
const INITIAL: usize = 0x2000;

// One byte more than a tape may have, so that a longer one is seen.
const ROOM: usize = 65537;

// Lists what is read.
fn main() {
    let mut tape = [0u8; ROOM];
    let mut text = [0u8; listing::TEXT];
    run(&mut tape, &mut text);
}

// Reads a tape, lists it, and writes the text at once.
fn run(tape: &mut [u8], text: &mut [u8]) {
    let length = io::read_full(STDIN_FILENO, tape);
    if let Ok(end) = listing::list(&tape[..length], INITIAL, text) {
        print(page::cut(text, end));
    }
}

// Prints some text.
fn print(text: &[u8]) {
    io::write_all(STDOUT_FILENO, text);
}
