// What `checker::check` answers to the cases on standard input, whose head says how they are written: a line for each case, with a few
// words for it, then `accepted`, or the refusal and its offset. Document 01's answers stand in stdout.
#![tactic(auto)]

mod each;
mod hand;
mod show;

use cases::{Asks, Tape};
use console::Console;
use hand::Hand;
use std::io;

// Room for the cases, and for a tape that is one byte too long.
const CASES: usize = 65536;

const TAPE: usize = 65537;

impl Asks for Hand {
    // Changes what is handed in with a tape, or checks it.
    fn ask(&mut self, rt: &impl Print, line: &[u8], tape: &[u8]) -> io::Result<()> {
        match script::command(line, b"bytes byte numbers filled number") {
            0 => self.set_bytes(line),
            1 => self.put_byte(line),
            2 => self.set_numbers(line),
            3 => self.fill_numbers(line),
            4 => self.put_number(line),
            _ => return check(rt, line, tape, self),
        }
        Ok(())
    }
}

// Checks as a line says.
fn check(rt: &impl Print, line: &[u8], tape: &[u8], hand: &mut Hand) -> io::Result<()> {
    match script::command(line, b"check each built") {
        0 => show::check(rt, line, tape, hand),
        1 => each::check(rt, line, tape, hand),
        2 => show::built(rt, line, tape),
        _ => cases::tell(rt, line),
    }
}

fn main() {
    let _ = cases::ask_each(
        &Console,
        &mut [0u8; CASES],
        &mut Tape::<TAPE>::new(),
        &mut Hand::new(),
    );
}
