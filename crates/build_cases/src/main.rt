// What `builder::build` answers to the cases on standard input, whose head says how they are written: a line for each case, with a few
// words for it, then start and end in hexadecimal, the passes, the numbers in decimal and the bytes from start to end; or the refusal and
// its offset. Where more than sixteen numbers or bytes would stand, the first and the last do. The expected answers stand in stdout, and
// were written from document 01.
#![tactic(auto)]

mod memory;
mod show;

use cases::{Asks, Tape};
use console::Console;
use std::io;

// Room for the cases, and for a tape that is one byte too long.
const CASES: usize = 65536;

const TAPE: usize = 65537;

// Nothing is kept from line to line.
#[derive(Drop)]
struct Run;

impl Asks for Run {
    // Builds the tape as a line says.
    fn ask(&mut self, rt: &impl Print, line: &[u8], tape: &[u8]) -> io::Result<()> {
        match script::command(line, b"build left sized") {
            0 => memory::build(rt, line, tape)?,
            1 => memory::left(rt, line, tape)?,
            2 => memory::sized(rt, line, tape)?,
            _ => return cases::tell(rt, line),
        }
        println!(rt;)
    }
}

fn main() {
    let _ = cases::ask_each(
        &Console,
        &mut [0u8; CASES],
        &mut Tape::<TAPE>::new(),
        &mut Run,
    );
}
