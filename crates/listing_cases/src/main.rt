// What `listing::list` answers to the cases on standard input, whose head says how they are written: the smallest tape for each number
// that a listing can give, what happens to the lent text, and listings at the limits. A case has a few words, then the tape's bytes, or
// how many there are, and then its text. The expected lines stand in stdout; docs/DECISIONS.md says where they come from.
#![tactic(auto)]

mod limits;
mod show;

use cases::{Asks, Tape};
use console::Console;
use std::io;

// Room for the cases; for a tape that is one byte too long; and for a text that is.
const CASES: usize = 65536;

const TAPE: usize = 65537;

const TEXT: usize = 1310741;

// The text that is lent.
#[derive(Drop)]
struct Run {
    text: [u8; TEXT],
}

impl Asks for Run {
    // Lists the tape as a line says.
    fn ask(&mut self, rt: &impl Print, line: &[u8], tape: &[u8]) -> io::Result<()> {
        let text = &mut self.text;
        match script::command(line, b"line lines sized left ends") {
            0 => show::line(rt, line, tape, text),
            1 => show::lines(rt, line, tape, text),
            2 => limits::sized(rt, line, tape, text),
            3 => limits::left(rt, line, tape, text),
            4 => limits::ends(rt, line, tape, text),
            _ => cases::tell(rt, line),
        }
    }
}

fn main() {
    let _ = cases::ask_each(
        &Console,
        &mut [0u8; CASES],
        &mut Tape::<TAPE>::new(),
        &mut Run { text: [0; TEXT] },
    );
}
