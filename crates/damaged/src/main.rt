// Damaged tapes and expressions. Sound ones come from standard input, whose head says how they are written; each is cut at every offset and
// has each of its bytes changed; `form`, `expression_form` and `evaluate` are asked about all of that, and it is counted what they answer.
// An answer is wrong if its number is none that the call may give, if its place lies behind the end or before what was changed, if
// something sound is refused or something cut is not cut short, or if `evaluate` answers otherwise than `expression_form` where that
// refuses.
#![tactic(auto)]

mod dice;
mod judge;
mod tally;
mod trial;

use cases::{Asks, Tape};
use console::Console;
use std::io;
use trial::Trial;

// Room for the sound ones, and for one of them.
const CASES: usize = 65536;

const ROOM: usize = 2048;

impl Asks for Trial {
    // Damages something sound.
    fn ask(&mut self, rt: &impl Print, line: &[u8], sound: &[u8]) -> io::Result<()> {
        match script::command(line, b"as-expression as-tape") {
            0 => self.damage(sound, false),
            1 => self.damage(sound, true),
            _ => return cases::tell(rt, line),
        }
        Ok(())
    }
}

fn main() {
    let mut trial = Trial::new();
    let _ = cases::ask_each(
        &Console,
        &mut [0u8; CASES],
        &mut Tape::<ROOM>::new(),
        &mut trial,
    );
    let _ = trial.print(&Console);
}
