// Answers each question of 64 bytes on standard input: an operation, a byte, a u32, and 58 bytes. 0 is more (how many of the 58
// bytes go behind the tape; how often), any other list (how many of them end the tape; initial place), after which the tape is
// empty. The tape is kept from question to question. An answer is a line: `done`; or the lines of the listing with `; ` between two;
// or, where its text is long, its length, a checksum of it and its last line, with ` : ` between two.
#![tactic(auto)]

ghost use Rattle.std.specs.Prelude.{◌≤◌, length};

use console::Console;
use replay::room::Room;
use replay::{Answers, Asked};
use std::io;

// How many bytes a question has.
const QUESTION: usize = 64;

// There is room for tapes that are too long.
const ROOM: usize = 100000;

const MORE: u8 = 0;

// The most bytes of a text that is told whole.
const SHORT: usize = 200;

// What ends a line.
const NEWLINE: u8 = 10;

// Where the last line of a text begins: behind the last newline that is not the text's end.
fn last_line(text: &[u8]) -> usize
    ensures { result ≤ length text.now }
{
    for at in (1..text.len()).rev() {
        if text[at - 1] == NEWLINE {
            return at;
        }
    }
    0
}

// Prints the lines of a text with `; ` between two.
fn print_lines(rt: &impl Print, text: &[u8]) -> io::Result<()> {
    for (i, byte) in text.iter().enumerate() {
        if *byte != NEWLINE {
            rt.write_all(&[*byte])?;
        } else if i + 1 < text.len() {
            rt.write_all(b"; ")?;
        }
    }
    Ok(())
}

// Prints a text's length, its checksum and its last line.
fn print_long(rt: &impl Print, text: &[u8]) -> io::Result<()> {
    print!(rt; "{} : {} : ", text.len(), replay::checksum(text))?;
    print_lines(rt, &text[last_line(text)..])
}

// Prints what stands for a text.
fn print_text(rt: &impl Print, text: &[u8]) -> io::Result<()> {
    if text.len() <= SHORT {
        print_lines(rt, text)
    } else {
        print_long(rt, text)
    }
}

// Lists a tape and prints the answer.
fn list(rt: &impl Print, tape: &[u8], initial: usize, text: &mut [u8]) -> io::Result<()> {
    match listing::list(tape, initial, text) {
        Ok(end) => print_text(rt, page::cut(text, end)),
        Err(_) => print!(rt; "no text"),
    }
}

// The tape, and the text that is lent to one listing after the other, as each leaves it.
#[derive(Drop)]
struct Replay {
    tape: Room<u8, ROOM>,
    text: [u8; listing::TEXT],
}

impl Answers for Replay {
    // Answers a question.
    fn answer(&mut self, rt: &impl Print, question: &[u8]) -> io::Result<()> {
        let asked = Asked::new(question);
        if asked.operation == MORE {
            self.tape.push_often(asked.piece(), asked.number);
            return print!(rt; "done");
        }
        self.tape.push_all(asked.piece());
        list(rt, self.tape.as_slice(), asked.number, &mut self.text)?;
        self.tape.clear();
        Ok(())
    }
}

// The tape begins with no bytes.
fn main() {
    let mut replay = Replay {
        tape: Room::new(0),
        text: [0; listing::TEXT],
    };
    let _ = replay::answer_each(&Console, &mut [0u8; QUESTION], &mut replay);
}
