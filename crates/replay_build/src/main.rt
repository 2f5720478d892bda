// Answers each question of 64 bytes on standard input: an operation, a byte, a u32, and 58 bytes. 0 is more (how many of the 58
// bytes go behind the tape; how often), any other build (how many of them end the tape; initial place), after which the tape is
// empty. The tape is kept from question to question. An answer is a line: `done`; or `refused`, document 01's number, `at` and the
// offset; or `finished`, start, end and passes, the numbers behind `:`, and behind another `:` a checksum of the whole image.
#![tactic(auto)]

use builder::Built;
use console::Console;
use replay::room::Room;
use replay::{Answers, Asked};
use std::io;
use symbols::NODES;

// How many bytes a question has.
const QUESTION: usize = 64;

// There is room for tapes that are too long.
const ROOM: usize = 100000;

const MORE: u8 = 0;

// Prints a finished build.
fn print_finished(rt: &impl Print, built: Built, list: &[i64], image: &[u8]) -> io::Result<()> {
    print!(rt; "finished {} {} {} :", built.start, built.end, built.passes)?;
    for z in &list[..built.numbers.min(list.len())] {
        print!(rt; " {z}")?;
    }
    print!(rt; " : {}", replay::checksum(image))
}

// Builds a tape and prints the answer.
fn build(
    rt: &impl Print,
    tape: &[u8],
    initial: usize,
    image: &mut [u8],
    list: &mut [i64],
    work: &mut [u16],
) -> io::Result<()> {
    match builder::build(tape, initial, image, list, work) {
        Ok(built) => print_finished(rt, built, list, image),
        Err(fault) => print!(rt; "{fault}"),
    }
}

// The tape, and memory that is lent to one build after the other, as each leaves it.
#[derive(Drop)]
struct Replay {
    tape: Room<u8, ROOM>,
    image: [u8; builder::SIZE],
    list: [i64; NODES],
    work: [u16; builder::WORK],
}

impl Answers for Replay {
    // Answers a question.
    fn answer(&mut self, rt: &impl Print, question: &[u8]) -> io::Result<()> {
        let asked = Asked::new(question);
        if asked.operation == MORE {
            self.tape.push_often(asked.piece(), asked.number);
            return print!(rt; "done");
        }
        self.tape.push_all(asked.piece());
        let tape = self.tape.as_slice();
        build(
            rt,
            tape,
            asked.number,
            &mut self.image,
            &mut self.list,
            &mut self.work,
        )?;
        self.tape.clear();
        Ok(())
    }
}

// The tape begins with no bytes.
fn main() {
    let mut replay = Replay {
        tape: Room::new(0),
        image: [0; builder::SIZE],
        list: [0; NODES],
        work: [0; builder::WORK],
    };
    let _ = replay::answer_each(&Console, &mut [0u8; QUESTION], &mut replay);
}
