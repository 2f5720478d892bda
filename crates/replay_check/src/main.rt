// Answers each question of 64 bytes on standard input: an operation, a byte, a u32, and 58 bytes. 0 is begin (how many of the 58
// bytes are the tape; how often), after which there are no numbers and no covered bytes; 1 more (how many of them go behind the
// tape; how often); 2 numbers (how many i64 of them go behind the list; how often); 3 bytes (how many of them go behind the covered
// bytes; how often); any other check (initial place, and the start in the first four of the 58 bytes), after which there are no
// numbers and no covered bytes. All three are kept from question to question. An answer is a line: `done`, `accepted`, or `refused`,
// document 01's number, `at` and the offset.
#![tactic(auto)]

use console::Console;
use replay::room::Room;
use replay::{Answers, Asked};
use std::io;

// How many bytes a question has.
const QUESTION: usize = 64;

// There is room for tapes, lists and covered bytes that are too long.
const ROOM: usize = 100000;

const LIST: usize = 3000;

// The operations; any other is check.
const BEGIN: u8 = 0;

const MORE: u8 = 1;

const NUMBERS: u8 = 2;

const BYTES: u8 = 3;

// The tape, the list and the covered bytes.
#[derive(Drop)]
struct Held {
    tape: Room<u8, ROOM>,
    list: Room<i64, LIST>,
    bytes: Room<u8, ROOM>,
}

// Puts the numbers of the first so many words behind others.
fn push_words(list: &mut Room<i64, LIST>, words: &[u8], count: u8) {
    for i in 0..count {
        list.push_all(&[little::i64_at(words, 8 * i as usize)]);
    }
}

// Puts what a question brings where it belongs.
fn keep(question: &[u8], held: &mut Held) {
    let asked = Asked::new(question);
    match asked.operation {
        BEGIN => {
            held.tape.clear();
            held.list.clear();
            held.bytes.clear();
            held.tape.push_often(asked.piece(), asked.number);
        }
        MORE => held.tape.push_often(asked.piece(), asked.number),
        NUMBERS => {
            for i in 0..asked.number {
                push_words(&mut held.list, asked.rest, little::u8_at(question, 1));
            }
        }
        _ => held.bytes.push_often(asked.piece(), asked.number),
    }
}

// Checks what there is, and prints the verdict.
fn check(rt: &impl Print, asked: Asked<'_>, held: &Held) -> io::Result<()> {
    let start = (little::u64_at(asked.rest, 0) % 0x1_0000_0000) as usize;
    let tape = held.tape.as_slice();
    let numbers = held.list.as_slice();
    match checker::check(tape, asked.number, numbers, start, held.bytes.as_slice()) {
        Ok(()) => print!(rt; "accepted"),
        Err(fault) => print!(rt; "{fault}"),
    }
}

impl Answers for Held {
    // Answers a question.
    fn answer(&mut self, rt: &impl Print, question: &[u8]) -> io::Result<()> {
        let asked = Asked::new(question);
        if asked.operation <= BYTES {
            keep(question, self);
            return print!(rt; "done");
        }
        check(rt, asked, self)?;
        self.list.clear();
        self.bytes.clear();
        Ok(())
    }
}

// Nothing is there at first.
fn main() {
    let mut held = Held {
        tape: Room::new(0),
        list: Room::new(0),
        bytes: Room::new(0),
    };
    let _ = replay::answer_each(&Console, &mut [0u8; QUESTION], &mut held);
}
