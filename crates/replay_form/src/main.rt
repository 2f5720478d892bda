// Answers each question of 16 bytes on standard input: an operation, a byte, a u32, and ten bytes. 0 is begin, a tape without
// bytes; 1 append (how many of the ten bytes; how often), 2 form and 3 expression_form (a byte; how many bytes of the tape; and
// in the first four of the ten bytes the offset at which the byte stands instead). The tape is kept from question to question.
// An answer is a line: `done`, or `refused`, document 01's number, `at` and the offset.
#![tactic(auto)]

use console::Console;
use refusals::Fault;
use replay::Answers;
use replay::room::Room;
use std::io;

// How many bytes a question has.
const QUESTION: usize = 16;

// There is room for tapes that are too long.
const ROOM: usize = 100000;

// The operations; any other is expression_form.
const BEGIN: u8 = 0;

const APPEND: u8 = 1;

const FORM: u8 = 2;

// The number of four bytes.
fn number_at(question: &[u8], at: usize) -> usize {
    (little::u64_at(question, at) % 0x1_0000_0000) as usize
}

// The bytes from an offset on, or none.
fn behind(bytes: &[u8], at: usize) -> &[u8] {
    &bytes[at.min(bytes.len())..]
}

// What one of the two calls gives.
fn checked(operation: u8, bytes: &[u8]) -> Result<(), Fault> {
    if operation == FORM {
        return form::form(bytes);
    }
    form::expression_form(bytes)
}

// What it gives of the first so many bytes of the tape, with another byte at an offset for that time.
fn checked_with(tape: &mut Room<u8, ROOM>, question: &[u8]) -> Result<(), Fault> {
    let at = number_at(question, 6);
    let old = little::u8_at(tape.as_slice(), at);
    tape.put(at, little::u8_at(question, 1));
    let bytes = page::cut(tape.as_slice(), number_at(question, 2));
    let verdict = checked(little::u8_at(question, 0), bytes);
    tape.put(at, old);
    verdict
}

// Puts the bytes of a question behind the tape.
fn append(tape: &mut Room<u8, ROOM>, question: &[u8]) {
    let bytes = page::cut(behind(question, 6), little::u8_at(question, 1) as usize);
    tape.push_often(bytes, number_at(question, 2));
}

// Prints what a question about the tape is answered.
fn print_checked(rt: &impl Print, tape: &mut Room<u8, ROOM>, question: &[u8]) -> io::Result<()> {
    match checked_with(tape, question) {
        Ok(()) => print!(rt; "done"),
        Err(fault) => print!(rt; "{fault}"),
    }
}

// Prints the answer to a question.
fn answer(rt: &impl Print, tape: &mut Room<u8, ROOM>, question: &[u8]) -> io::Result<()> {
    match little::u8_at(question, 0) {
        BEGIN => tape.clear(),
        APPEND => append(tape, question),
        _ => return print_checked(rt, tape, question),
    }
    print!(rt; "done")
}

// The tape, which is kept from question to question.
#[derive(Drop)]
struct Replay {
    tape: Room<u8, ROOM>,
}

impl Answers for Replay {
    // Prints the answer to a question.
    fn answer(&mut self, rt: &impl Print, question: &[u8]) -> io::Result<()> {
        answer(rt, &mut self.tape, question)
    }
}

fn main() {
    let mut replay = Replay { tape: Room::new(0) };
    let _ = replay::answer_each(&Console, &mut [0u8; QUESTION], &mut replay);
}
