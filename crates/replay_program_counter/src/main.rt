// Answers, as the Rust would, each question of 17 bytes on standard input: an operation, and two u64. 0 is new, 1 add, 2 sub,
// 3 as_u16, 4 to_le_bytes, 5 as_i64, 6 as_empty_range; the first number is the place, the second what is added or taken off.
// An answer is one or two numbers in decimal, or `refused` where the Rust panics, on a line of its own.
#![tactic(auto)]

use console::Console;
use program_counter::{ProgramCounter, Range};
use refusals::Refusal;
use replay::Answers;
use std::fmt::Display;
use std::io;

// How many bytes a question has.
const QUESTION: usize = 17;

fn print_refused(rt: &impl Print) -> io::Result<()> {
    print!(rt; "refused")
}

fn print_number<T: Copy + Display>(rt: &impl Print, answer: Result<T, Refusal>) -> io::Result<()> {
    match answer {
        Ok(n) => print!(rt; "{n}"),
        Err(_) => print_refused(rt),
    }
}

fn print_place(rt: &impl Print, answer: Result<ProgramCounter, Refusal>) -> io::Result<()> {
    print_number(rt, answer.map(|pc| pc.0))
}

fn print_bytes(rt: &impl Print, answer: Result<[u8; 2], Refusal>) -> io::Result<()> {
    match answer {
        Ok(bytes) => {
            let [low, high] = bytes;
            print!(rt; "{low} {high}")
        }
        Err(_) => print_refused(rt),
    }
}

fn print_range(rt: &impl Print, answer: Result<Range, Refusal>) -> io::Result<()> {
    match answer {
        Ok(Range { start, end }) => print!(rt; "{start} {end}"),
        Err(_) => print_refused(rt),
    }
}

// Nothing is kept from question to question.
#[derive(Drop)]
struct Replay;

impl Answers for Replay {
    // Prints the answer to a question.
    fn answer(&mut self, rt: &impl Print, question: &[u8]) -> io::Result<()> {
        let a = little::u64_at(question, 1) as usize;
        let b = little::u64_at(question, 9) as usize;
        let pc = ProgramCounter(a);
        match little::u8_at(question, 0) {
            0 => print_place(rt, ProgramCounter::new(a)),
            1 => print_place(rt, pc.add(b)),
            2 => print_place(rt, pc.sub(b)),
            3 => print_number(rt, pc.as_u16()),
            4 => print_bytes(rt, pc.to_le_bytes()),
            5 => print_number(rt, pc.as_i64()),
            _ => print_range(rt, pc.as_empty_range()),
        }
    }
}

fn main() {
    let _ = replay::answer_each(&Console, &mut [0u8; QUESTION], &mut Replay);
}
