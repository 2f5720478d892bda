// Answers each question of 16 bytes on standard input: a branch's place and its target, an i64 each.
// An answer is the operand byte in capital hex, or `refused`, on a line of its own.
#![tactic(auto)]

use console::Console;
use replay::Answers;
use std::io;

// How many bytes a question has.
const QUESTION: usize = 16;

// Nothing is kept from question to question.
#[derive(Drop)]
struct Replay;

impl Answers for Replay {
    // Prints the answer to a question.
    fn answer(&mut self, rt: &impl Print, question: &[u8]) -> io::Result<()> {
        match branch::distance_of(little::i64_at(question, 0), little::i64_at(question, 8)) {
            Ok(byte) => print!(rt; "{byte:02X}"),
            Err(_) => print!(rt; "refused"),
        }
    }
}

fn main() {
    let _ = replay::answer_each(&Console, &mut [0u8; QUESTION], &mut Replay);
}
