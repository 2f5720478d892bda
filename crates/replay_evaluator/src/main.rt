// Answers, as the Rust would, each question of 17 bytes on standard input: an operation, and two i64. Operations 0 to 15 are
// the tape's operators; 16 is NOT, 17 NEG, 18 NOT and then NEG, 19 the low byte and 20 the high byte of the first number.
// An answer is a number in decimal, or `refused` where the Rust panics, on a line of its own.
#![tactic(auto)]

use console::Console;
use refusals::Refusal;
use replay::Answers;
use std::io;

// How many bytes a question has.
const QUESTION: usize = 17;

// What the operation gives.
fn evaluate(operation: u8, a: i64, b: i64) -> Result<i64, Refusal> {
    match operation {
        16 => Ok(operators::not(a)),
        17 => int64::neg(a),
        18 => int64::neg(operators::not(a)),
        19 => Ok(i64::from(int64::low_byte(a))),
        20 => Ok(i64::from(int64::high_byte(a))),
        _ => operators::apply_i64(operation, a, b),
    }
}

// Nothing is kept from question to question.
#[derive(Drop)]
struct Replay;

impl Answers for Replay {
    // Prints the answer to a question.
    fn answer(&mut self, rt: &impl Print, question: &[u8]) -> io::Result<()> {
        let operation = little::u8_at(question, 0);
        match evaluate(
            operation,
            little::i64_at(question, 1),
            little::i64_at(question, 9),
        ) {
            Ok(z) => print!(rt; "{z}"),
            Err(_) => print!(rt; "refused"),
        }
    }
}

fn main() {
    let _ = replay::answer_each(&Console, &mut [0u8; QUESTION], &mut Replay);
}
