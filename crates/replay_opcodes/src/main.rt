// Answers, as the Rust would, each question of 11 bytes on standard input: mnemonic, mode, suffix, and the operand as an i64.
// An answer is the instruction's bytes in capital hex, or `refused` (the Rust does not say why), on a line of its own.
#![tactic(auto)]

use console::Console;
use opcodes::Code;
use replay::Answers;
use std::io;

// How many bytes a question has.
const QUESTION: usize = 11;

// Prints an instruction's bytes.
fn print_code(rt: &impl Print, code: Code) -> io::Result<()> {
    let Code { len, b0, b1, b2 } = code;
    match len {
        1 => print!(rt; "{b0:02X}"),
        2 => print!(rt; "{b0:02X} {b1:02X}"),
        _ => print!(rt; "{b0:02X} {b1:02X} {b2:02X}"),
    }
}

// Nothing is kept from question to question.
#[derive(Drop)]
struct Replay;

impl Answers for Replay {
    // Prints the answer to a question.
    fn answer(&mut self, rt: &impl Print, question: &[u8]) -> io::Result<()> {
        let mnemonic = little::u8_at(question, 0);
        let mode = little::u8_at(question, 1);
        let suffix = little::u8_at(question, 2);
        match opcodes::encode(mnemonic, mode, suffix, little::i64_at(question, 3)) {
            Ok(code) => print_code(rt, code),
            Err(_) => print!(rt; "refused"),
        }
    }
}

fn main() {
    let _ = replay::answer_each(&Console, &mut [0u8; QUESTION], &mut Replay);
}
