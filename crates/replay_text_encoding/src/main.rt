// Answers, as the Rust would, each byte of standard input: its Petscreen byte, in capital hex on a line of its own.
#![tactic(auto)]

use console::Console;
use replay::Answers;
use std::io;

// Nothing is kept from byte to byte.
#[derive(Drop)]
struct Replay;

impl Answers for Replay {
    // Prints the answer to a question.
    fn answer(&mut self, rt: &impl Print, question: &[u8]) -> io::Result<()> {
        let byte = text_encoding::petscreen(little::u8_at(question, 0));
        print!(rt; "{byte:02X}")
    }
}

fn main() {
    let _ = replay::answer_each(&Console, &mut [0u8; 1], &mut Replay);
}
