// Answers each question of 4 bytes on standard input: how many bytes there are, 0 to 3, and three bytes, of which that many are
// decoded. An answer is mnemonic, mode, suffix, operand length and operand in decimal, or `refused` and the refusal's number,
// on a line of its own.
#![tactic(auto)]

use console::Console;
use inverse::Instruction;
use refusals::Refusal;
use replay::Answers;
use std::io;

// How many bytes a question has.
const QUESTION: usize = 4;

// Prints an instruction.
fn print_instruction(rt: &impl Print, instruction: Instruction) -> io::Result<()> {
    let row = instruction.row;
    let operand = instruction.operand;
    print!(rt;
        "{} {} {} {} {operand}",
        row.mnemonic, row.mode, row.suffix, row.operand
    )
}

// Decodes the bytes behind the first, as many of them as it says.
fn decode(question: &[u8]) -> Result<Instruction, Refusal> {
    match question.split_first() {
        Some((count, bytes)) => inverse::decode(page::cut(bytes, *count as usize)),
        None => inverse::decode(question),
    }
}

// Nothing is kept from question to question.
#[derive(Drop)]
struct Replay;

impl Answers for Replay {
    // Prints the answer to a question.
    fn answer(&mut self, rt: &impl Print, question: &[u8]) -> io::Result<()> {
        match decode(question) {
            Ok(instruction) => print_instruction(rt, instruction),
            Err(why) => print!(rt; "{why}"),
        }
    }
}

fn main() {
    let _ = replay::answer_each(&Console, &mut [0u8; QUESTION], &mut Replay);
}
