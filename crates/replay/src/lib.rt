// What the programs share that replay stored questions: each question answered, what questions gather in fixed memory, and the checksum
// that stands for long answers.
#![tactic(auto)]

pub mod room;

ghost use Rattle.std.specs.Prelude.{◌≡◌, ◌%◌, ◌^◌, get_or, take, drop};
ghost use Rattle.little.specs.Little.{number_at};
ghost use Rattle.replay.specs.Checksum.{checksum_of};

use std::io;

// The divisor of a checksum, which is prime, and what its sum is multiplied by at each byte.
const DIVISOR: u64 = 4294967291;

const FACTOR: u64 = 257;

// Where the rest of a question begins.
const REST: usize = 6;

// How many numbers four bytes tell apart.
const FOUR_BYTES: u64 = 0x1_0000_0000;

// What a program answers questions with, and keeps from question to question.
pub trait Answers {
    // Prints the answer to a question.
    fn answer(&mut self, rt: &impl Print, question: &[u8]) -> io::Result<()>;
}

// Answers each question that comes in on standard input, as long as the memory for it, and ends the line behind each answer; until there
// is no whole question, or the output is closed.
pub fn answer_each(
    rt: &impl Print,
    question: &mut [u8],
    answers: &mut impl Answers,
) -> io::Result<()> {
    for _ in 0..u64::MAX {
        if console::read(question) < question.len() {
            return Ok(());
        }
        answers.answer(rt, question)?;
        println!(rt;)?;
    }
    Ok(())
}

// A number that depends on every byte and on their order.
pub fn checksum(bytes: &[u8]) -> u64
    ensures { result ≡ checksum_of 0 bytes.now }
{
    let mut sum = 0;
    for byte in bytes {
        sum = FACTOR * (sum % DIVISOR) + *byte as u64 + 1;
    }
    sum
}

// A question about a tape: an operation, how much of the rest it speaks of, a number, and the rest.
#[derive(Clone, Copy)]
pub struct Asked<'a> {
    pub operation: u8,
    pub count: usize,
    pub number: usize,
    pub rest: &'a [u8],
}

impl<'a> Asked<'a> {
    // The question of these bytes: one of operation, one of count, four of number, and the rest.
    pub fn new(question: &'a [u8]) -> Self
        ensures operation { result.operation ≡ get_or question.now 0 0 }
        ensures count { result.count ≡ get_or question.now 1 0 }
        ensures number { result.number ≡ number_at 8 question.now 2 % 2 ^ 32 }
        ensures rest { result.rest.now ≡ drop 6 question.now }
    {
        Asked {
            operation: little::u8_at(question, 0),
            count: little::u8_at(question, 1) as usize,
            number: (little::u64_at(question, 2) % FOUR_BYTES) as usize,
            rest: question.get(REST..).unwrap_or(&[]),
        }
    }

    // The bytes that the question brings.
    pub fn piece(self) -> &'a [u8]
        ensures { result.now ≡ take self.entry.count self.entry.rest.now }
    {
        page::cut(self.rest, self.count)
    }
}
