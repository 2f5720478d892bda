// The records of a tape: one byte of kind, then a body whose length the kind fixes.
#![tactic(auto)]

ghost use Rattle.std.specs.Prelude.{◌≡◌, length};
ghost use Rattle.refusals.specs.AnswerAt.{mapped};
ghost use Rattle.refusals.specs.Says.{says_at};
ghost use Rattle.tape.specs.Kinds.{size_of, is_expression, is_statement, is_name};
ghost use Rattle.tape.specs.Packed.{sizes_of};
ghost use Rattle.tape.specs.Record.{record_at, bytes_at};

use refusals::{Fault, Refusal};

// The kinds of which expressions are made.
pub const NUMBER: u8 = 0x01;

pub const CURRENT_PLACE: u8 = 0x02;

pub const NAME_1: u8 = 0x11;

pub const NAME_2: u8 = 0x12;

pub const NAME_3: u8 = 0x13;

pub const NAME_4: u8 = 0x14;

pub const FLAGS: u8 = 0x20;

pub const BINARY: u8 = 0x30;

// The kinds that stand outside of them.
pub const INSTRUCTION: u8 = 0x40;

pub const OPEN_SCOPE: u8 = 0x42;

pub const CLOSE_SCOPE: u8 = 0x43;

pub const LABEL: u8 = 0x44;

pub const CONSTANT: u8 = 0x45;

pub const SET_PLACE: u8 = 0x46;

pub const BYTE: u8 = 0x47;

pub const WORD: u8 = 0x48;

pub const SCREEN_BYTE: u8 = 0x49;

pub const END: u8 = 0x4f;

// Kinds stand in rows of sixteen. The sizes of a row are packed in one word, a digit of four bits for each kind, the first lowest.
const ROW: u8 = 16;

const DIGIT_BITS: u8 = 4;

const DIGITS: u64 = 16;

// The rows: the size of each kind, at its place.
const NUMBERS: u64 = (9 << (DIGIT_BITS * (NUMBER % ROW)))
    + (1 << (DIGIT_BITS * (CURRENT_PLACE % ROW)));

const NAMES: u64 = (4 << (DIGIT_BITS * (NAME_1 % ROW)))
    + (6 << (DIGIT_BITS * (NAME_2 % ROW)))
    + (8 << (DIGIT_BITS * (NAME_3 % ROW)))
    + (10 << (DIGIT_BITS * (NAME_4 % ROW)));

const FLAGGED: u64 = 2 << (DIGIT_BITS * (FLAGS % ROW));

const OPERATORS: u64 = 2 << (DIGIT_BITS * (BINARY % ROW));

const STATEMENTS: u64 = (4 << (DIGIT_BITS * (INSTRUCTION % ROW)))
    + (3 << (DIGIT_BITS * (OPEN_SCOPE % ROW)))
    + (1 << (DIGIT_BITS * (CLOSE_SCOPE % ROW)))
    + (3 << (DIGIT_BITS * (LABEL % ROW)))
    + (3 << (DIGIT_BITS * (CONSTANT % ROW)))
    + (1 << (DIGIT_BITS * (SET_PLACE % ROW)))
    + (1 << (DIGIT_BITS * (BYTE % ROW)))
    + (1 << (DIGIT_BITS * (WORD % ROW)))
    + (2 << (DIGIT_BITS * (SCREEN_BYTE % ROW)))
    + (1 << (DIGIT_BITS * (END % ROW)));

// The packed sizes of a row.
fn sizes(row: u8) -> u64
    ensures { result ≡ sizes_of row }
{
    match row {
        0 => NUMBERS,
        1 => NAMES,
        2 => FLAGGED,
        3 => OPERATORS,
        4 => STATEMENTS,
        _ => 0,
    }
}

// The length of a record of this kind, its kind too; 0 where no record has it.
pub fn size(kind: u8) -> usize
    ensures { result ≡ size_of kind }
{
    ((sizes(kind / ROW) >> (DIGIT_BITS * (kind % ROW))) % DIGITS) as usize
}

// Whether expressions are made of records of this kind.
#[tactic(auto, unfolding(crate::specs::Kinds::is_expression))]
pub fn is_expression(kind: u8) -> bool
    ensures { result ≡ is_expression kind }
{
    size(kind) != 0 && kind < INSTRUCTION
}

// Whether records of this kind stand outside of expressions.
#[tactic(auto, unfolding(crate::specs::Kinds::is_statement))]
pub fn is_statement(kind: u8) -> bool
    ensures { result ≡ is_statement kind }
{
    size(kind) != 0 && INSTRUCTION <= kind
}

// Whether it is the kind of a name.
#[tactic(auto, unfolding(crate::specs::Kinds::is_name))]
pub fn is_name(kind: u8) -> bool
    ensures { result ≡ is_name kind }
{
    NAME_1 <= kind && kind <= NAME_4
}

// How long the record at an offset is.
pub fn find(tape: &[u8], at: usize) -> Result<usize, Fault>
    ensures { says_at result ≡ mapped length (record_at tape.now at) }
{
    let len = tape.len();
    if len <= at {
        return Err(Refusal::CutShort.at(len));
    }
    let n = size(tape[at]);
    if n == 0 {
        return Err(Refusal::BadRecord.at(at));
    }
    if len - at < n {
        return Err(Refusal::CutShort.at(at));
    }
    Ok(n)
}

// The bytes of the record at an offset, as that part of the tape; none where no whole record stands there.
pub fn record(tape: &[u8], at: usize) -> &[u8]
    ensures { result.now ≡ bytes_at tape.now at }
{
    match find(tape, at) {
        Ok(n) => &tape[at..at + n],
        Err(_) => &tape[..0],
    }
}
