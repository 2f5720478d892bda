// The 6502's opcodes: what forms a row has, and an instruction's bytes. A row is a mnemonic, a mode and a suffix, in document 01's
// numbers. `forms_of` alone knows the packed tables: everything else goes through it.
#![tactic(auto)]

mod tables;

ghost use Rattle.std.specs.Prelude.{◌≡◌, ◌∷◌, [], ◌<◌};
ghost use Rattle.refusals.specs.Answer.{mapped};
ghost use Rattle.refusals.specs.Says.{says};
ghost use Rattle.opcodes.specs.Manual.{forms_of, is_branch};
ghost use Rattle.opcodes.specs.Encode.{length_of, takes, bytes_of, tried, in_range, encode_of, code};
ghost use Rattle.opcodes.specs.Packed.{digit_of};
ghost use Rattle.opcodes.specs.Says.{listed};

use refusals::Refusal;
use tables::{BYTES, Words};

// An opcode, and how many operand bytes stand behind it.
#[derive(Clone, Copy, Debug, PartialEq, Eq)]
pub struct Form {
    pub opcode: u8,
    pub operand: u8,
}

// A row's forms, in the order tried: up to two, where an `Option` has up to one.
#[derive(Clone, Copy, Debug, PartialEq, Eq)]
pub enum Forms {
    None,
    One(Form),
    Two(Form, Form),
}

// How many bytes, and the bytes, zero behind them.
#[derive(Clone, Copy, Debug, PartialEq, Eq)]
pub struct Code {
    pub len: u8,
    pub b0: u8,
    pub b1: u8,
    pub b2: u8,
}

const MNEMONICS: u8 = 56;

const MODES: u8 = 5;

const SUFFIXES: u8 = 3;

// What an opcode's last five bits count to, and what they are in a branch.
const FIVE_BITS: u8 = 32;

const BRANCH_BITS: u8 = 16;

// A column is a suffix of a mode: three to a mode. A packed word has a digit of four bits for each column, the first highest.
const MODE_COLUMNS: u64 = 3;

const LAST_COLUMN: u64 = 14;

const DIGIT_BITS: u64 = 4;

const DIGITS: u64 = 16;

// An opcode is a byte of its word.
const BYTE_BITS: u64 = 8;

const BYTE_VALUES: u64 = 256;

// What a row's second opcode is above its first.
const SECOND: u8 = 8;

// Whether a mnemonic, a mode and a suffix are in document 01's ranges.
#[tactic(auto, unfolding(crate::specs::Encode::in_range))]
pub fn in_range(mnemonic: u8, mode: u8, suffix: u8) -> bool
    ensures { result ≡ in_range mnemonic mode suffix }
{
    mnemonic < MNEMONICS && mode < MODES && suffix < SUFFIXES
}

// The digit of a column in a packed word.
fn digit(word: u64, column: u64) -> u64
    requires { column < 15 }
    ensures { result ≡ digit_of word column }
{
    (word >> (DIGIT_BITS * (LAST_COLUMN - column))) % DIGITS
}

// The forms of a row, in the order tried; none for what is no row.
pub fn forms_of(mnemonic: u8, mode: u8, suffix: u8) -> Forms
    ensures { listed result ≡ forms_of mnemonic mode suffix }
{
    if !in_range(mnemonic, mode, suffix) {
        return Forms::None;
    }
    let Words(shapes, opcodes) = tables::words_of(mnemonic);
    let column = mode as u64 * MODE_COLUMNS + suffix as u64;
    let shape = digit(shapes, column);
    let opcode = ((opcodes >> (BYTE_BITS * digit(BYTES, column))) % BYTE_VALUES) as u8;
    match shape {
        0 => Forms::None,
        4 => Forms::Two(
            Form { opcode, operand: 1 },
            Form {
                opcode: opcode + SECOND,
                operand: 2,
            },
        ),
        _ => Forms::One(Form {
            opcode,
            operand: (shape - 1) as u8,
        }),
    }
}

// Whether a row is a branch: the opcodes of branches, and no others, end in the bits 10000.
pub fn is_branch(mnemonic: u8, mode: u8, suffix: u8) -> bool
    ensures { result ≡ is_branch mnemonic mode suffix }
{
    match forms_of(mnemonic, mode, suffix) {
        Forms::None => false,
        Forms::One(form) => form.opcode % FIVE_BITS == BRANCH_BITS,
        Forms::Two(_, _) => false,
    }
}

// How long an instruction of this form is: its opcode and its operand bytes.
pub fn length(form: Form) -> usize
    ensures { result ≡ length_of form }
{
    1 + form.operand as usize
}

// Whether a form takes an operand: the one-byte form only one below 256.
#[tactic(auto, unfolding(crate::specs::Encode::takes))]
pub fn takes(form: Form, operand: i64) -> bool
    ensures { result ≡ takes form operand }
{
    if form.operand == 1 {
        operand < 256
    } else {
        true
    }
}

// A form's bytes: its opcode, and the operand's low bytes, low first.
fn coded(form: Form, operand: i64) -> Code
    requires { form.operand < 3 }
    ensures { result ≡ code (bytes_of form operand) }
{
    if form.operand == 0 {
        return Code {
            len: 1,
            b0: form.opcode,
            b1: 0,
            b2: 0,
        };
    }
    if form.operand == 1 {
        return Code {
            len: 2,
            b0: form.opcode,
            b1: int64::low_byte(operand),
            b2: 0,
        };
    }
    let word = int64::low_word(operand);
    Code {
        len: 3,
        b0: form.opcode,
        b1: (word % 256) as u8,
        b2: (word / 256) as u8,
    }
}

// The bytes of a row's last form, if it takes the operand.
#[tactic(auto, unfolding(crate::specs::Encode::takes))]
fn tried(form: Form, operand: i64) -> Result<Code, Refusal>
    requires { form.operand < 3 }
    ensures { says result ≡ mapped code (tried (form ∷ []) operand) }
{
    if takes(form, operand) {
        Ok(coded(form, operand))
    } else {
        Err(Refusal::TooSmall)
    }
}

// The bytes of an instruction: of the first of its row's forms that takes the operand.
pub fn encode(mnemonic: u8, mode: u8, suffix: u8, operand: i64) -> Result<Code, Refusal>
    ensures { says result ≡ mapped code (encode_of mnemonic mode suffix operand) }
{
    if !in_range(mnemonic, mode, suffix) {
        return Err(Refusal::Argument);
    }
    match forms_of(mnemonic, mode, suffix) {
        Forms::None => Err(Refusal::NoRow),
        Forms::One(form) => tried(form, operand),
        Forms::Two(short, long) => {
            if takes(short, operand) {
                Ok(coded(short, operand))
            } else {
                tried(long, operand)
            }
        }
    }
}
