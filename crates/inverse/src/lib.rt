// The way back from bytes: the row of an opcode, and an instruction from its bytes. `row_of` alone knows the inverse table: `decode`
// goes through it.
#![tactic(auto)]

mod tables;

ghost use Rattle.std.specs.Prelude.{◌≡◌, ◌∷◌, [], ◌<◌};
ghost use Rattle.refusals.specs.Says.{says};
ghost use Rattle.inverse.specs.Inverse.{rows_of};
ghost use Rattle.inverse.specs.Decode.{decode_row, decode_of};
ghost use Rattle.inverse.specs.Says.{listed};

use refusals::Refusal;
use tables::{NO_OPCODE, ROWS};

// A row, and how many operand bytes stand behind its opcode.
#[derive(Clone, Copy, Debug, PartialEq, Eq)]
pub struct Row {
    pub mnemonic: u8,
    pub mode: u8,
    pub suffix: u8,
    pub operand: u8,
}

// An instruction: its row and its operand.
#[derive(Clone, Copy, Debug, PartialEq, Eq)]
pub struct Instruction {
    pub row: Row,
    pub operand: u16,
}

// The row of an opcode, with how many operand bytes stand behind it; nothing for a byte that is no opcode.
pub fn row_of(opcode: u8) -> Option<Row>
    ensures { listed result ≡ rows_of opcode }
{
    let row = ROWS[opcode as usize];
    if row == NO_OPCODE {
        return None;
    }
    Some(Row {
        mnemonic: (row / 256 % 256) as u8,
        mode: (row / 16 % 16) as u8,
        suffix: (row / 4 % 4) as u8,
        operand: (row % 4) as u8,
    })
}

// The instruction of a row and the bytes behind its opcode.
fn decode_row(row: Row, rest: &[u8]) -> Result<Instruction, Refusal>
    requires { row.operand < 3 }
    ensures { says result ≡ decode_row (row ∷ []) rest.now }
{
    let operand = match (row.operand, rest) {
        (0, _) => 0,
        (1, [low, ..]) => u16::from(*low),
        (2, [low, high, ..]) => u16::from(*low) + 256 * u16::from(*high),
        _ => return Err(Refusal::CutShort),
    };
    Ok(Instruction { row, operand })
}

// The instruction at the start of these bytes; what stands behind it is ignored.
pub fn decode(bytes: &[u8]) -> Result<Instruction, Refusal>
    ensures { says result ≡ decode_of bytes.now }
{
    match bytes {
        [] => Err(Refusal::CutShort),
        [opcode, rest @ ..] => {
            let row = row_of(*opcode).ok_or(Refusal::NoRow)?;
            decode_row(row, rest)
        }
    }
}
