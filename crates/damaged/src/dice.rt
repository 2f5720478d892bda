// The bytes with which others are changed, by a small generator.
use tape::{
    BINARY, BYTE, CLOSE_SCOPE, CONSTANT, CURRENT_PLACE, END, INSTRUCTION, LABEL, NAME_1, NUMBER,
    OPEN_SCOPE, SCREEN_BYTE, SET_PLACE, WORD,
};

// The number behind a number.
pub fn next(seed: u64) -> u64 {
    (seed % 0x8000_0000 * 1103515245 + 12345) % 0x8000_0000
}

// A byte of a number.
pub fn dice(seed: u64) -> u8 {
    (seed / 0x1_0000 % 0x100) as u8
}

// The kinds of records, and two that are none.
const KINDS: [u8; 16] = [
    NUMBER,
    CURRENT_PLACE,
    NAME_1,
    BINARY,
    INSTRUCTION,
    OPEN_SCOPE,
    CLOSE_SCOPE,
    LABEL,
    CONSTANT,
    SET_PLACE,
    BYTE,
    WORD,
    SCREEN_BYTE,
    END,
    0,
    255,
];

// One of the kinds.
pub fn kind(seed: u64) -> u8 {
    let i = (seed / 0x1_0000 % 16) as usize;
    KINDS[i]
}
