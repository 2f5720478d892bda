// The letters of mnemonics, by their numbers, as a listing writes them.
#![tactic(auto)]

ghost use Rattle.std.specs.Prelude.{◌≡◌};
ghost use Rattle.mnemonics.specs.Ascii.{ascii};
ghost use Rattle.mnemonics.specs.Mnemonics.{name_of};

// The number of data: the first that no mnemonic has.
pub const DATA: u8 = 56;

// What stands for data.
const DASHES: [u8; 3] = *b"---";

// The mnemonics, in the order of their numbers.
const MNEMONICS: [[u8; 3]; 56] = [
    *b"ADC", *b"AND", *b"ASL", *b"BCC", *b"BCS", *b"BEQ", *b"BIT", *b"BMI", *b"BNE", *b"BPL",
    *b"BRK", *b"BVC", *b"BVS", *b"CLC", *b"CLD", *b"CLI", *b"CLV", *b"CMP", *b"CPX", *b"CPY",
    *b"DEC", *b"DEX", *b"DEY", *b"EOR", *b"INC", *b"INX", *b"INY", *b"JMP", *b"JSR", *b"LDA",
    *b"LDX", *b"LDY", *b"LSR", *b"NOP", *b"ORA", *b"PHA", *b"PHP", *b"PLA", *b"PLP", *b"ROL",
    *b"ROR", *b"RTI", *b"RTS", *b"SBC", *b"SEC", *b"SED", *b"SEI", *b"STA", *b"STX", *b"STY",
    *b"TAX", *b"TAY", *b"TSX", *b"TXA", *b"TXS", *b"TYA",
];

// The letters of a mnemonic, or dashes.
pub fn letters_of(mnemonic: u8) -> [u8; 3]
    ensures { result ≡ ascii (name_of mnemonic) }
{
    if mnemonic < DATA {
        MNEMONICS[mnemonic as usize]
    } else {
        DASHES
    }
}
