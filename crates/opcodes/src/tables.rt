// The packed words of this crate, one line for each mnemonic. Only `forms_of` reads them. They stand in a `match`, which is compiled to a
// table: a constant array is made anew at every use.
ghost use Rattle.std.specs.Prelude.{◌≡◌};
ghost use Rattle.opcodes.specs.Packed.{shapes_of, opcodes_of};

// A mnemonic's shapes, then its opcodes.
// Shapes: a group of three digits for each mode, in it a digit for each suffix. 0 no row; 1, 2, 3 one form, of no, one, two operand
// bytes; 4 a form of one and a form of two operand bytes, whose opcode is 8 more.
// Opcodes, in eight bytes: Implied, Immediate, AbsoluteOrZp, AbsoluteOrZp X, AbsoluteOrZp Y, Indirect X, OuterIndirect, OuterIndirect Y.
// Where a row has two forms, the shorter form's.
#[derive(Clone, Copy, Debug, PartialEq, Eq)]
pub struct Words(pub u64, pub u64);

// Which byte of the opcodes a mode and suffix have, counted from the right, in digits as shapes are; 0 for those that no row has.
pub const BYTES: u64 = 0x700_600_543_020_100;

// The words of a mnemonic.
#[tactic(auto, unfolding(crate::specs::Packed::shapes_of, crate::specs::Packed::opcodes_of))]
pub fn words_of(mnemonic: u8) -> Words
    ensures { (result.0 ≡ shapes_of mnemonic) × (result.1 ≡ opcodes_of mnemonic) }
{
    match mnemonic {
        0 => Words(0x000_200_443_020_002, 0x00_69_65_75_79_61_00_71), // ADC
        1 => Words(0x000_200_443_020_002, 0x00_29_25_35_39_21_00_31), // AND
        2 => Words(0x100_000_440_000_000, 0x0a_00_06_16_00_00_00_00), // ASL
        3 => Words(0x000_000_200_000_000, 0x00_00_90_00_00_00_00_00), // BCC
        4 => Words(0x000_000_200_000_000, 0x00_00_b0_00_00_00_00_00), // BCS
        5 => Words(0x000_000_200_000_000, 0x00_00_f0_00_00_00_00_00), // BEQ
        6 => Words(0x000_000_400_000_000, 0x00_00_24_00_00_00_00_00), // BIT
        7 => Words(0x000_000_200_000_000, 0x00_00_30_00_00_00_00_00), // BMI
        8 => Words(0x000_000_200_000_000, 0x00_00_d0_00_00_00_00_00), // BNE
        9 => Words(0x000_000_200_000_000, 0x00_00_10_00_00_00_00_00), // BPL
        10 => Words(0x100_000_000_000_000, 0x00_00_00_00_00_00_00_00), // BRK
        11 => Words(0x000_000_200_000_000, 0x00_00_50_00_00_00_00_00), // BVC
        12 => Words(0x000_000_200_000_000, 0x00_00_70_00_00_00_00_00), // BVS
        13 => Words(0x100_000_000_000_000, 0x18_00_00_00_00_00_00_00), // CLC
        14 => Words(0x100_000_000_000_000, 0xd8_00_00_00_00_00_00_00), // CLD
        15 => Words(0x100_000_000_000_000, 0x58_00_00_00_00_00_00_00), // CLI
        16 => Words(0x100_000_000_000_000, 0xb8_00_00_00_00_00_00_00), // CLV
        17 => Words(0x000_200_443_020_002, 0x00_c9_c5_d5_d9_c1_00_d1), // CMP
        18 => Words(0x000_200_400_000_000, 0x00_e0_e4_00_00_00_00_00), // CPX
        19 => Words(0x000_200_400_000_000, 0x00_c0_c4_00_00_00_00_00), // CPY
        20 => Words(0x000_000_440_000_000, 0x00_00_c6_d6_00_00_00_00), // DEC
        21 => Words(0x100_000_000_000_000, 0xca_00_00_00_00_00_00_00), // DEX
        22 => Words(0x100_000_000_000_000, 0x88_00_00_00_00_00_00_00), // DEY
        23 => Words(0x000_200_443_020_002, 0x00_49_45_55_59_41_00_51), // EOR
        24 => Words(0x000_000_440_000_000, 0x00_00_e6_f6_00_00_00_00), // INC
        25 => Words(0x100_000_000_000_000, 0xe8_00_00_00_00_00_00_00), // INX
        26 => Words(0x100_000_000_000_000, 0xc8_00_00_00_00_00_00_00), // INY
        27 => Words(0x000_000_300_000_300, 0x00_00_4c_00_00_00_6c_00), // JMP
        28 => Words(0x000_000_300_000_000, 0x00_00_20_00_00_00_00_00), // JSR
        29 => Words(0x000_200_443_020_002, 0x00_a9_a5_b5_b9_a1_00_b1), // LDA
        30 => Words(0x000_200_404_000_000, 0x00_a2_a6_00_b6_00_00_00), // LDX
        31 => Words(0x000_200_440_000_000, 0x00_a0_a4_b4_00_00_00_00), // LDY
        32 => Words(0x100_000_440_000_000, 0x4a_00_46_56_00_00_00_00), // LSR
        33 => Words(0x100_000_000_000_000, 0xea_00_00_00_00_00_00_00), // NOP
        34 => Words(0x000_200_443_020_002, 0x00_09_05_15_19_01_00_11), // ORA
        35 => Words(0x100_000_000_000_000, 0x48_00_00_00_00_00_00_00), // PHA
        36 => Words(0x100_000_000_000_000, 0x08_00_00_00_00_00_00_00), // PHP
        37 => Words(0x100_000_000_000_000, 0x68_00_00_00_00_00_00_00), // PLA
        38 => Words(0x100_000_000_000_000, 0x28_00_00_00_00_00_00_00), // PLP
        39 => Words(0x100_000_440_000_000, 0x2a_00_26_36_00_00_00_00), // ROL
        40 => Words(0x100_000_440_000_000, 0x6a_00_66_76_00_00_00_00), // ROR
        41 => Words(0x100_000_000_000_000, 0x40_00_00_00_00_00_00_00), // RTI
        42 => Words(0x100_000_000_000_000, 0x60_00_00_00_00_00_00_00), // RTS
        43 => Words(0x000_200_443_020_002, 0x00_e9_e5_f5_f9_e1_00_f1), // SBC
        44 => Words(0x100_000_000_000_000, 0x38_00_00_00_00_00_00_00), // SEC
        45 => Words(0x100_000_000_000_000, 0xf8_00_00_00_00_00_00_00), // SED
        46 => Words(0x100_000_000_000_000, 0x78_00_00_00_00_00_00_00), // SEI
        47 => Words(0x000_000_443_020_002, 0x00_00_85_95_99_81_00_91), // STA
        48 => Words(0x000_000_402_000_000, 0x00_00_86_00_96_00_00_00), // STX
        49 => Words(0x000_000_420_000_000, 0x00_00_84_94_00_00_00_00), // STY
        50 => Words(0x100_000_000_000_000, 0xaa_00_00_00_00_00_00_00), // TAX
        51 => Words(0x100_000_000_000_000, 0xa8_00_00_00_00_00_00_00), // TAY
        52 => Words(0x100_000_000_000_000, 0xba_00_00_00_00_00_00_00), // TSX
        53 => Words(0x100_000_000_000_000, 0x8a_00_00_00_00_00_00_00), // TXA
        54 => Words(0x100_000_000_000_000, 0x9a_00_00_00_00_00_00_00), // TXS
        55 => Words(0x100_000_000_000_000, 0x98_00_00_00_00_00_00_00), // TYA
        _ => Words(0, 0),
    }
}
