// The packed table of this crate, one line for each opcode byte. Only `row_of` reads it.

// How an opcode that has no row stands in `ROWS`.
pub const NO_OPCODE: u16 = 0xffff;

// By opcode, its row: mnemonic, mode, suffix and operand bytes in 8, 4, 2 and 2 bits; ffff for a byte that is no opcode.
pub const ROWS: [u16; 256] = [
    0x0a00, // 00 BRK
    0x2235, // 01 ORA (ind,X)
    0xffff, // 02
    0xffff, // 03
    0xffff, // 04
    0x2221, // 05 ORA zp
    0x0221, // 06 ASL zp
    0xffff, // 07
    0x2400, // 08 PHP
    0x2211, // 09 ORA #
    0x0200, // 0a ASL A
    0xffff, // 0b
    0xffff, // 0c
    0x2222, // 0d ORA abs
    0x0222, // 0e ASL abs
    0xffff, // 0f
    0x0921, // 10 BPL rel
    0x2249, // 11 ORA (ind),Y
    0xffff, // 12
    0xffff, // 13
    0xffff, // 14
    0x2225, // 15 ORA zp,X
    0x0225, // 16 ASL zp,X
    0xffff, // 17
    0x0d00, // 18 CLC
    0x222a, // 19 ORA abs,Y
    0xffff, // 1a
    0xffff, // 1b
    0xffff, // 1c
    0x2226, // 1d ORA abs,X
    0x0226, // 1e ASL abs,X
    0xffff, // 1f
    0x1c22, // 20 JSR abs
    0x0135, // 21 AND (ind,X)
    0xffff, // 22
    0xffff, // 23
    0x0621, // 24 BIT zp
    0x0121, // 25 AND zp
    0x2721, // 26 ROL zp
    0xffff, // 27
    0x2600, // 28 PLP
    0x0111, // 29 AND #
    0x2700, // 2a ROL A
    0xffff, // 2b
    0x0622, // 2c BIT abs
    0x0122, // 2d AND abs
    0x2722, // 2e ROL abs
    0xffff, // 2f
    0x0721, // 30 BMI rel
    0x0149, // 31 AND (ind),Y
    0xffff, // 32
    0xffff, // 33
    0xffff, // 34
    0x0125, // 35 AND zp,X
    0x2725, // 36 ROL zp,X
    0xffff, // 37
    0x2c00, // 38 SEC
    0x012a, // 39 AND abs,Y
    0xffff, // 3a
    0xffff, // 3b
    0xffff, // 3c
    0x0126, // 3d AND abs,X
    0x2726, // 3e ROL abs,X
    0xffff, // 3f
    0x2900, // 40 RTI
    0x1735, // 41 EOR (ind,X)
    0xffff, // 42
    0xffff, // 43
    0xffff, // 44
    0x1721, // 45 EOR zp
    0x2021, // 46 LSR zp
    0xffff, // 47
    0x2300, // 48 PHA
    0x1711, // 49 EOR #
    0x2000, // 4a LSR A
    0xffff, // 4b
    0x1b22, // 4c JMP abs
    0x1722, // 4d EOR abs
    0x2022, // 4e LSR abs
    0xffff, // 4f
    0x0b21, // 50 BVC rel
    0x1749, // 51 EOR (ind),Y
    0xffff, // 52
    0xffff, // 53
    0xffff, // 54
    0x1725, // 55 EOR zp,X
    0x2025, // 56 LSR zp,X
    0xffff, // 57
    0x0f00, // 58 CLI
    0x172a, // 59 EOR abs,Y
    0xffff, // 5a
    0xffff, // 5b
    0xffff, // 5c
    0x1726, // 5d EOR abs,X
    0x2026, // 5e LSR abs,X
    0xffff, // 5f
    0x2a00, // 60 RTS
    0x0035, // 61 ADC (ind,X)
    0xffff, // 62
    0xffff, // 63
    0xffff, // 64
    0x0021, // 65 ADC zp
    0x2821, // 66 ROR zp
    0xffff, // 67
    0x2500, // 68 PLA
    0x0011, // 69 ADC #
    0x2800, // 6a ROR A
    0xffff, // 6b
    0x1b42, // 6c JMP (ind)
    0x0022, // 6d ADC abs
    0x2822, // 6e ROR abs
    0xffff, // 6f
    0x0c21, // 70 BVS rel
    0x0049, // 71 ADC (ind),Y
    0xffff, // 72
    0xffff, // 73
    0xffff, // 74
    0x0025, // 75 ADC zp,X
    0x2825, // 76 ROR zp,X
    0xffff, // 77
    0x2e00, // 78 SEI
    0x002a, // 79 ADC abs,Y
    0xffff, // 7a
    0xffff, // 7b
    0xffff, // 7c
    0x0026, // 7d ADC abs,X
    0x2826, // 7e ROR abs,X
    0xffff, // 7f
    0xffff, // 80
    0x2f35, // 81 STA (ind,X)
    0xffff, // 82
    0xffff, // 83
    0x3121, // 84 STY zp
    0x2f21, // 85 STA zp
    0x3021, // 86 STX zp
    0xffff, // 87
    0x1600, // 88 DEY
    0xffff, // 89
    0x3500, // 8a TXA
    0xffff, // 8b
    0x3122, // 8c STY abs
    0x2f22, // 8d STA abs
    0x3022, // 8e STX abs
    0xffff, // 8f
    0x0321, // 90 BCC rel
    0x2f49, // 91 STA (ind),Y
    0xffff, // 92
    0xffff, // 93
    0x3125, // 94 STY zp,X
    0x2f25, // 95 STA zp,X
    0x3029, // 96 STX zp,Y
    0xffff, // 97
    0x3700, // 98 TYA
    0x2f2a, // 99 STA abs,Y
    0x3600, // 9a TXS
    0xffff, // 9b
    0xffff, // 9c
    0x2f26, // 9d STA abs,X
    0xffff, // 9e
    0xffff, // 9f
    0x1f11, // a0 LDY #
    0x1d35, // a1 LDA (ind,X)
    0x1e11, // a2 LDX #
    0xffff, // a3
    0x1f21, // a4 LDY zp
    0x1d21, // a5 LDA zp
    0x1e21, // a6 LDX zp
    0xffff, // a7
    0x3300, // a8 TAY
    0x1d11, // a9 LDA #
    0x3200, // aa TAX
    0xffff, // ab
    0x1f22, // ac LDY abs
    0x1d22, // ad LDA abs
    0x1e22, // ae LDX abs
    0xffff, // af
    0x0421, // b0 BCS rel
    0x1d49, // b1 LDA (ind),Y
    0xffff, // b2
    0xffff, // b3
    0x1f25, // b4 LDY zp,X
    0x1d25, // b5 LDA zp,X
    0x1e29, // b6 LDX zp,Y
    0xffff, // b7
    0x1000, // b8 CLV
    0x1d2a, // b9 LDA abs,Y
    0x3400, // ba TSX
    0xffff, // bb
    0x1f26, // bc LDY abs,X
    0x1d26, // bd LDA abs,X
    0x1e2a, // be LDX abs,Y
    0xffff, // bf
    0x1311, // c0 CPY #
    0x1135, // c1 CMP (ind,X)
    0xffff, // c2
    0xffff, // c3
    0x1321, // c4 CPY zp
    0x1121, // c5 CMP zp
    0x1421, // c6 DEC zp
    0xffff, // c7
    0x1a00, // c8 INY
    0x1111, // c9 CMP #
    0x1500, // ca DEX
    0xffff, // cb
    0x1322, // cc CPY abs
    0x1122, // cd CMP abs
    0x1422, // ce DEC abs
    0xffff, // cf
    0x0821, // d0 BNE rel
    0x1149, // d1 CMP (ind),Y
    0xffff, // d2
    0xffff, // d3
    0xffff, // d4
    0x1125, // d5 CMP zp,X
    0x1425, // d6 DEC zp,X
    0xffff, // d7
    0x0e00, // d8 CLD
    0x112a, // d9 CMP abs,Y
    0xffff, // da
    0xffff, // db
    0xffff, // dc
    0x1126, // dd CMP abs,X
    0x1426, // de DEC abs,X
    0xffff, // df
    0x1211, // e0 CPX #
    0x2b35, // e1 SBC (ind,X)
    0xffff, // e2
    0xffff, // e3
    0x1221, // e4 CPX zp
    0x2b21, // e5 SBC zp
    0x1821, // e6 INC zp
    0xffff, // e7
    0x1900, // e8 INX
    0x2b11, // e9 SBC #
    0x2100, // ea NOP
    0xffff, // eb
    0x1222, // ec CPX abs
    0x2b22, // ed SBC abs
    0x1822, // ee INC abs
    0xffff, // ef
    0x0521, // f0 BEQ rel
    0x2b49, // f1 SBC (ind),Y
    0xffff, // f2
    0xffff, // f3
    0xffff, // f4
    0x2b25, // f5 SBC zp,X
    0x1825, // f6 INC zp,X
    0xffff, // f7
    0x2d00, // f8 SED
    0x2b2a, // f9 SBC abs,Y
    0xffff, // fa
    0xffff, // fb
    0xffff, // fc
    0x2b26, // fd SBC abs,X
    0x1826, // fe INC abs,X
    0xffff, // ff
];
