// A lesson on passes: how long an instruction is depends on where a label stands, and where a label stands depends on how long the
// instructions before it are. So a tape is walked again and again, each time with the numbers of the walk before, until a walk gives
// back the numbers that it read. What is printed is to be read aloud.
//
// The tape, as an assembler would write it:
//
//     tap:    LDA ticket          two bytes if ticket is below 256, three if not
//     gate:   BNE tap             always two bytes
//             * = * + room        set place: leaves room bytes free
//     ticket: .byte 5
//     fare:
//             room = 251          or 252
#![tactic(auto)]

use descriptors::STDOUT_FILENO;
use symbols::{NODES, Numbers};
use tape::{
    BINARY, BYTE, CONSTANT, CURRENT_PLACE, END, INSTRUCTION, LABEL, NAME_1, NUMBER, SET_PLACE,
};

// The names, each with a number of its own. Names are numbered here as they come on the tape, so that the node of each has the same
// number.
const TAP: u8 = 1;

const GATE: u8 = 2;

const TICKET: u8 = 3;

const FARE: u8 = 4;

const ROOM: u8 = 5;

// The instructions; their mode, AbsoluteOrZp, which is written as the operand alone; and no suffix.
const LDA: u8 = 29;

const BNE: u8 = 8;

const PLAIN: u8 = 2;

const NONE: u8 = 0;

// The opcode of LDA with two bytes of operand.
const LDA_LONG: u8 = 0xad;

// The operator of a sum, and the modifier of a name that is meant whole.
const ADD: u8 = 0;

const WHOLE: u8 = 0;

// Where the tape is built: from place 0 on.
const INITIAL: usize = 0;

// There is space for a tape of so many bytes.
const SPACE: usize = 100;

// The lesson in two parts: the same tape with one byte more room.
fn main() {
    shorter();
    longer();
    say(
        b"One byte more of room, and ticket stands two bytes further: the second is the one that LDA has grown.\n",
    );
}

// With 251 bytes of room ticket stands at 255, the last place that fits into one byte.
fn shorter() {
    let mut space = [0u8; SPACE];
    let code = write_code(&mut space);
    let end = write_numbers(&mut space, code, 251);
    let tape = page::cut(&space, end);
    let mut nodes = [0u16; builder::WORK];
    let _ = names::declare(tape, &mut nodes);
    say(b"A tape with 251 bytes of room.\n");
    tell_shorter(tape, &nodes);
    result(tape);
}

// Its three passes.
fn tell_shorter<'a>(tape: &'a [u8], nodes: &'a [u16]) {
    say(b"Pass 1");
    let one = walk(tape, nodes, nothing());
    because(b"no number was known: LDA ticket took three bytes, and no room was left");
    say(b"Pass 2");
    let two = walk(tape, nodes, one);
    because(b"pass 1 had ticket at 5, so LDA took two bytes; then came 251 bytes of room");
    say(b"Pass 3");
    walk(tape, nodes, two);
    because(b"255 fits into one byte, so LDA took two bytes again, and nothing moved");
}

// With 252 it would stand at 256, which needs two bytes; and these push it to 257.
fn longer() {
    let mut space = [0u8; SPACE];
    let code = write_code(&mut space);
    let end = write_numbers(&mut space, code, 252);
    let tape = page::cut(&space, end);
    let mut nodes = [0u16; builder::WORK];
    let _ = names::declare(tape, &mut nodes);
    say(b"The same tape with 252 bytes of room.\n");
    tell_longer(tape, &nodes);
    result(tape);
}

// Its four passes.
fn tell_longer<'a>(tape: &'a [u8], nodes: &'a [u16]) {
    say(b"Pass 1");
    let one = walk(tape, nodes, nothing());
    because(b"no number was known");
    say(b"Pass 2");
    let two = walk(tape, nodes, one);
    because(b"pass 1 had ticket at 5, so LDA took two bytes; then came 252 bytes of room");
    say(b"Pass 3");
    let three = walk(tape, nodes, two);
    because(b"256 does not fit into one byte, so LDA took three, and every label behind it moved");
    say(b"Pass 4");
    walk(tape, nodes, three);
    because(b"257 does not fit either, so LDA took three bytes again, and nothing moved");
}

// Writes the tape up to the room; the offset behind it.
fn write_code(tape: &mut [u8]) -> usize {
    let load = [INSTRUCTION, LDA, PLAIN, NONE, NAME_1, WHOLE, TICKET, 0];
    let branch = [INSTRUCTION, BNE, PLAIN, NONE, NAME_1, WHOLE, TAP, 0];
    let tap = page::put_all(tape, 0, &[LABEL, TAP, 0]);
    let lda = page::put_all(tape, tap, &load);
    let gate = page::put_all(tape, lda, &[LABEL, GATE, 0]);
    let bne = page::put_all(tape, gate, &branch);
    let set = page::put_all(tape, bne, &[SET_PLACE, BINARY, ADD, CURRENT_PLACE]);
    page::put_all(tape, set, &[NAME_1, WHOLE, ROOM, 0])
}

// Writes the rest of it: how long the tape is.
fn write_numbers(tape: &mut [u8], code: usize, room: u8) -> usize {
    let ticket = page::put_all(tape, code, &[LABEL, TICKET, 0]);
    let byte = page::put_all(tape, ticket, &[BYTE, NUMBER, 5, 0, 0, 0, 0, 0, 0, 0]);
    let fare = page::put_all(tape, byte, &[LABEL, FARE, 0]);
    let constant = page::put_all(tape, fare, &[CONSTANT, ROOM, 0]);
    let number = page::put_all(tape, constant, &[NUMBER, room, 0, 0, 0, 0, 0, 0, 0]);
    page::put_all(tape, number, &[END])
}

// Before pass 1 no name has a number.
fn nothing() -> Numbers {
    [None; NODES]
}

// One pass: it reads these numbers, and says those that it gives.
fn walk<'a>(tape: &'a [u8], nodes: &'a [u16], numbers: Numbers) -> Numbers {
    let after = match passes::pass_once(tape, nodes, numbers, INITIAL) {
        Ok(settled) => settled.numbers,
        Err(_) => nothing(),
    };
    say_number(b": tap ", after[TAP as usize]);
    say_number(b", gate ", after[GATE as usize]);
    say_number(b", ticket ", after[TICKET as usize]);
    say_number(b", fare ", after[FARE as usize]);
    after
}

// Says the number of a name.
fn say_number(name: &[u8], number: Option<i64>) {
    say(name);
    match number {
        Some(place) => say_place(place),
        None => say(b"unknown"),
    }
}

// Says a place, which is never below 0.
fn say_place(place: i64) {
    io::print_decimal(STDOUT_FILENO, int64::size(place));
}

// Says why.
fn because(words: &[u8]) {
    say(b", because ");
    say(words);
    say(b".\n");
}

// Builds the tape, and says what comes of it.
fn result(tape: &[u8]) {
    let mut image = [0u8; builder::SIZE];
    let mut list = [0i64; NODES];
    let mut work = [0u16; builder::WORK];
    match builder::build(tape, INITIAL, &mut image, &mut list, &mut work) {
        Err(_) => say(b"The build is refused"),
        Ok(built) => say_finished(built.end, built.passes, &image),
    }
    say(b".\n\n");
}

// Says how many passes there were, where the end is, and the bytes of the instructions, which are the first four or five.
fn say_finished(end: usize, passes: usize, image: &[u8]) {
    say(b"The build takes ");
    io::print_decimal(STDOUT_FILENO, passes as u64);
    say(b" passes and ends at ");
    io::print_decimal(STDOUT_FILENO, end as u64);
    say(b". LDA is");
    say_byte(image, 0);
    say_byte(image, 1);
    if little::u8_at(image, 0) == LDA_LONG {
        say_byte(image, 2);
    }
}

// Says the byte at a place.
fn say_byte(image: &[u8], place: usize) {
    say(b" ");
    say(&hexadecimal::capital(little::u8_at(image, place)));
}

// Says some words.
fn say(words: &[u8]) {
    io::write_all(STDOUT_FILENO, words);
}
