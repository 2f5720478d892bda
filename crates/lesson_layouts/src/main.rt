// A lesson on layouts: a tape may have more than one that fits. A build has to find one, pass by pass; a check is handed one, by
// anyone, and asks only whether number and bytes fit the tape and each other. What is printed is to be read aloud.
//
// The first tape, as an assembler would write it:
//
//             * = 253
//             LDA gate            two bytes if gate is below 256, three if not
//     gate:
//
// And the second:
//
//             fare = fare
//             .byte fare
#![tactic(auto)]

use descriptors::STDOUT_FILENO;
use refusals::Fault;
use symbols::NODES;
use tape::{BYTE, CONSTANT, END, INSTRUCTION, LABEL, NAME_1, NUMBER, SET_PLACE};

// The names: each tape has one.
const GATE: u8 = 1;

const FARE: u8 = 1;

// The instruction; its mode, AbsoluteOrZp, which is written as the operand alone; no suffix; and a name that is meant whole.
const LDA: u8 = 29;

const PLAIN: u8 = 2;

const NONE: u8 = 0;

const WHOLE: u8 = 0;

// Where LDA stands: two bytes end at 255, and three at 256.
const PLACE: u8 = 253;

// Where the tapes are built from.
const INITIAL: usize = 0;

// There is space for a tape of so many bytes.
const SPACE: usize = 100;

// The lesson in three parts.
fn main() {
    two_layouts();
    mixtures();
    no_layout_found();
    say(
        b"A build has to find its numbers. A check is handed them, and asks only whether they fit.\n",
    );
}

// The build's layout, and one that is a byte shorter.
fn two_layouts() {
    say(b"A tape: set place to 253, then LDA gate, then the label gate.\n");
    say(b"LDA takes two bytes if gate is below 256, and three if not.\n");
    build_gate();
    check_gate(256, &[0xad, 0x00, 0x01]);
    because(b"three bytes from 253 on end at 256");
    check_gate(255, &[0xa5, 0xff]);
    because(b"two bytes from 253 on end at 255");
    say(b"Both fit: each number makes LDA so long that gate stands where the number says.\n\n");
}

// Layouts of which one half does not fit the other.
fn mixtures() {
    say(b"Now the number of one layout with the bytes of the other, and numbers of neither.\n");
    check_gate(256, &[0xa5, 0xff]);
    because(b"with gate at 256 the tape writes three bytes");
    check_gate(255, &[0xad, 0x00, 0x01]);
    because(b"with gate at 255 the tape writes two bytes");
    check_gate(254, &[0xa5, 0xfe]);
    because(b"the two bytes of LDA put gate at 255");
    check_gate(257, &[0xad, 0x01, 0x01]);
    because(b"the three bytes of LDA put gate at 256");
    say(
        b"Refusal 18 is that the bytes differ, 17 that a number does; the record of the label begins 18 bytes into the tape.\n\n",
    );
}

// A number that no pass finds.
fn no_layout_found() {
    say(b"A tape that says of fare only that it is fare, and then writes it as a byte.\n");
    build_fare();
    because(b"a pass knows of fare only what the pass before knew, and that was nothing");
    check_fare(5, 5);
    because(b"5 is 5");
    check_fare(200, 200);
    because(b"200 is 200");
    check_fare(5, 200);
    because(b"the byte is another than the fare");
}

// Writes the first tape; how long it is.
fn write_gate(tape: &mut [u8]) -> usize {
    let place = [SET_PLACE, NUMBER, PLACE, 0, 0, 0, 0, 0, 0, 0];
    let load = [INSTRUCTION, LDA, PLAIN, NONE, NAME_1, WHOLE, GATE, 0];
    let set = page::put_all(tape, 0, &place);
    let lda = page::put_all(tape, set, &load);
    let gate = page::put_all(tape, lda, &[LABEL, GATE, 0]);
    page::put_all(tape, gate, &[END])
}

// Writes the second tape; how long it is.
fn write_fare(tape: &mut [u8]) -> usize {
    let constant = [CONSTANT, FARE, 0, NAME_1, WHOLE, FARE, 0];
    let fare = page::put_all(tape, 0, &constant);
    let byte = page::put_all(tape, fare, &[BYTE, NAME_1, WHOLE, FARE, 0]);
    page::put_all(tape, byte, &[END])
}

// The bytes from start to end, or none.
fn covered(image: &[u8], start: usize, end: usize) -> &[u8] {
    if image.len() < end {
        return &image[0..0];
    }
    if end < start {
        return &image[0..0];
    }
    &image[start..end]
}

// Builds the first tape, and says what comes of it.
fn build_gate() {
    let mut space = [0u8; SPACE];
    let end = write_gate(&mut space);
    build(page::cut(&space, end), b"gate ");
    say(b".\n");
}

// Builds the second.
fn build_fare() {
    let mut space = [0u8; SPACE];
    let end = write_fare(&mut space);
    build(page::cut(&space, end), b"fare ");
}

// Builds a tape that has one name, and says what comes of it.
fn build(tape: &[u8], name: &[u8]) {
    let mut image = [0u8; builder::SIZE];
    let mut list = [0i64; NODES];
    let mut work = [0u16; builder::WORK];
    say(b"The build");
    match builder::build(tape, INITIAL, &mut image, &mut list, &mut work) {
        Err(fault) => {
            say(b" is ");
            say_refused(fault);
        }
        Ok(built) => {
            say(b" gives ");
            say_layout(name, list[0], covered(&image, built.start, built.end));
        }
    }
}

// Hands in a number and bytes with the first tape, and says what the checker answers.
fn check_gate(number: i64, bytes: &[u8]) {
    let mut space = [0u8; SPACE];
    let end = write_gate(&mut space);
    let tape = page::cut(&space, end);
    say(b"Checked with ");
    say_layout(b"gate ", number, bytes);
    say_checked(checker::check(tape, INITIAL, &[number], PLACE as usize, bytes));
}

// Hands in a number and a byte with the second.
fn check_fare(number: i64, byte: u8) {
    let mut space = [0u8; SPACE];
    let end = write_fare(&mut space);
    let tape = page::cut(&space, end);
    say(b"Checked with ");
    say_layout(b"fare ", number, &[byte]);
    say_checked(checker::check(tape, INITIAL, &[number], INITIAL, &[byte]));
}

// Says a number, which is never below 0, and bytes.
fn say_layout(name: &[u8], number: i64, bytes: &[u8]) {
    say(name);
    say_decimal(int64::size(number));
    say(b" and");
    say_bytes(bytes);
}

// Says what the checker answers.
fn say_checked(answer: Result<(), Fault>) {
    say(b": ");
    match answer {
        Ok(()) => say(b"accepted"),
        Err(fault) => say_refused(fault),
    }
}

// Says a refusal.
fn say_refused(fault: Fault) {
    say(b"refused with ");
    say_decimal(fault.why.number() as u64);
    say(b" at ");
    say_decimal(fault.at as u64);
}

// Says a number.
fn say_decimal(n: u64) {
    io::print_decimal(STDOUT_FILENO, n);
}

// Says bytes.
fn say_bytes(bytes: &[u8]) {
    for byte in bytes {
        say_byte(*byte);
    }
}

// Says a byte.
fn say_byte(byte: u8) {
    say(b" ");
    say(&hexadecimal::capital(byte));
}

// Says why.
fn because(words: &[u8]) {
    say(b", because ");
    say(words);
    say(b".\n");
}

// Says some words.
fn say(words: &[u8]) {
    io::write_all(STDOUT_FILENO, words);
}
