// Pens and images.
use crate::answers::number_of;
use crate::show::{print, print_all, print_name};
use pen::Pen;

// How many bytes an image has, and one more.
const SIZE: usize = 65536;

const MOST: usize = 65537;

// What is printed for an image that is larger: no call answers it.
const TOO_LARGE: u8 = 255;

// A pen at 0.
pub fn begun() -> Pen {
    Pen {
        place: 0,
        initial: 0,
        target: 0,
        start: 0,
        end: 0,
        emitted: true,
    }
}

// A pen with these numbers: PLACE INITIAL TARGET START END.
pub fn made(line: &[u8]) -> Pen {
    Pen {
        place: script::number(line, 1),
        initial: script::number(line, 2),
        target: script::number(line, 3),
        start: script::number(line, 4),
        end: script::number(line, 5),
        emitted: true,
    }
}

// A new pen: INITIAL TARGET NAME.
pub fn new(line: &[u8]) {
    let made = Pen::new(script::number(line, 1), script::number(line, 2));
    print(script::words_from(line, 3), number_of(made));
}

// A pen moved: PLACE NAME.
pub fn set_pc(line: &[u8], pen: Pen) {
    let drawn = segment::set_pc(pen, script::number(line, 1));
    print(script::words_from(line, 2), number_of(drawn));
}

// What every call answers on one pen; the emit, of one byte, is the last: NAME.
pub fn calls(line: &[u8], pen: Pen) {
    print_name(script::words_from(line, 1));
    let answers = [
        number_of(segment::reset(pen)),
        number_of(pen.pc()),
        number_of(segment::set_pc(pen, 0)),
        number_of(pen.target_pc()),
        number_of(pen.range()),
        number_of(pen.target_offset()),
        handed(pen, SIZE),
        emitted(pen, SIZE),
    ];
    print_all(
        b"  reset\n  pc\n  set_pc\n  target_pc\n  range\n  target_offset\n  range_data\n  emit",
        &answers,
    );
}

// An emit of one byte: SIZE NAME.
pub fn emit(line: &[u8], pen: Pen) {
    print(
        script::words_from(line, 2),
        emitted(pen, script::number(line, 1)),
    );
}

// The number of an emit of one byte into an image of that size, up to 65,537.
fn emitted(pen: Pen, size: usize) -> u8 {
    let mut image = [0u8; MOST];
    if MOST < size {
        return TOO_LARGE;
    }
    number_of(segment::emit(pen, &mut image[..size], b"1"))
}

// The bytes of a range: SIZE NAME.
pub fn range_data(line: &[u8], pen: Pen) {
    print(
        script::words_from(line, 2),
        handed(pen, script::number(line, 1)),
    );
}

// The number of range_data of an image of that size, up to 65,537.
fn handed(pen: Pen, size: usize) -> u8 {
    let image = [0u8; MOST];
    if MOST < size {
        return TOO_LARGE;
    }
    number_of(pen.range_data_answer(&image[..size]))
}

// Two runs of one byte: INITIAL PLACE SIZE NAME.
pub fn runs(line: &[u8]) {
    let initial = script::number(line, 1);
    let place = script::number(line, 2);
    let number = both(initial, place, script::number(line, 3));
    print(script::words_from(line, 4), number);
}

// The number of two runs of one byte at these places in an image of that size, up to 65,537.
fn both(initial: usize, place: usize, size: usize) -> u8 {
    let mut image = [0u8; MOST];
    if MOST < size {
        return TOO_LARGE;
    }
    number_of(lent_pen::emit_two(initial, &mut image[..size], b"1", place, b"2"))
}
