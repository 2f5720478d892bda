// What a build leaves in the memory that it is lent, and which lengths it takes.
use crate::show;
use std::io;
use symbols::NODES;

// One more than image, list and work memory have.
const IMAGE: usize = 65537;

const LIST: usize = 1025;

const WORK: usize = 65537;

// Prints whether memory is as before, which was 7 everywhere, zero or neither.
fn print_state<T: Copy + Into<i64>>(rt: &impl Print, name: &str, items: &[T]) -> io::Result<()> {
    if items.iter().all(|item| (*item).into() == 7) {
        return print!(rt; "{name} as before");
    }
    if items.iter().all(|item| (*item).into() == 0) {
        return print!(rt; "{name} zero");
    }
    print!(rt; "{name} changed")
}

// Builds the tape in this memory, and prints the answer.
fn build_in(
    rt: &impl Print,
    tape: &[u8],
    initial: usize,
    image: &mut [u8],
    list: &mut [i64],
    work: &mut [u16],
) -> io::Result<()> {
    let answer = builder::build(tape, initial, image, list, work);
    show::print_built(rt, answer, image, list)
}

// Builds the tape: PLACE NAME.
pub fn build(rt: &impl Print, line: &[u8], tape: &[u8]) -> io::Result<()> {
    cases::print_name(rt, script::words_from(line, 2))?;
    build_in(
        rt,
        tape,
        script::number(line, 1),
        &mut [0; builder::SIZE],
        &mut [0; NODES],
        &mut [0; builder::WORK],
    )
}

// Builds the tape in memory that is full, and prints what it leaves there, from a place of the image and of the list on: PLACE FROM NAME.
pub fn left(rt: &impl Print, line: &[u8], tape: &[u8]) -> io::Result<()> {
    let mut image = [7u8; builder::SIZE];
    let mut list = [7i64; NODES];
    let mut work = [7u16; builder::WORK];
    let initial = script::number(line, 1);
    let from = script::number(line, 2);
    cases::print_name(rt, script::words_from(line, 3))?;
    build_in(rt, tape, initial, &mut image, &mut list, &mut work)?;
    print_state(rt, "; image", image.get(from..).unwrap_or(&[]))?;
    print_state(rt, ", list", list.get(from..).unwrap_or(&[]))?;
    print_state(rt, ", work memory", &work)
}

// Builds the tape from 0 in memory of these lengths: IMAGE LIST WORK NAME.
pub fn sized(rt: &impl Print, line: &[u8], tape: &[u8]) -> io::Result<()> {
    let images = script::number(line, 1);
    let lists = script::number(line, 2);
    let works = script::number(line, 3);
    cases::print_name(rt, script::words_from(line, 4))?;
    if IMAGE < images || LIST < lists || WORK < works {
        return print!(rt; "too long");
    }
    build_in(
        rt,
        tape,
        0,
        &mut [0; IMAGE][..images],
        &mut [0; LIST][..lists],
        &mut [0; WORK][..works],
    )
}
