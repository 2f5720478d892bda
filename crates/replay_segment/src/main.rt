// Answers, as the Rust would, each question of 9 bytes on standard input: an operation, and two u32. 0 is new (initial place,
// target), 1 reset, 2 set_pc, 3 emit (how many bytes, seed), 4 pc, 5 target_pc, 6 target_offset, 7 range, 8 range_data. The pen
// and the image are kept from question to question; a new pen leaves the image as it is. An answer is a line: of the first
// four `done`, or `refused` where the Rust answers false, then the place and the range; of range_data its length and a
// checksum; else numbers in decimal.
// Each of the first four is also done from the same pen with one that is held and lent, into an image of its own: reset, set_pc and
// emit are then the calls that change a pen where it is, and new is the same. Behind the answer stands ` differs` if the two pens
// afterwards or the two answers are not the same, numbers included, and behind that of range_data if the two images are not.
#![tactic(auto)]

use console::Console;
use pen::{Pen, SIZE};
use program_counter::{ProgramCounter, Range};
use refusals::Refusal;
use replay::Answers;
use std::io;

// How many bytes a question has.
const QUESTION: usize = 9;

// How many bytes there are to emit from: more than an image has, from every seed.
const BYTES: usize = 65793;

// The last operation that moves the pen or writes.
const EMIT: u8 = 3;

// What one of the operations works on: two numbers, and the bytes that are emitted.
#[derive(Clone, Copy)]
struct Asked<'a> {
    operation: u8,
    a: usize,
    b: usize,
    bytes: &'a [u8],
}

fn print_refused(rt: &impl Print) -> io::Result<()> {
    print!(rt; "refused")
}

fn print_place(rt: &impl Print, answer: Result<ProgramCounter, Refusal>) -> io::Result<()> {
    match answer {
        Ok(pc) => print!(rt; "{}", pc.0),
        Err(_) => print_refused(rt),
    }
}

fn print_number(rt: &impl Print, answer: Result<i64, Refusal>) -> io::Result<()> {
    match answer {
        Ok(z) => print!(rt; "{z}"),
        Err(_) => print_refused(rt),
    }
}

fn print_range(rt: &impl Print, answer: Result<Range, Refusal>) -> io::Result<()> {
    match answer {
        Ok(Range { start, end }) => print!(rt; "{start} {end}"),
        Err(_) => print_refused(rt),
    }
}

fn print_done(rt: &impl Print, answer: Result<(), Refusal>) -> io::Result<()> {
    match answer {
        Ok(()) => print!(rt; "done"),
        Err(_) => print_refused(rt),
    }
}

// Says that the lent pen gave something else.
fn print_differs(rt: &impl Print) -> io::Result<()> {
    print!(rt; " differs")
}

// Prints whether it was done, the place and the range.
fn print_drawn(rt: &impl Print, answer: Result<(), Refusal>, pen: Pen) -> io::Result<()> {
    print_done(rt, answer)?;
    print!(rt; " ")?;
    print_place(rt, pen.pc())?;
    print!(rt; " ")?;
    print_range(rt, pen.range())
}

fn print_data(rt: &impl Print, data: &[u8]) -> io::Result<()> {
    print!(rt; "{} {}", data.len(), replay::checksum(data))
}

// Prints what range_data gives, and whether the lent pen's image is another.
fn print_range_data(rt: &impl Print, pen: Pen, image: &[u8], lent_image: &[u8]) -> io::Result<()> {
    match pen.range_data_answer(image) {
        Ok(()) => print_data(rt, pen.range_data(image))?,
        Err(_) => print_refused(rt)?,
    }
    if image != lent_image {
        print_differs(rt)?;
    }
    Ok(())
}

// Fills the bytes that are emitted: 0, and each 7 more than the one before, modulo 256.
fn fill(bytes: &mut [u8]) {
    let mut next: u8 = 0;
    for byte in bytes.iter_mut() {
        *byte = next;
        next = next.wrapping_add(7);
    }
}

// So many of the bytes, from the seed on; where there are less, all of them, and so more than fit.
fn part(bytes: &[u8], count: usize, seed: usize) -> &[u8] {
    bytes.get(seed..seed.saturating_add(count)).unwrap_or(bytes)
}

// Does one of the operations that give a pen.
fn draw(asked: Asked, pen: Pen, image: &mut [u8]) -> Result<Pen, Refusal> {
    match asked.operation {
        0 => Pen::new(asked.a, asked.b),
        1 => segment::reset(pen),
        2 => segment::set_pc(pen, asked.a),
        _ => segment::emit(pen, image, part(asked.bytes, asked.a, asked.b)),
    }
}

// Makes a pen where one is held.
fn begin(pen: &mut Pen, initial: usize, target: usize) -> Result<(), Refusal> {
    *pen = Pen::new(initial, target)?;
    Ok(())
}

// Does one of them with a pen that is lent.
fn draw_lent(asked: Asked, pen: &mut Pen, image: &mut [u8]) -> Result<(), Refusal> {
    match asked.operation {
        0 => begin(pen, asked.a, asked.b),
        1 => lent_pen::reset(pen),
        2 => lent_pen::set_pc(pen, asked.a),
        _ => lent_pen::emit(pen, image, part(asked.bytes, asked.a, asked.b)),
    }
}

// Does one of them both ways, prints the answer, and keeps the pen.
fn move_on(
    rt: &impl Print,
    asked: Asked,
    pen: &mut Pen,
    image: &mut [u8],
    lent_image: &mut [u8],
) -> io::Result<()> {
    let mut lent = *pen;
    let lent_answer = draw_lent(asked, &mut lent, lent_image);
    let drawn = draw(asked, *pen, image);
    let answer = drawn.map(|_| ());
    *pen = drawn.unwrap_or(*pen);
    print_drawn(rt, answer, *pen)?;
    if lent != *pen || lent_answer != answer {
        print_differs(rt)?;
    }
    Ok(())
}

// Prints what one of the other operations gives.
fn tell(
    rt: &impl Print,
    operation: u8,
    pen: Pen,
    image: &[u8],
    lent_image: &[u8],
) -> io::Result<()> {
    match operation {
        4 => print_place(rt, pen.pc()),
        5 => print_number(rt, pen.target_pc()),
        6 => print_number(rt, pen.target_offset()),
        7 => print_range(rt, pen.range()),
        _ => print_range_data(rt, pen, image, lent_image),
    }
}

// The number of four bytes.
fn number_at(question: &[u8], at: usize) -> usize {
    (little::u64_at(question, at) % 0x1_0000_0000) as usize
}

// Every script writes into one image, whatever the last one left there, and the lent pen into a second.
#[derive(Drop)]
struct Replay {
    pen: Pen,
    image: [u8; SIZE],
    lent_image: [u8; SIZE],
    bytes: [u8; BYTES],
}

impl Answers for Replay {
    // Prints the answer to a question.
    fn answer(&mut self, rt: &impl Print, question: &[u8]) -> io::Result<()> {
        let operation = little::u8_at(question, 0);
        if EMIT < operation {
            return tell(rt, operation, self.pen, &self.image, &self.lent_image);
        }
        let asked = Asked {
            operation,
            a: number_at(question, 1),
            b: number_at(question, 5),
            bytes: &self.bytes,
        };
        move_on(
            rt,
            asked,
            &mut self.pen,
            &mut self.image,
            &mut self.lent_image,
        )
    }
}

fn main() {
    let mut replay = Replay {
        pen: pen::begin(0, 0),
        image: [0; SIZE],
        lent_image: [0; SIZE],
        bytes: [0; BYTES],
    };
    fill(&mut replay.bytes);
    let _ = replay::answer_each(&Console, &mut [0u8; QUESTION], &mut replay);
}
