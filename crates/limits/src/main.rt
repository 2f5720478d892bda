// What the calls answer at their limits, where the Rust panics, goes on or has no such thing. What is asked comes from standard input,
// whose head says how it is written: a line for each question, with document 01's number behind it, or 0 where the call was done. The
// expected numbers stand in stdout, and were written from document 01.
#![tactic(auto)]

mod answers;
mod maps;
mod pens;
mod show;

use descriptors::STDIN_FILENO;
use pen::Pen;

// Room for the questions.
const CASES: usize = 65536;

// Reads the questions.
fn main() {
    let mut cases = [0u8; CASES];
    let mut map = [0u32; maps::WORDS];
    let length = io::read_full(STDIN_FILENO, &mut cases);
    run(&cases[..length], &mut map);
}

// Goes from line to line.
fn run(cases: &[u8], map: &mut [u32]) {
    let count = script::lines(cases);
    let mut pen = pens::begun();
    for i in 0..count {
        pen = obey(script::line(cases, i), pen, map);
    }
}

// Makes a pen, or asks.
fn obey(line: &[u8], pen: Pen, map: &mut [u32]) -> Pen {
    if script::is_silent(line) {
        return pen;
    }
    if script::is_command(line, b"pen") {
        return pens::made(line);
    }
    ask(line, pen, map);
    pen
}

// Asks of a pen, or of a map.
fn ask(line: &[u8], pen: Pen, map: &mut [u32]) {
    match script::command(
        line,
        b"new set_pc calls emit range_data runs map entry fill add at move",
    ) {
        0 => pens::new(line),
        1 => pens::set_pc(line, pen),
        2 => pens::calls(line, pen),
        3 => pens::emit(line, pen),
        4 => pens::range_data(line, pen),
        5 => pens::runs(line),
        6 => maps::memory(line),
        7 => maps::entry(line),
        8 => maps::fill(line, map),
        9 => maps::add(line, map),
        10 => maps::at(line, map),
        11 => maps::shift(line, map),
        _ => show::tell(line),
    }
}
