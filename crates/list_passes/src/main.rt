// Shows how the numbers of a tape settle. The tape is read from standard input and built from 2000 hex, as the listing does it; a row is
// printed for each label and constant, with its id and its number after each pass, up to the pass that gives back what it read. So the
// last two columns are equal. A tape whose form or names are refused gives the refused line alone; one that does not settle gives the
// columns of all passes, and then the refused line.
#![tactic(auto)]

mod line;

use descriptors::{STDIN_FILENO, STDOUT_FILENO};
use form::LONGEST;
use passes::LIMIT;
use refusals::{Fault, Refusal};
use symbols::{NODES, Numbers};
use tape::LABEL;

// Where a tape is built.
const INITIAL: usize = 0x2000;

// One byte more than a tape may have, so that a longer one is seen.
const ROOM: usize = 65537;

// As many numbers as all passes give: one for each node and pass.
const CELLS: usize = LIMIT * NODES;

// Reads the tape, and shows it.
fn main() {
    let mut tape = [0u8; ROOM];
    let length = io::read_full(STDIN_FILENO, &mut tape);
    show(&tape[..length]);
}

// Lays the tape out, and shows as many passes as there were until one gave back what it read.
fn show(tape: &[u8]) {
    let mut nodes = [0u16; LONGEST];
    match layout::lay_out(tape, INITIAL, &mut nodes) {
        Ok(settled) => show_passes(tape, &nodes, settled.passes),
        Err(fault) => show_refused(tape, &nodes, fault),
    }
}

// The refused line; before it, where no pass gave back what it read, all of them.
fn show_refused<'a>(tape: &'a [u8], nodes: &'a [u16], fault: Fault) {
    if fault.why == Refusal::NotSettled {
        show_passes(tape, nodes, LIMIT);
    }
    print_refused(fault);
}

// The head and the rows of so many passes.
fn show_passes<'a>(tape: &'a [u8], nodes: &'a [u16], count: usize) {
    let mut known = [false; CELLS];
    let mut number = [0i64; CELLS];
    make_passes(tape, nodes, count, &mut known, &mut number);
    print_head(count);
    print_rows(tape, count, &known, &number);
}

// Makes so many passes, each with the numbers of the one before it, and keeps what each gives.
fn make_passes<'a>(
    tape: &'a [u8],
    nodes: &'a [u16],
    count: usize,
    known: &mut [bool],
    number: &mut [i64],
) {
    let mut numbers = nothing();
    for pass in 0..count {
        let Ok(settled) = passes::pass_once(tape, nodes, numbers, INITIAL) else {
            return;
        };
        numbers = settled.numbers;
        keep_pass(known, number, pass, &numbers);
    }
}

// Before the first pass no name has a number.
fn nothing() -> Numbers {
    [None; NODES]
}

// Keeps the numbers that a pass gave.
fn keep_pass(known: &mut [bool], number: &mut [i64], pass: usize, numbers: &Numbers) {
    for node in 0..NODES {
        keep(
            known,
            number,
            cell(pass, node),
            numbers[node].is_some(),
            numbers[node].unwrap_or(0),
        );
    }
}

// Keeps one number, or that there is none.
fn keep(known: &mut [bool], number: &mut [i64], at: usize, is_known: bool, z: i64) {
    if at < known.len() && at < number.len() {
        known[at] = is_known;
        number[at] = z;
    }
}

// Where the number stands that a pass gave a node; behind all of them where there is no such pass or node.
fn cell(pass: usize, node: usize) -> usize {
    if pass < LIMIT && node < NODES {
        return NODES * pass + node;
    }
    CELLS
}

// The number that was kept there.
fn kept(known: &[bool], number: &[i64], at: usize) -> Option<i64> {
    let is_known = *known.get(at)?;
    let z = *number.get(at)?;
    is_known.then_some(z)
}

// Prints the head, which numbers the passes.
fn print_head(count: usize) {
    let mut space = [0u8; line::LONGEST];
    let begun = page::put_all(&mut space, 0, b"pass        ");
    let numbered = put_counts(&mut space, begun, count);
    print_line(&mut space, numbered);
}

// Puts the numbers from 1 on.
fn put_counts(line: &mut [u8], from: usize, count: usize) -> usize {
    let mut at = from;
    for pass in 0..count {
        at = line::put_decimal(line, at, pass as u64 + 1);
    }
    at
}

// Prints a row for each label and constant. The names so far are the node of the last one.
fn print_rows(tape: &[u8], count: usize, known: &[bool], number: &[i64]) {
    let mut names: usize = 0;
    let mut at: usize = 0;
    // A record's length is the step of this walk: no index is counted.
    while at < tape.len() {
        let rec = tape::record(tape, at);
        if form::is_last(rec) {
            return;
        }
        names += form::names_in(little::u8_at(rec, 0));
        print_row(rec, names, count, known, number);
        at += rec.len();
    }
}

// Prints the row of the label or constant that is this node. Another record has none.
fn print_row(rec: &[u8], node: usize, count: usize, known: &[bool], number: &[i64]) {
    let kind = little::u8_at(rec, 0);
    if !form::is_numbered(kind) {
        return;
    }
    let mut space = [0u8; line::LONGEST];
    let begun = put_kind(&mut space, kind);
    let named = line::put_id(&mut space, begun, little::u16_at(rec, 1));
    let numbered = put_numbers(&mut space, named, node, count, known, number);
    print_line(&mut space, numbered);
}

// Puts what a record declares, a label or a constant.
fn put_kind(line: &mut [u8], kind: u8) -> usize {
    if kind == LABEL {
        return page::put_all(line, 0, b"label ");
    }
    page::put_all(line, 0, b"const ")
}

// Puts the numbers that the passes gave a node.
fn put_numbers(
    line: &mut [u8],
    from: usize,
    node: usize,
    count: usize,
    known: &[bool],
    number: &[i64],
) -> usize {
    let mut at = from;
    for pass in 0..count {
        at = put_number(line, at, kept(known, number, cell(pass, node)));
    }
    at
}

// Puts a number, or a stroke where there is none.
fn put_number(line: &mut [u8], at: usize, number: Option<i64>) -> usize {
    match number {
        Some(z) => line::put_hex(line, at, z),
        None => line::put_cell(line, at, b"-"),
    }
}

// Ends a line of so many bytes, and prints it.
fn print_line(line: &mut [u8], length: usize) {
    let end = page::put_all(line, length, b"\n");
    print(page::cut(line, end));
}

// Prints the refused line.
fn print_refused(fault: Fault) {
    print(b"refused ");
    io::print_decimal(STDOUT_FILENO, fault.why.number() as u64);
    print(b" at ");
    io::print_decimal(STDOUT_FILENO, fault.at as u64);
    print(b"\n");
}

// Prints some bytes.
fn print(bytes: &[u8]) {
    io::write_all(STDOUT_FILENO, bytes);
}
