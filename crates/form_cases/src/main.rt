// What `form`, or `expression_form` and `evaluate`, answer to the cases on standard input, whose head says how they are written: a line for
// each case. The expected answers stand in stdout, and were written from document 01.
#![tactic(auto)]

use cases::{Asks, Tape};
use console::Console;
use std::io;
use symbols::SymbolTable;

// Room for the cases, and for a tape that is one byte too long.
const CASES: usize = 65536;

const TAPE: usize = 65537;

// Nothing is kept from line to line.
#[derive(Drop)]
struct Run;

impl Asks for Run {
    // Asks about the tape as a line says.
    fn ask(&mut self, rt: &impl Print, line: &[u8], tape: &[u8]) -> io::Result<()> {
        match script::command(line, b"form expression value") {
            0 => form(rt, line, tape),
            1 => expression(rt, line, tape),
            2 => value(rt, line, tape),
            _ => cases::tell(rt, line),
        }
    }
}

// The form of a tape: NAME.
fn form(rt: &impl Print, line: &[u8], tape: &[u8]) -> io::Result<()> {
    cases::print_name(rt, script::words_from(line, 1))?;
    cases::print_answer(rt, form::form(tape).map(|()| "done"))?;
    println!(rt;)
}

// The form of an expression, and what it gives in the root of an empty table: NAME.
fn expression(rt: &impl Print, line: &[u8], bytes: &[u8]) -> io::Result<()> {
    cases::print_name(rt, script::words_from(line, 1))?;
    cases::print_answer(rt, form::expression_form(bytes).map(|()| "done"))?;
    print!(rt; ", ")?;
    print_value(rt, bytes, SymbolTable::new(), 0)
}

// What an expression gives: NODES SCOPE NAME.
fn value(rt: &impl Print, line: &[u8], bytes: &[u8]) -> io::Result<()> {
    let mut table = SymbolTable::new();
    table.nodes = script::number(line, 1);
    cases::print_name(rt, script::words_from(line, 3))?;
    print_value(rt, bytes, table, cases::u16_of(line, 2))
}

// Prints what an expression gives in a scope, and ends the line.
fn print_value(rt: &impl Print, bytes: &[u8], table: SymbolTable, scope: u16) -> io::Result<()> {
    let answer = evaluator::evaluate(bytes, table, scope, 0);
    cases::print_answer(rt, answer.map(|_| "a number"))?;
    println!(rt;)
}

fn main() {
    let _ = cases::ask_each(
        &Console,
        &mut [0u8; CASES],
        &mut Tape::<TAPE>::new(),
        &mut Run,
    );
}
