// What the calls of symbols answer at their limits, where the Rust panics, goes on or has no such thing. What is asked comes from standard
// input, whose head says how it is written: a line for each question, and its answer, which is a node, `nothing`, `unresolved`, a count,
// `done`, or `refused` and document 01's number. The expected answers stand in stdout, and were written from document 01.
#![tactic(auto)]

mod asks;
mod show;
mod tables;

use cases::{Obeys, u16_of};
use console::Console;
use std::io;
use symbols::SymbolTable;
use tables::Path;

// Room for the questions.
const CASES: usize = 65536;

// Sets the path, changes the table, or asks.
fn obey(rt: &impl Print, line: &[u8], table: &mut SymbolTable, path: &mut Path) -> io::Result<()> {
    match script::command(line, b"path table counts edge chain crowd export insert") {
        0 => tables::set_path(path, line),
        1 => *table = tables::sized(SymbolTable::new(), line),
        2 => *table = tables::sized(*table, line),
        3 => tables::link(table, line),
        4 => tables::chain(table, u16_of(line, 1), u16_of(line, 2)),
        5 => tables::crowd(table, script::number(line, 1)),
        6 => *table = asks::exported(rt, line, *table, path.as_slice())?,
        7 => *table = asks::inserted(rt, line, *table)?,
        _ => return ask(rt, line, *table, path.as_slice()),
    }
    Ok(())
}

// Asks the table, or prints a text.
fn ask(rt: &impl Print, line: &[u8], table: SymbolTable, path: &[u16]) -> io::Result<()> {
    match script::command(line, b"calls paths list room child try reads lent say") {
        0 => asks::calls(rt, line, table),
        1 => asks::path_calls(rt, line, table, path),
        2 => asks::list_of(rt, line, table, path),
        3 => asks::room(rt, line, table),
        4 => asks::child(rt, line, table),
        5 => {
            asks::tried(rt, line, table, path)?;
            Ok(())
        }
        6 => asks::reads(rt, table, u16_of(line, 1), path),
        7 => asks::lent(rt, line, table, path),
        8 => cases::print_line(rt, script::words_from(line, 1)),
        _ => cases::tell(rt, line),
    }
}

// The table and the path that are asked about.
#[derive(Drop)]
struct Run {
    table: SymbolTable,
    path: Path,
}

impl Obeys for Run {
    // Does with them what a line says.
    fn obey(&mut self, rt: &impl Print, line: &[u8]) -> io::Result<()> {
        obey(rt, line, &mut self.table, &mut self.path)
    }
}

fn main() {
    let mut run = Run {
        table: SymbolTable::new(),
        path: Path::new(0),
    };
    let _ = cases::obey_each(&Console, &mut [0u8; CASES], &mut run);
}
