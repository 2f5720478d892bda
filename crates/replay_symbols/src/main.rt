// Answers, as the Rust would, or as document 01 says where it adds a refusal, each question of 14 bytes on standard input: an
// operation, two u16, a byte, and eight bytes. 0 is new, 1 insert (parent, id; whether there is a number; i64), 2 update_data
// (node; whether there is a number; i64), 3 ensure_index (node; how many ids; four ids), 4 export (node, parent; how many ids;
// four ids), 5 get (node), 6 child (node, id), 7 parent (node), 8 try_index, 9 query and 10 query_all (node; how many ids; four
// ids). Id 0 is super. The table is kept from question to question. An answer is a line: a node or `nothing`, a number or
// `unresolved`, `done`, of query_all the count and the nodes, or `refused` and document 01's number.
#![tactic(auto)]

use console::Console;
use refusals::Refusal;
use replay::Answers;
use std::io;
use symbols::{Inserted, SymbolTable};

// How many bytes a question has.
const QUESTION: usize = 14;

// A question: the operation, a node, another node or an id, a number or none, and a path. The last two are two readings of the same bytes.
#[derive(Clone, Copy, Debug, PartialEq, Eq)]
struct Asked<'a> {
    operation: u8,
    nx: u16,
    other: u16,
    value: Option<i64>,
    path: &'a [u16],
}

impl<'a> Asked<'a> {
    // The question of these bytes, and so many of these ids, or all.
    fn new(question: &[u8], ids: &'a [u16; 4]) -> Self {
        let count = little::u8_at(question, 5) as usize;
        Asked {
            operation: little::u8_at(question, 0),
            nx: little::u16_at(question, 1),
            other: little::u16_at(question, 3),
            value: (count != 0).then_some(little::i64_at(question, 6)),
            path: ids.get(..count).unwrap_or(ids),
        }
    }
}

// Prints how many nodes query_all lists, and the nodes.
fn print_all(rt: &impl Print, table: SymbolTable, nx: u16, path: &[u16]) -> io::Result<()> {
    let mut list = [0u16; 1024];
    let answer = questions::query_all(table, nx, path, &mut list);
    cases::print_answer(rt, answer)?;
    for node in list.iter().take(answer.unwrap_or(0)) {
        print!(rt; " {node}")?;
    }
    Ok(())
}

// Prints what one of the operations gives that only ask.
fn print_answer(rt: &impl Print, asked: Asked, table: SymbolTable) -> io::Result<()> {
    let nx = asked.nx;
    let path = asked.path;
    let found = match asked.operation {
        5 => return cases::print_found(rt, questions::get(table, nx), "unresolved"),
        6 => questions::child(table, nx, asked.other),
        7 => questions::parent(table, nx),
        8 => questions::try_index(table, nx, path),
        9 => questions::query(table, nx, path),
        _ => return print_all(rt, table, nx, path),
    };
    cases::print_found(rt, found, "nothing")
}

// Prints what one of the operations answers that change the table; it is the one after it then.
fn change(
    rt: &impl Print,
    table: &mut SymbolTable,
    answer: Result<SymbolTable, Refusal>,
) -> io::Result<()> {
    *table = answer.unwrap_or(*table);
    cases::print_answer(rt, answer.map(|_| "done"))
}

// The same of one that gives a node.
fn make(
    rt: &impl Print,
    table: &mut SymbolTable,
    answer: Result<Inserted, Refusal>,
) -> io::Result<()> {
    *table = answer.map_or(*table, |made| made.table);
    cases::print_answer(rt, answer.map(|made| made.node))
}

// Prints the answer to a question.
fn answer(rt: &impl Print, table: &mut SymbolTable, asked: Asked) -> io::Result<()> {
    let nx = asked.nx;
    match asked.operation {
        0 => change(rt, table, Ok(SymbolTable::new())),
        1 => make(rt, table, table.insert(nx, asked.other, asked.value)),
        2 => change(rt, table, table.update_data(nx, asked.value)),
        3 => make(rt, table, table.ensure_index(nx, asked.path)),
        4 => change(rt, table, table.export(nx, asked.other, asked.path)),
        _ => print_answer(rt, asked, *table),
    }
}

// The table, which is kept from question to question.
#[derive(Drop)]
struct Replay {
    table: SymbolTable,
}

impl Answers for Replay {
    // Prints the answer to the question of these bytes.
    fn answer(&mut self, rt: &impl Print, question: &[u8]) -> io::Result<()> {
        let ids = [6, 8, 10, 12].map(|at| little::u16_at(question, at));
        answer(rt, &mut self.table, Asked::new(question, &ids))
    }
}

fn main() {
    let mut replay = Replay {
        table: SymbolTable::new(),
    };
    let _ = replay::answer_each(&Console, &mut [0u8; QUESTION], &mut replay);
}
