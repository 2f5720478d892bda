// Answers, as the Rust would, or as document 01 says where it adds a refusal, each question of 32 bytes on standard input: an
// operation, a u16, an i64, a byte, and twenty bytes. 0 is new, 1 insert (parent; number; whether there is a number; and the id
// in the first two of the twenty bytes), 2 more (how many of the twenty bytes go behind the expression), 3 evaluate (scope;
// current place; how many of the twenty bytes end the expression). Id 0 is super. The table and an unfinished expression are kept
// from question to question. An answer is a line: `done`, a node, a number, or `refused`, document 01's number, `at` and the
// offset.
#![tactic(auto)]

use console::Console;
use replay::Answers;
use replay::room::Room;
use std::io;
use symbols::SymbolTable;

// How many bytes a question has.
const QUESTION: usize = 32;

// There is room for an expression that is too long.
const ROOM: usize = 65537;

// The operations; any other is evaluate.
const NEW: u8 = 0;

const INSERT: u8 = 1;

const MORE: u8 = 2;

// The bytes from an offset on, or none.
fn behind(bytes: &[u8], at: usize) -> &[u8] {
    &bytes[at.min(bytes.len())..]
}

// The bytes of a question that go behind the expression.
fn piece(question: &[u8]) -> &[u8] {
    page::cut(behind(question, 12), little::u8_at(question, 11) as usize)
}

// Inserts a node, and prints it.
fn insert(rt: &impl Print, table: &mut SymbolTable, question: &[u8]) -> io::Result<()> {
    let parent = little::u16_at(question, 1);
    let id = little::u16_at(question, 12);
    let number = little::i64_at(question, 3);
    let is_known = little::u8_at(question, 11) != 0;
    match table.insert(parent, id, is_known.then_some(number)) {
        Ok(inserted) => {
            *table = inserted.table;
            let node = inserted.node;
            print!(rt; "{node}")
        }
        Err(why) => print!(rt; "{why} at 0"),
    }
}

// Prints what the expression comes to.
fn print_value(
    rt: &impl Print,
    table: SymbolTable,
    expression: &[u8],
    question: &[u8],
) -> io::Result<()> {
    let scope = little::u16_at(question, 1);
    let place = little::i64_at(question, 3);
    match evaluator::evaluate(expression, table, scope, place) {
        Ok(z) => print!(rt; "{z}"),
        Err(fault) => print!(rt; "{fault}"),
    }
}

// Prints the answer to a question. The expression ends with any but `more`.
fn answer(
    rt: &impl Print,
    table: &mut SymbolTable,
    expression: &mut Room<u8, ROOM>,
    question: &[u8],
) -> io::Result<()> {
    let operation = little::u8_at(question, 0);
    if operation == MORE {
        expression.push_all(piece(question));
        return print!(rt; "done");
    }
    match operation {
        NEW => {
            *table = SymbolTable::new();
            print!(rt; "done")?;
        }
        INSERT => insert(rt, table, question)?,
        _ => {
            expression.push_all(piece(question));
            print_value(rt, *table, expression.as_slice(), question)?;
        }
    }
    expression.clear();
    Ok(())
}

// The table and an unfinished expression.
#[derive(Drop)]
struct Replay {
    table: SymbolTable,
    expression: Room<u8, ROOM>,
}

impl Answers for Replay {
    // Prints the answer to a question about them.
    fn answer(&mut self, rt: &impl Print, question: &[u8]) -> io::Result<()> {
        answer(rt, &mut self.table, &mut self.expression, question)
    }
}

fn main() {
    let mut replay = Replay {
        table: SymbolTable::new(),
        expression: Room::new(0),
    };
    let _ = replay::answer_each(&Console, &mut [0u8; QUESTION], &mut replay);
}
