// How questions and answers are printed.
use refusals::Refusal;
use std::fmt::Display;
use std::io;
use symbols::{Inserted, SymbolTable};

// Prints a question, and the answer.
pub fn answered<T: Display + Drop>(
    rt: &impl Print,
    question: &[u8],
    answer: Result<T, Refusal>,
) -> io::Result<()> {
    cases::print_name(rt, question)?;
    cases::print_answer(rt, answer)?;
    println!(rt;)
}

// Prints a question about a node's number, and the answer.
pub fn got(
    rt: &impl Print,
    question: &[u8],
    answer: Result<Option<i64>, Refusal>,
) -> io::Result<()> {
    cases::print_name(rt, question)?;
    cases::print_found(
        rt,
        answer.map(|value| value.map(|_| "a number")),
        "unresolved",
    )?;
    println!(rt;)
}

// Prints a question about a node, and the answer.
pub fn found(
    rt: &impl Print,
    question: &[u8],
    answer: Result<Option<u16>, Refusal>,
) -> io::Result<()> {
    cases::print_name(rt, question)?;
    cases::print_found(rt, answer, "nothing")?;
    println!(rt;)
}

// Prints a call on a table that gives a node, and the answer; hands back the table after it.
pub fn made(
    rt: &impl Print,
    question: &[u8],
    table: SymbolTable,
    answer: Result<Inserted, Refusal>,
) -> io::Result<SymbolTable> {
    answered(rt, question, answer.map(|made| made.node))?;
    Ok(answer.map_or(table, |made| made.table))
}

// Prints a call that changes a table, and the answer; hands back the table after it.
pub fn done(
    rt: &impl Print,
    question: &[u8],
    table: SymbolTable,
    answer: Result<SymbolTable, Refusal>,
) -> io::Result<SymbolTable> {
    answered(rt, question, answer.map(|_| "done"))?;
    Ok(answer.unwrap_or(table))
}
