// How cases are checked, and answers printed.
use crate::hand::Hand;
use refusals::Fault;
use std::io;
use symbols::NODES;

// Prints the name of a case, and the answer to it.
fn print_case(rt: &impl Print, name: &[u8], answer: Result<(), Fault>) -> io::Result<()> {
    cases::print_name(rt, name)?;
    cases::print_answer(rt, answer.map(|()| "accepted"))?;
    println!(rt;)
}

// What the checker answers to what is handed in with a tape: INITIAL START.
pub fn answer(line: &[u8], tape: &[u8], hand: &Hand) -> Result<(), Fault> {
    checker::check(
        tape,
        script::number(line, 1),
        hand.numbers(),
        script::number(line, 2),
        hand.bytes(),
    )
}

// Checks what is handed in with a tape: INITIAL START NAME.
pub fn check(rt: &impl Print, line: &[u8], tape: &[u8], hand: &Hand) -> io::Result<()> {
    print_case(rt, script::words_from(line, 3), answer(line, tape, hand))
}

// Builds a tape, and checks what the build gives: INITIAL NAME.
pub fn built(rt: &impl Print, line: &[u8], tape: &[u8]) -> io::Result<()> {
    let answer = build_and_check(tape, script::number(line, 1));
    print_case(rt, script::words_from(line, 2), answer)
}

// Builds a tape and checks what the build gives: the builder's refusal, or what the checker answers.
fn build_and_check(tape: &[u8], initial: usize) -> Result<(), Fault> {
    let mut image = [0u8; builder::SIZE];
    let mut list = [0i64; NODES];
    let mut work = [0u16; builder::WORK];
    let built = builder::build(tape, initial, &mut image, &mut list, &mut work)?;
    let numbers = list.get(..built.numbers).unwrap_or(&list);
    let bytes = image.get(built.start..built.end).unwrap_or(&[]);
    checker::check(tape, initial, numbers, built.start, bytes)
}
