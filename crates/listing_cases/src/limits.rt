// What a call takes and what it leaves: the length of the lent text, the bytes behind what is put into it, and the longest listing.
use crate::show::{list, list_into, print_head};
use refusals::Refusal;
use std::io;

// What a text is filled with before a call.
const BEFORE: u8 = 7;

// Where a tape is built, unless a case says otherwise.
const INITIAL: usize = 0x2000;

// How long a line of the longest listing is, and the line behind them.
const LINE: usize = 15;

const LAST_LINE: usize = 13;

// Prints what a call answers: how long the text is, or its refusal.
fn print_answer(rt: &impl Print, listed: Result<usize, Refusal>) -> io::Result<()> {
    match listed {
        Ok(end) => print!(rt; " a listing of {end}"),
        Err(why) => print!(rt; " {why}"),
    }
}

// Prints whether bytes are as before.
fn print_state(rt: &impl Print, bytes: &[u8]) -> io::Result<()> {
    if bytes.iter().all(|byte| *byte == BEFORE) {
        return println!(rt; " as before");
    }
    println!(rt; " changed")
}

// A call with a text of this length: LENGTH NAME.
pub fn sized(rt: &impl Print, line: &[u8], tape: &[u8], text: &mut [u8]) -> io::Result<()> {
    text.fill(BEFORE);
    print_head(rt, line, 2, tape)?;
    let listed = list_into(text, script::number(line, 1), tape, INITIAL);
    print_answer(rt, listed)?;
    print!(rt; ", the text")?;
    print_state(rt, text)
}

// A call with a text of the right length: what it put there, and what is behind that. NAME.
pub fn left(rt: &impl Print, line: &[u8], tape: &[u8], text: &mut [u8]) -> io::Result<()> {
    text.fill(BEFORE);
    print_head(rt, line, 1, tape)?;
    let listed = list(text, tape, INITIAL);
    let end = listed.unwrap_or(0);
    print_answer(rt, listed)?;
    print!(rt; ", behind it the text")?;
    print_state(rt, text.get(end..).unwrap_or(&[]))?;
    rt.write_all(page::cut(text, end))
}

// A listing of lines of one length: how long it is, its first line, and its last two. PLACE NAME.
pub fn ends(rt: &impl Print, line: &[u8], tape: &[u8], text: &mut [u8]) -> io::Result<()> {
    print_head(rt, line, 2, tape)?;
    let listed = list(text, tape, script::number(line, 1));
    print_answer(rt, listed)?;
    println!(rt;)?;
    let put = page::cut(text, listed.unwrap_or(0));
    rt.write_all(page::cut(put, LINE))?;
    rt.write_all(&put[put.len().saturating_sub(LINE + LAST_LINE)..])
}
