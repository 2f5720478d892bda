// The lines of a tape whose names are resolved and whose numbers are settled: every statement is tried; then a line of its place, its bytes
// and its mnemonic for each record that writes goes into a lent text, and one of start, end and passes. A refused statement gives the
// refused line alone.
#![tactic(auto)]

ghost use Rattle.std.specs.Prelude.{[], ◌≡◌, ◌≤◌, pos, length, get_or};
ghost use Rattle.std.specs.Prelude.{None};
ghost use Rattle.refusals.specs.Answer.{pick};
ghost use Rattle.refusals.specs.AnswerAt.{part};
ghost use Rattle.opcodes.specs.Encode.{code};
ghost use Rattle.page.specs.Page.{laid};
ghost use Rattle.mnemonics.specs.Mnemonics.{name_of};
ghost use Rattle.pen.specs.Pens.{size};
ghost use Rattle.form.specs.Form.{max_tape};
ghost use Rattle.form.specs.Statements.{what_of, is_inner, statements};
ghost use Rattle.evaluator.specs.Says.{says_value};
ghost use Rattle.walk.specs.Walk.{origin, begin};
ghost use Rattle.walk.specs.Numbers.{numbers_in, reads_noted};
ghost use Rattle.compares.specs.Compared.{plain};
ghost use Rattle.tries.specs.Try.{try_of};
ghost use Rattle.tries.specs.Steps.{bytes_in, place_behind};
ghost use Rattle.record_lines.specs.Records.{mnemonic_of, line_of, lines, said, recorded};
ghost use Rattle.record_lines.specs.Steps.{AllPass};

use evaluator::Value;
use mnemonics::DATA;
use opcodes::Code;
use symbols::Numbers;
use tape::{INSTRUCTION, SET_PLACE};

// Tries every statement with these numbers, and puts the lines at the text's beginning; the offset behind them.
pub fn put_records<'a>(
    tape: &'a [u8],
    nodes: &'a [u16],
    numbers: Numbers,
    passes: usize,
    initial: usize,
    text: &mut [u8],
) -> usize
    ensures { (result, text.new) ≡ laid text.old 0
        (said (recorded tape.now nodes.now numbers passes initial)) }
{
    match finish::tried(tape, nodes, numbers, initial) {
        Err(fault) => lines::put_refused(text, 0, fault.why.number(), fault.at),
        Ok(written) => {
            let at = put_lines(tape, nodes, &numbers, initial, text);
            lines::put_last(text, at, written.start, written.end, passes)
        }
    }
}

// A line for each record that writes. Every statement has passed its try.
fn put_lines<'a>(
    tape: &'a [u8],
    nodes: &'a [u16],
    numbers: &'a Numbers,
    initial: usize,
    text: &mut [u8],
) -> usize
    requires { (length tape.now ≤ max_tape) × (initial ≤ size)
        × AllPass (reads_noted tape.now nodes.now) (numbers_in numbers.now) (statements tape.now) (origin initial) }
    ensures { (result, text.new) ≡ laid text.old 0
        (lines (reads_noted tape.now nodes.now) (numbers_in numbers.now)
        (begin (origin initial)) (statements tape.now)) }
{
    let mut place = initial;
    let mut end: usize = 0;
    let mut at: usize = 0;
    // A record's length is the step of this walk: no index is counted.
    while at < tape.len() {
        let rec = tape::record(tape, at);
        if form::is_last(rec) {
            return end;
        }
        let next = at + rec.len();
        let value = walk::value_of(tape, nodes, numbers, place as i64, rec, next);
        let bytes = bytes_of(rec, at, place, value);
        end = put_record(text, end, place, rec, bytes);
        place = place_behind(rec, value, place, bytes.len as usize);
        at = next;
    }
    end
}

// The bytes that a record writes at a place: none where it is a part of an expression.
fn bytes_of(rec: &[u8], at: usize, place: usize, value: Value) -> Code
    requires { place ≤ size }
    ensures { result ≡ code (pick (is_inner rec.now) []
        (part (try_of plain None (pos place) at (what_of rec.now) (says_value value)))) }
{
    if form::is_inner(rec) {
        return no_bytes();
    }
    match tries::attempt(compares::plain(), None, place as i64, rec, at, value) {
        Err(_) => no_bytes(),
        Ok(bytes) => bytes,
    }
}

// No bytes.
fn no_bytes() -> Code
    ensures { result ≡ code [] }
{
    Code {
        len: 0,
        b0: 0,
        b1: 0,
        b2: 0,
    }
}

// The place behind a record that writes so many bytes.
#[tactic(auto, unfolding(tries::specs::Steps::place_behind))]
fn place_behind(rec: &[u8], value: Value, place: usize, len: usize) -> usize
    requires { (place ≤ size) × (len ≤ 3) }
    ensures { result ≡ place_behind (get_or rec.now 0 0) (says_value value) place len }
{
    if little::u8_at(rec, 0) == SET_PLACE {
        return walk::moved_to(walk::number_of(value), place);
    }
    place + len
}

// The line of a record that writes these bytes at a place; nothing where there are none.
fn put_record(text: &mut [u8], at: usize, place: usize, rec: &[u8], bytes: Code) -> usize
    ensures { (result, text.new)
        ≡ laid text.old at (line_of place (what_of rec.now) (bytes_in bytes)) }
{
    if bytes.len == 0 {
        return at;
    }
    let all = [bytes.b0, bytes.b1, bytes.b2];
    lines::put_line(
        text,
        at,
        place,
        page::cut(&all, bytes.len as usize),
        mnemonic_of(rec),
    )
}

// The number of a record's mnemonic; all but instructions are data.
fn mnemonic_of(rec: &[u8]) -> u8
    ensures { name_of result ≡ mnemonic_of (what_of rec.now) }
{
    if little::u8_at(rec, 0) == INSTRUCTION {
        return little::u8_at(rec, 1);
    }
    DATA
}
