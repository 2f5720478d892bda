// The passes over a tape whose names have been resolved: each walks the tape from the initial place, reads the numbers that the pass
// before it gave, and gives new ones, until a pass gives back what it read.
#![tactic(auto)]

ghost use Rattle.std.specs.Prelude.{true, [], ◌∷◌, ◌≡◌, ◌+◌, ◌<◌, ◌^◌, get_or};
ghost use Rattle.refusals.specs.AnswerAt.{mapped};
ghost use Rattle.opcodes.specs.Says.{listed};
ghost use Rattle.edges.specs.Edges.{max_nodes};
ghost use Rattle.form.specs.Form.{declares};
ghost use Rattle.form.specs.Statements.{what_of, statements};
ghost use Rattle.walk.specs.Walk.{origin, begin, form_length, length_in, place_after};
ghost use Rattle.walk.specs.Values.{declarations};
ghost use Rattle.walk.specs.Numbers.{numbers_in, numbers_by, reads_noted};
ghost use Rattle.passes.specs.Passes.{pass, settled};
ghost use Rattle.passes.specs.Settle.{is_allowed, settle_of, pass_once, says_settled, handed};
ghost use Rattle.passes.specs.Steps.{step_over, kept_for, kept_in};

use form::LONGEST;
use opcodes::{Form, Forms};
use refusals::{Fault, Refusal};
use symbols::{NODES, Numbers};
use tape::{CLOSE_SCOPE, CONSTANT, INSTRUCTION, LABEL, OPEN_SCOPE, SET_PLACE, WORD};
use walk::Walk;

// How many passes there are at most.
pub const LIMIT: usize = 16;

// The greatest place.
const LAST_PLACE: usize = 65536;

// How many passes there were, and the numbers that the last one gave.
#[derive(Clone, Copy, Debug, PartialEq, Eq)]
pub struct Settled {
    pub passes: usize,
    pub numbers: Numbers,
}

// The least number of passes after which the numbers repeat, and these numbers.
#[tactic(auto, unfolding(crate::specs::Settle::settle_of))]
pub fn settle<'a>(tape: &'a [u8], nodes: &'a [u16], initial: usize) -> Result<Settled, Fault>
    ensures { says_settled result ≡ mapped handed (settle_of tape.now nodes.now initial) }
{
    if !is_allowed(tape, initial) {
        return Err(Refusal::Argument.at(0));
    }
    repeat(tape, nodes, initial)
}

// One pass alone: the numbers that it gives where it reads these.
#[tactic(auto, unfolding(crate::specs::Settle::pass_once))]
pub fn pass_once<'a>(
    tape: &'a [u8],
    nodes: &'a [u16],
    numbers: Numbers,
    initial: usize,
) -> Result<Settled, Fault>
    ensures { says_settled result ≡ mapped handed (pass_once tape.now nodes.now numbers initial) }
{
    if !is_allowed(tape, initial) {
        return Err(Refusal::Argument.at(0));
    }
    Ok(Settled {
        passes: 1,
        numbers: pass(tape, nodes, &numbers, initial),
    })
}

// No node has a number.
fn no_numbers() -> Numbers
    ensures { result ≡ numbers_by [] }
{
    [None; NODES]
}

// Whether the tape, its names and the initial place are in their ranges.
#[tactic(auto, unfolding(crate::specs::Settle::is_allowed))]
fn is_allowed(tape: &[u8], initial: usize) -> bool
    ensures { result ≡ is_allowed tape.now initial }
{
    tape.len() <= LONGEST && initial <= LAST_PLACE && count(tape) < NODES
}

// How many names the statements of a tape declare.
fn count(tape: &[u8]) -> usize
    ensures { result ≡ declarations (statements tape.now) }
{
    let mut names: usize = 0;
    let mut at: usize = 0;
    // A record's length is the step of this walk: no index is counted.
    while at < tape.len() {
        let rec = tape::record(tape, at);
        if form::is_last(rec) {
            return names;
        }
        names += form::names_in(little::u8_at(rec, 0));
        at += rec.len();
    }
    names
}

// Pass after pass, until one gives back what it read.
fn repeat<'a>(tape: &'a [u8], nodes: &'a [u16], initial: usize) -> Result<Settled, Fault>
    requires { is_allowed tape.now initial ≡ true }
    ensures { says_settled result
        ≡ mapped handed (settled (reads_noted tape.now nodes.now) (statements tape.now) (origin initial)) }
{
    let mut numbers = no_numbers();
    for n in 1..=LIMIT {
        let next = pass(tape, nodes, &numbers, initial);
        if next == numbers {
            return Ok(Settled {
                passes: n,
                numbers: next,
            });
        }
        numbers = next;
    }
    Err(Refusal::NotSettled.at(0))
}

// One pass: reads these numbers and gives new ones.
fn pass<'a>(tape: &'a [u8], nodes: &'a [u16], numbers: &'a Numbers, initial: usize) -> Numbers
    requires { is_allowed tape.now initial ≡ true }
    ensures { result ≡ numbers_by (pass (reads_noted tape.now nodes.now)
        (numbers_in numbers.now) (begin (origin initial)) (statements tape.now)) }
{
    let mut given = no_numbers();
    let mut walk = Walk {
        place: initial,
        names: 0,
    };
    let mut at: usize = 0;
    // A record's length is the step of this walk: no index is counted.
    while at < tape.len() {
        let rec = tape::record(tape, at);
        if form::is_last(rec) {
            return given;
        }
        let next = at + rec.len();
        let value = walk::value_of(tape, nodes, numbers, walk.place as i64, rec, next);
        let read = walk::number_of(value);
        keep(&mut given, walk, rec, read);
        walk = step(walk, rec, read);
        at = next;
    }
    given
}

// Keeps the number of the name that a record declares, if it declares one.
#[tactic(auto, unfolding(crate::specs::Steps::kept_in))]
fn keep(numbers: &mut Numbers, walk: Walk, rec: &[u8], read: Option<i64>)
    requires { (walk.place < 2 ^ 63) × (declares (get_or rec.now 0 0) ≡ true → walk.names + 1 < max_nodes) }
    ensures { numbers.new ≡ kept_in numbers.old walk rec.now (kept_for (get_or rec.now 0 0) walk read) }
{
    let kind = little::u8_at(rec, 0);
    if form::declares(kind) {
        numbers[walk.names + 1] = kept_for(kind, walk, read);
    }
}

// What a pass keeps for a declaration of this kind: a label its place, a constant its expression, a scope nothing.
#[tactic(auto, unfolding(crate::specs::Steps::kept_for))]
fn kept_for(kind: u8, walk: Walk, read: Option<i64>) -> Option<i64>
    requires { walk.place < 2 ^ 63 }
    ensures { result ≡ kept_for kind walk read }
{
    match kind {
        LABEL => Some(walk.place as i64),
        CONSTANT => read,
        _ => None,
    }
}

// The walk behind a record.
#[tactic(auto, using(crate::proofs::Records::step_one), unfolding(crate::specs::Steps::step_over))]
fn step(walk: Walk, rec: &[u8], read: Option<i64>) -> Walk
    requires { (walk.place < 2 ^ 62) × (walk.names < 2 ^ 62) }
    ensures { result ≡ step_over walk rec.now read }
{
    if form::is_inner(rec) {
        return walk;
    }
    Walk {
        place: place_after(walk.place, rec, read),
        names: walk.names + form::names_in(little::u8_at(rec, 0)),
    }
}

// The place behind a statement.
fn place_after(place: usize, rec: &[u8], read: Option<i64>) -> usize
    requires { place < 2 ^ 62 }
    ensures { result ≡ place_after (what_of rec.now) read place }
{
    if little::u8_at(rec, 0) == SET_PLACE {
        return walk::moved_to(read, place);
    }
    place + length_in(rec, read)
}

// How many bytes a statement writes: a byte and a screen byte are one.
#[tactic(auto, unfolding(form::specs::Statements::what_of))]
fn length_in(rec: &[u8], read: Option<i64>) -> usize
    ensures { result ≡ length_in (what_of rec.now) read }
{
    match little::u8_at(rec, 0) {
        INSTRUCTION => form_length(
            opcodes::forms_of(
                little::u8_at(rec, 1),
                little::u8_at(rec, 2),
                little::u8_at(rec, 3),
            ),
            read,
        ),
        WORD => 2,
        OPEN_SCOPE | CLOSE_SCOPE | LABEL | CONSTANT | SET_PLACE => 0,
        _ => 1,
    }
}

// How long an instruction is: a row of one form always has its length.
fn form_length(forms: Forms, read: Option<i64>) -> usize
    ensures { result ≡ form_length (listed forms) read }
{
    match forms {
        Forms::None => 0,
        Forms::One(form) => opcodes::length(form),
        Forms::Two(short, long) => two_length(short, long, read),
    }
}

// Of two forms, the first that takes the operand; the second for one that is unresolved.
fn two_length(short: Form, long: Form, read: Option<i64>) -> usize
    ensures { result ≡ form_length (short ∷ long ∷ []) read }
{
    match read {
        None => opcodes::length(long),
        Some(z) if opcodes::takes(short, z) => opcodes::length(short),
        Some(_) => opcodes::length(long),
    }
}
