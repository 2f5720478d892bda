// Expressions on a tape, under the Rust's names. An expression is an operator with two expressions behind it, or a factor; a factor
// is flags with an expression behind them, a number, the current place, or a name. Which node a name reaches is found first and
// noted at its offset; what is computed then needs no table.
#![tactic(auto)]

ghost use Rattle.std.specs.Prelude.{◌≡◌, ◌≤◌, length};
ghost use Rattle.refusals.specs.Says.{number_of, says, says_at};
ghost use Rattle.form.specs.Form.{max_tape};
ghost use Rattle.lookup.specs.Notes.{notes_of};
ghost use Rattle.evaluator.specs.Expression as E;
ghost use Rattle.evaluator.specs.Expression.{Refuses, valued, joined, changed, flagged, modified, named, inner_at, leaf, expression, factor};
ghost use Rattle.evaluator.specs.Evaluate.{from_nodes, expression_at, answered, evaluate_of};
ghost use Rattle.evaluator.specs.Steps.{value_from};
ghost use Rattle.evaluator.specs.Says.{says_value, says_step};

use form::{DEEPEST, LONGEST};
use refusals::{Fault, Refusal};
use symbols::{NODES, Numbers, SymbolTable, WORDS};
use tape::{BINARY, CURRENT_PLACE, FLAGS, NUMBER};

// The longest expression whose names are noted in a small array.
const SHORT: usize = 256;

// What an expression comes to: a number; unresolved, with the offset of the first name that is; or refused, with the offset of the
// record that refused. Three cases, since what is unresolved counts as none in a pass and is a refusal in a build.
#[derive(Clone, Copy, Debug, PartialEq, Eq)]
pub enum Value {
    Number(i64),
    Unresolved(usize),
    Refused(Fault),
}

// Where an expression ends, and what it comes to.
#[derive(Clone, Copy, Debug, PartialEq, Eq)]
pub struct Step {
    pub at: usize,
    pub value: Value,
}

// The expression at an offset of a tape. At the offset of a name, `nodes` has one more than the node that it reaches, or 0.
#[tactic(auto, unfolding(crate::specs::Evaluate::expression_at))]
pub fn expression_at<'a>(
    tape: &'a [u8],
    nodes: &'a [u16],
    numbers: &'a Numbers,
    place: i64,
    at: usize,
) -> Step
    ensures { says_step result ≡ expression_at tape.now nodes.now numbers.now place at }
{
    expression(DEEPEST as usize, tape, nodes, numbers, place, at)
}

// The expression alone: its number in a table, from a scope, at a place.
#[tactic(auto, unfolding(crate::specs::Evaluate::evaluate_of))]
pub fn evaluate(expression: &[u8], table: SymbolTable, scope: u16, place: i64) -> Result<i64, Fault>
    ensures { says_at result ≡ evaluate_of expression.now table scope place }
{
    if !soundness::is_node(&table.links, table.edges, table.nodes, scope) {
        return Err(Refusal::Argument.at(0));
    }
    form::expression_form(expression)?;
    answer(value_alone(
        expression,
        &table.links,
        table.edges,
        &table.numbers,
        scope,
        place,
    ))
}

// An expression of at most so many records of depth.
#[tactic(auto, using(crate::proofs::Meanings::depths))]
#[cycle(expression_factor)]
fn expression<'a>(
    depth: usize,
    tape: &'a [u8],
    nodes: &'a [u16],
    numbers: &'a Numbers,
    place: i64,
    at: usize,
) -> Step
    ensures { says_step result ≡ expression tape.now (from_nodes nodes.now numbers.now) place depth at }
{
    if depth == 0 {
        return refused(Refusal::TooDeep, at);
    }
    match inner_at(tape, at, BINARY) {
        Some((byte, next)) => {
            let left = expression(depth - 1, tape, nodes, numbers, place, next);
            let right = expression(depth - 1, tape, nodes, numbers, place, left.at);
            both(at, byte, left, right)
        }
        None => factor(depth, tape, nodes, numbers, place, at),
    }
}

// A factor, likewise.
#[tactic(auto, using(crate::proofs::Meanings::depths))]
#[cycle(expression_factor)]
fn factor<'a>(
    depth: usize,
    tape: &'a [u8],
    nodes: &'a [u16],
    numbers: &'a Numbers,
    place: i64,
    at: usize,
) -> Step
    ensures { says_step result ≡ factor tape.now (from_nodes nodes.now numbers.now) place depth at }
{
    if depth == 0 {
        return refused(Refusal::TooDeep, at);
    }
    match inner_at(tape, at, FLAGS) {
        Some((byte, next)) => {
            let inner = expression(depth - 1, tape, nodes, numbers, place, next);
            under(at, byte, inner)
        }
        None => leaf(tape, nodes, numbers, place, at),
    }
}

// A record that no expression follows.
#[tactic(auto, using(crate::proofs::Meanings::ends), unfolding(crate::specs::Expression::leaf))]
fn leaf<'a>(tape: &'a [u8], nodes: &'a [u16], numbers: &'a Numbers, place: i64, at: usize) -> Step
    ensures { says_step result ≡ leaf tape.now (from_nodes nodes.now numbers.now) place at }
{
    let rec = tape::record(tape, at);
    let kind = little::u8_at(rec, 0);
    if kind == NUMBER {
        return found(at + rec.len(), little::i64_at(rec, 1));
    }
    if kind == CURRENT_PLACE {
        return found(at + rec.len(), place);
    }
    if tape::is_name(kind) {
        let reached = number_of(nodes, numbers, at);
        return Step {
            at: at + rec.len(),
            value: named(little::u8_at(rec, 1), at, reached),
        };
    }
    refused(Refusal::BadRecord, at)
}

// A number, where it ends.
fn found(at: usize, number: i64) -> Step
    ensures { says_step result ≡ (at, E.Number number) }
{
    Step {
        at,
        value: Value::Number(number),
    }
}

// A refusal of the record at an offset.
fn refused(why: Refusal, at: usize) -> Step
    ensures { says_step result ≡ (at, Refuses (number_of why) at) }
{
    Step {
        at,
        value: Value::Refused(why.at(at)),
    }
}

// Of a record of this kind that expressions follow, its byte and where it ends; none where another stands there.
#[tactic(auto, using(crate::proofs::Meanings::ends), unfolding(crate::specs::Expression::inner_at))]
fn inner_at(tape: &[u8], at: usize, kind: u8) -> Option<(u8, usize)>
    ensures { result ≡ inner_at tape.now at kind }
{
    let rec = tape::record(tape, at);
    if little::u8_at(rec, 0) != kind {
        return None;
    }
    Some((little::u8_at(rec, 1), at + rec.len()))
}

// What the record at an offset makes of the expressions to its left and right.
fn both(at: usize, op: u8, left: Step, right: Step) -> Step
    ensures { says_step result ≡ (right.at, joined at op (says_value left.value) (says_value right.value)) }
{
    Step {
        at: right.at,
        value: join(at, op, left.value, right.value),
    }
}

// Left refusal, right refusal, unresolved, own refusal: in that order.
fn join(at: usize, op: u8, left: Value, right: Value) -> Value
    ensures { says_value result ≡ joined at op (says_value left) (says_value right) }
{
    match left {
        Value::Refused(_) => left,
        Value::Unresolved(_) => match right {
            Value::Refused(_) => right,
            Value::Unresolved(_) => left,
            Value::Number(_) => left,
        },
        Value::Number(a) => match right {
            Value::Refused(_) => right,
            Value::Unresolved(_) => right,
            Value::Number(b) => value_of(at, operators::apply_i64(op, a, b)),
        },
    }
}

// What the flags at an offset make of the expression behind them.
fn under(at: usize, flags: u8, inner: Step) -> Step
    ensures { says_step result ≡ (inner.at, changed at flags (says_value inner.value)) }
{
    Step {
        at: inner.at,
        value: change(at, flags, inner.value),
    }
}

// What flags make of a value.
fn change(at: usize, flags: u8, value: Value) -> Value
    ensures { says_value result ≡ changed at flags (says_value value) }
{
    match value {
        Value::Refused(_) => value,
        Value::Unresolved(_) => value,
        Value::Number(a) => value_of(at, flag(flags, a)),
    }
}

// NOT, NEG, or NOT and then NEG.
#[tactic(auto, unfolding(crate::specs::Expression::flagged))]
fn flag(flags: u8, a: i64) -> Result<i64, Refusal>
    ensures { says result ≡ flagged flags a }
{
    match flags {
        1 => Ok(operators::not(a)),
        2 => int64::neg(a),
        _ => int64::neg(operators::not(a)),
    }
}

// What arithmetic answers at a record.
fn value_of(at: usize, answer: Result<i64, Refusal>) -> Value
    ensures { says_value result ≡ valued at (says answer) }
{
    match answer {
        Ok(z) => Value::Number(z),
        Err(why) => Value::Refused(why.at(at)),
    }
}

// A name's value: its number, or a byte of it.
fn named(modifier: u8, at: usize, reached: Option<i64>) -> Value
    ensures { says_value result ≡ named modifier at reached }
{
    match reached {
        Some(z) => Value::Number(modified(modifier, z)),
        None => Value::Unresolved(at),
    }
}

// The number, its low byte or its high byte.
#[tactic(auto, unfolding(crate::specs::Expression::modified))]
fn modified(modifier: u8, z: i64) -> i64
    ensures { result ≡ modified modifier z }
{
    match modifier {
        0 => z,
        1 => i64::from(int64::low_byte(z)),
        _ => i64::from(int64::high_byte(z)),
    }
}

// The number of the node that is noted at an offset, if one is noted and it has a number.
#[tactic(auto, unfolding(crate::specs::Evaluate::from_nodes))]
fn number_of<'a>(nodes: &'a [u16], numbers: &'a Numbers, at: usize) -> Option<i64>
    ensures { result ≡ from_nodes nodes.now numbers.now at }
{
    let noted = *nodes.get(at)? as usize;
    if noted == 0 || NODES < noted {
        return None;
    }
    numbers[noted - 1]
}

// What an expression alone answers: 10 and 11 at 0.
fn answer(value: Value) -> Result<i64, Fault>
    ensures { says_at result ≡ answered (says_value value) }
{
    match value {
        Value::Number(z) => Ok(z),
        Value::Unresolved(_) => Err(Refusal::Unresolved.at(0)),
        Value::Refused(fault) => Err(fault.why.at(0)),
    }
}

// The value of an expression alone. The nodes of its names are noted in an array, a small one where that is enough.
fn value_alone<'a>(
    bytes: &'a [u8],
    links: &'a [u16; WORDS],
    edges: usize,
    numbers: &'a Numbers,
    scope: u16,
    place: i64,
) -> Value
    requires { length bytes.now ≤ max_tape }
    ensures { says_value result ≡ value_from bytes.now links.now edges numbers.now scope place }
{
    if bytes.len() <= SHORT {
        let mut nodes = [0u16; SHORT];
        value_with(bytes, links, edges, numbers, scope, place, &mut nodes)
    } else {
        let mut nodes = [0u16; LONGEST];
        value_with(bytes, links, edges, numbers, scope, place, &mut nodes)
    }
}

// The same, with memory for the notes.
fn value_with<'a>(
    bytes: &'a [u8],
    links: &'a [u16; WORDS],
    edges: usize,
    numbers: &'a Numbers,
    scope: u16,
    place: i64,
    nodes: &mut [u16],
) -> Value
    requires { length bytes.now ≤ length nodes.old }
    ensures { says_value result ≡ value_from bytes.now links.now edges numbers.now scope place }
{
    resolve(bytes, links, edges, scope, nodes);
    expression_at(bytes, nodes, numbers, place, 0).value
}

// Notes at the offset of each name the node that it reaches.
fn resolve<'a>(
    bytes: &'a [u8],
    links: &'a [u16; WORDS],
    edges: usize,
    scope: u16,
    nodes: &mut [u16],
)
    ensures { nodes.new
        ≡ notes_of bytes.now links.now edges (λ _. scope) nodes.old }
{
    let mut at: usize = 0;
    // A record's length is the step of this walk: no index is counted.
    while at < bytes.len() {
        let rec = tape::record(bytes, at);
        if rec.len() == 0 {
            return;
        }
        lookup::note(nodes, at, rec, links, edges, scope);
        at += rec.len();
    }
}
