// The form of a tape, and of an expression alone. One step over a record, with a small state: how many scopes are open, and the
// depths of the expressions still to come.
#![tactic(auto)]

ghost use Rattle.std.specs.Prelude.{◌&&◌, ◌≡◌, ◌∷◌, ◌++◌, ◌+◌, ◌-◌, ◌≤◌, ◌<◌, min, eqb, ltb, drop, replicate};
ghost use Rattle.refusals.specs.Answer.{pick};
ghost use Rattle.refusals.specs.AnswerAt as answered;
ghost use Rattle.refusals.specs.Says.{says_at};
ghost use Rattle.refusals.specs.Table.{cut_short};
ghost use Rattle.form.specs.Form.{max_tape, pending, top, begin, expression_fault, outside_fault, head_fault, range_fault, instruction_fault, id_fault, declares, is_numbered, body_fault, scope_fault, fault_of, has_expression, followed, scopes_after, after, step_of, form_of, tape_form, expression_form};
ghost use Rattle.form.specs.Statements.{is_last, is_inner, is_followed, what_of};
ghost use Rattle.form.specs.Says.{fault_number};
ghost use Rattle.form.specs.Steps.{places, Fit, FitBehind, Ready, view, says_stepped};

use opcodes::Forms;
use refusals::{Fault, Refusal};
use tape::{
    BINARY, BYTE, CLOSE_SCOPE, CONSTANT, END, FLAGS, INSTRUCTION, LABEL, OPEN_SCOPE, SET_PLACE,
    WORD,
};

// How many bytes a tape has at most.
pub const LONGEST: usize = 65536;

// The deepest that an expression record may stand.
pub const DEEPEST: u8 = 64;

// The mode of an instruction without an operand.
const IMPLIED: u8 = 0;

// How many depths the state has room for.
const PLACES: usize = 66;

// The open scopes; and the depths of the expressions still to come, the next first, from the place `from` of the array on.
#[derive(Clone, Copy, Debug, PartialEq, Eq)]
struct State {
    scopes: usize,
    from: usize,
    depths: [u8; PLACES],
}

// Whether no statement stands behind a record: it is the end record, or there is none.
pub fn is_last(rec: &[u8]) -> bool
    ensures { result ≡ is_last rec.now }
{
    rec.is_empty() || rec[0] == END
}

// Whether a record belongs to an expression.
pub fn is_inner(rec: &[u8]) -> bool
    ensures { result ≡ is_inner rec.now }
{
    little::u8_at(rec, 0) < INSTRUCTION
}

// Whether an expression follows a statement.
pub fn is_followed(rec: &[u8]) -> bool
    ensures { result ≡ is_followed (what_of rec.now) }
{
    let kind = little::u8_at(rec, 0);
    if kind == INSTRUCTION {
        return little::u8_at(rec, 2) != IMPLIED;
    }
    has_expression(kind)
}

// The form of a whole tape.
pub fn form(tape: &[u8]) -> Result<(), Fault>
    ensures { says_at result ≡ tape_form tape.now }
{
    check(tape, false)
}

// The form of an expression alone.
pub fn expression_form(bytes: &[u8]) -> Result<(), Fault>
    ensures { says_at result ≡ expression_form bytes.now }
{
    check(bytes, true)
}

// Both: record by record, until one is refused or the bytes are at their end.
fn check(bytes: &[u8], alone: bool) -> Result<(), Fault>
    ensures { says_at result ≡ form_of alone bytes.now }
{
    let len = bytes.len();
    if LONGEST < len {
        return Err(Refusal::Argument.at(0));
    }
    let mut s = start(alone);
    let mut at: usize = 0;
    // A record's length is the step of this walk: no index is counted.
    while at < len {
        head_fault(alone, depth(s), bytes[at]).map_err(|why| why.at(at))?;
        let rec = tape::record(bytes, at);
        let n = rec.len();
        if n == 0 {
            return Err(Refusal::CutShort.at(at));
        }
        match step(s, rec).map_err(|why| why.at(at))? {
            None => return ended(at + n, len),
            Some(t) => {
                s = t;
                at += n;
            }
        }
    }
    closed(alone, depth(s), len)
}

// Behind the end record nothing stands.
fn ended(end: usize, len: usize) -> Result<(), Fault>
    ensures { says_at result ≡ pick (ltb end len) (answered.Fault cut_short end) (answered.Fine tt) }
{
    if end < len {
        return Err(Refusal::CutShort.at(end));
    }
    Ok(())
}

// Where the bytes are at their end without an end record: an expression alone may end where nothing is to come.
fn closed(alone: bool, d: u8, len: usize) -> Result<(), Fault>
    ensures { says_at result ≡ pick (alone && eqb d 0) (answered.Fine tt) (answered.Fault cut_short len) }
{
    if alone && d == 0 {
        return Ok(());
    }
    Err(Refusal::CutShort.at(len))
}

// Before the first record.
fn start(alone: bool) -> State
    ensures { (view result ≡ begin alone) × Fit result }
{
    let empty = State {
        scopes: 0,
        from: PLACES,
        depths: [0; PLACES],
    };
    if alone { pushed(empty, 1) } else { empty }
}

// The depth of the expression that is to come, 0 where none is.
fn depth(s: State) -> u8
    requires { Fit s }
    ensures { result ≡ top (view s).depths }
{
    let from = s.from;
    if from < PLACES { s.depths[from] } else { 0 }
}

// Without the next depth.
fn popped(s: State) -> State
    requires { Fit s }
    ensures { (view result ≡ pending s.scopes (drop 1 (view s).depths)) × Fit result × (result.from ≡ min (s.from + 1) places) }
{
    let from = s.from;
    if from < PLACES {
        State {
            from: from + 1,
            ..s
        }
    } else {
        s
    }
}

// With one more depth, the next.
fn pushed(s: State, d: u8) -> State
    requires { (0 < s.from) × Fit s }
    ensures { (view result ≡ pending s.scopes (d ∷ (view s).depths)) × Fit result × (result.from + 1 ≡ s.from) }
{
    let at = s.from - 1;
    let mut t = s;
    t.depths[at] = d;
    t.from = at;
    t
}

// With n expressions of depth d to come.
fn pushed_all(s: State, n: usize, d: u8) -> State
    requires { (Fit s) × (n ≤ 2) × (2 ≤ s.from) }
    ensures { (view result ≡ pending s.scopes (replicate n d ++ (view s).depths)) × Fit result }
{
    if n == 0 {
        return s;
    }
    if n == 1 {
        return pushed(s, d);
    }
    pushed(pushed(s, d), d)
}

// Refuses a kind where an expression of depth d is to come, or, at 0, none.
#[tactic(auto, unfolding(crate::specs::Form::head_fault))]
fn head_fault(alone: bool, d: u8, kind: u8) -> Result<(), Refusal>
    ensures { fault_number result ≡ head_fault alone d kind }
{
    if d == 0 {
        outside_fault(alone, kind)
    } else {
        expression_fault(d, kind)
    }
}

// The same where an expression record of depth d is to come.
#[tactic(auto, unfolding(crate::specs::Form::expression_fault))]
fn expression_fault(d: u8, kind: u8) -> Result<(), Refusal>
    ensures { fault_number result ≡ expression_fault d kind }
{
    if !tape::is_expression(kind) {
        return Err(Refusal::BadRecord);
    }
    if DEEPEST < d {
        return Err(Refusal::TooDeep);
    }
    Ok(())
}

// The same where none is.
#[tactic(auto, unfolding(crate::specs::Form::outside_fault))]
fn outside_fault(alone: bool, kind: u8) -> Result<(), Refusal>
    ensures { fault_number result ≡ outside_fault alone kind }
{
    if alone {
        return Err(Refusal::CutShort);
    }
    if !tape::is_statement(kind) {
        return Err(Refusal::BadRecord);
    }
    Ok(())
}

// Refuses a byte that is not from `least` to `most`.
#[tactic(auto, unfolding(crate::specs::Form::range_fault))]
fn range_fault(least: u8, most: u8, a: u8) -> Result<(), Refusal>
    ensures { fault_number result ≡ range_fault least most a }
{
    if a < least || most < a {
        return Err(Refusal::BadRecord);
    }
    Ok(())
}

// Refuses the body of an instruction.
#[tactic(auto, unfolding(crate::specs::Form::instruction_fault))]
fn instruction_fault(mnemonic: u8, mode: u8, suffix: u8) -> Result<(), Refusal>
    ensures { fault_number result ≡ instruction_fault mnemonic mode suffix }
{
    if !opcodes::in_range(mnemonic, mode, suffix) {
        return Err(Refusal::BadRecord);
    }
    match opcodes::forms_of(mnemonic, mode, suffix) {
        Forms::None => Err(Refusal::NoRow),
        Forms::One(_) => Ok(()),
        Forms::Two(_, _) => Ok(()),
    }
}

// Refuses the id of a declaration.
#[tactic(auto, unfolding(crate::specs::Form::id_fault))]
fn id_fault(id: u16) -> Result<(), Refusal>
    ensures { fault_number result ≡ id_fault id }
{
    if id == 0 {
        return Err(Refusal::BadRecord);
    }
    Ok(())
}

// Refuses the body of a record.
#[tactic(auto, unfolding(crate::specs::Form::body_fault))]
fn body_fault(rec: &[u8]) -> Result<(), Refusal>
    ensures { fault_number result ≡ body_fault rec.now }
{
    let kind = little::u8_at(rec, 0);
    if kind == INSTRUCTION {
        return instruction_fault(
            little::u8_at(rec, 1),
            little::u8_at(rec, 2),
            little::u8_at(rec, 3),
        );
    }
    if kind == FLAGS {
        return range_fault(1, 3, little::u8_at(rec, 1));
    }
    if kind == BINARY {
        return range_fault(0, 15, little::u8_at(rec, 1));
    }
    if tape::is_name(kind) {
        return range_fault(0, 2, little::u8_at(rec, 1));
    }
    if declares(kind) {
        return id_fault(little::u16_at(rec, 1));
    }
    Ok(())
}

// Whether a record of this kind declares a name.
#[tactic(auto, unfolding(crate::specs::Form::declares))]
pub fn declares(kind: u8) -> bool
    ensures { result ≡ declares kind }
{
    kind == OPEN_SCOPE || kind == LABEL || kind == CONSTANT
}

// Whether what a record of this kind declares has a number: labels and constants.
#[tactic(auto, unfolding(crate::specs::Form::is_numbered))]
pub fn is_numbered(kind: u8) -> bool
    ensures { result ≡ is_numbered kind }
{
    kind == LABEL || kind == CONSTANT
}

// How many names a record of this kind declares.
pub fn names_in(kind: u8) -> usize
    ensures { result ≡ pick (declares kind) 1 0 }
{
    usize::from(declares(kind))
}

// Refuses a record by the scopes that are open.
#[tactic(auto, unfolding(crate::specs::Form::scope_fault))]
fn scope_fault(scopes: usize, kind: u8) -> Result<(), Refusal>
    ensures { fault_number result ≡ scope_fault scopes kind }
{
    if kind == CLOSE_SCOPE && scopes == 0 {
        return Err(Refusal::Unpaired);
    }
    if kind == END && scopes != 0 {
        return Err(Refusal::Unpaired);
    }
    Ok(())
}

// Refuses a whole record.
#[tactic(auto, unfolding(crate::specs::Form::fault_of))]
fn fault(scopes: usize, rec: &[u8]) -> Result<(), Refusal>
    ensures { fault_number result ≡ fault_of scopes rec.now }
{
    body_fault(rec)?;
    scope_fault(scopes, little::u8_at(rec, 0))
}

// How many expressions follow a record.
#[tactic(auto, unfolding(crate::specs::Form::followed))]
fn followers(kind: u8, mode: u8) -> usize
    ensures { result ≡ followed kind mode }
{
    if kind == BINARY {
        return 2;
    }
    if kind == FLAGS {
        return 1;
    }
    if kind == INSTRUCTION {
        return usize::from(mode != IMPLIED);
    }
    usize::from(has_expression(kind))
}

// Whether one expression always follows a statement of this kind.
#[tactic(auto, unfolding(crate::specs::Form::has_expression))]
fn has_expression(kind: u8) -> bool
    ensures { result ≡ has_expression kind }
{
    kind == CONSTANT || kind == SET_PLACE || kind == BYTE || kind == WORD
}

// How many scopes are open behind a record of this kind, where n are.
#[tactic(auto, unfolding(crate::specs::Form::scopes_after))]
fn scopes_after(n: usize, kind: u8) -> usize
    requires { n < max_tape }
    ensures { result ≡ scopes_after n kind }
{
    if kind == OPEN_SCOPE {
        return n + 1;
    }
    if kind == CLOSE_SCOPE {
        return n.saturating_sub(1);
    }
    n
}

// Behind a record that brought no refusal.
fn moved(s: State, rec: &[u8]) -> State
    requires { Ready s }
    ensures { (view result ≡ after (view s) rec.now) × Fit result }
{
    let kind = little::u8_at(rec, 0);
    let d = depth(s) + 1;
    let n = followers(kind, little::u8_at(rec, 2));
    let t = State {
        scopes: scopes_after(s.scopes, kind),
        ..popped(s)
    };
    pushed_all(t, n, d)
}

// One whole record, whose kind is in its place: the state behind it, or none behind the end record.
#[tactic(auto, unfolding(crate::specs::Form::step_of))]
fn step(s: State, rec: &[u8]) -> Result<Option<State>, Refusal>
    requires { Ready s }
    ensures { (says_stepped s result ≡ step_of (view s) rec.now) × FitBehind result }
{
    fault(s.scopes, rec)?;
    if little::u8_at(rec, 0) == END {
        return Ok(None);
    }
    Ok(Some(moved(s, rec)))
}
