// The last walk over a tape: each statement is tried, in tape order, and what it writes is drawn into an image. The lent image is
// written once every statement has passed.
#![tactic(auto)]

ghost use Rattle.std.specs.Prelude.{true, false, [], ◌∷◌, ◌≡◌, ◌+◌, ◌≤◌, ◌<◌, suc, length, get_or, replicate};
ghost use Rattle.refusals.specs.Answer.{pick, mapped};
ghost use Rattle.refusals.specs.AnswerAt as At;
ghost use Rattle.refusals.specs.AnswerAt.{Fine};
ghost use Rattle.refusals.specs.Says.{says, says_at};
ghost use Rattle.refusals.specs.Table.{outside};
ghost use Rattle.opcodes.specs.Encode.{code, low_first, encode_of};
ghost use Rattle.pen.specs.Pens.{size, begun};
ghost use Rattle.form.specs.Form.{max_tape};
ghost use Rattle.form.specs.Statements.{what_of, is_followed, statements, placed};
ghost use Rattle.evaluator.specs.Expression as E;
ghost use Rattle.evaluator.specs.Says.{says_value};
ghost use Rattle.walk.specs.Numbers.{numbers_in, reads_noted};
ghost use Rattle.walk.specs.Walk.{origin, is_place};
ghost use Rattle.tries.specs.Try.{compared, instruction_of, try_of};
ghost use Rattle.tries.specs.Tries.{page, drawn, trying, start, tries};
ghost use Rattle.tries.specs.Write.{write_of, range_of, says_written, image_or};
ghost use Rattle.tries.specs.Steps.{bytes_in, says_drawn, says_stepped, place_behind, walk_behind, tried_over};

use compares::Compares;
use evaluator::Value;
use form::LONGEST;
use opcodes::Code;
use pen::{Pen, SIZE};
use refusals::{Fault, Refusal};
use symbols::Numbers;
use tape::{BYTE, CLOSE_SCOPE, CONSTANT, INSTRUCTION, LABEL, OPEN_SCOPE, SET_PLACE};
use walk::Walk;

// Where what is written starts and ends.
#[derive(Clone, Copy, Debug, PartialEq, Eq)]
pub struct Written {
    pub start: usize,
    pub end: usize,
}

// The pen and the walk behind a record.
#[derive(Clone, Copy)]
struct Stepped {
    pen: Pen,
    walk: Walk,
}

// Tries every statement with these numbers, and writes the image if none is refused.
#[tactic(auto, unfolding(crate::specs::Write::write_of, crate::specs::Write::is_allowed))]
pub fn write<'a>(
    tape: &'a [u8],
    nodes: &'a [u16],
    numbers: Numbers,
    initial: usize,
    compares: Compares,
    image: &mut [u8],
) -> Result<Written, Fault>
    ensures { (says_written result
        ≡ At.mapped range_of (write_of tape.now nodes.now numbers initial compares (length image.old)))
        × (image.new
        ≡ image_or image.old
        (write_of tape.now nodes.now numbers initial compares (length image.old))) }
{
    if LONGEST < tape.len() {
        return Err(Refusal::Argument.at(0));
    }
    if SIZE < initial {
        return Err(Refusal::Argument.at(0));
    }
    if image.len() != SIZE {
        return Err(Refusal::Argument.at(0));
    }
    let mut scratch = [0u8; SIZE];
    let written = draw_all(tape, nodes, &numbers, initial, compares, &mut scratch)?;
    image.copy_from_slice(&scratch);
    Ok(written)
}

// Tries every statement, and draws what it writes into an image of zeros.
fn draw_all<'a>(
    tape: &'a [u8],
    nodes: &'a [u16],
    numbers: &'a Numbers,
    initial: usize,
    compares: Compares,
    image: &mut [u8],
) -> Result<Written, Fault>
    requires { (length tape.now ≤ max_tape) × (initial ≤ size) × (image.old ≡ replicate size 0) }
    ensures { (says_written result ≡ At.mapped range_of (tries (reads_noted tape.now nodes.now) compares
        (numbers_in numbers.now) (start (origin initial)) (statements tape.now)))
        × (image.new ≡ image_or image.new (tries (reads_noted tape.now nodes.now) compares
        (numbers_in numbers.now) (start (origin initial)) (statements tape.now))) }
{
    let mut pen = pen::begin(initial, initial);
    let mut walk = Walk {
        place: initial,
        names: 0,
    };
    let mut at: usize = 0;
    // A record's length is the step of this walk: no index is counted.
    while at < tape.len() {
        let rec = tape::record(tape, at);
        if form::is_last(rec) {
            return Ok(range(pen));
        }
        let stepped = advance(tape, nodes, numbers, compares, pen, walk, rec, at, image)?;
        pen = stepped.pen;
        walk = stepped.walk;
        at += rec.len();
    }
    Ok(range(pen))
}

// Where what a pen wrote starts and ends.
fn range(pen: Pen) -> Written
    ensures { result ≡ record { start = pen.start; end = pen.end } }
{
    Written {
        start: pen.start,
        end: pen.end,
    }
}

// One record: a statement is tried, and its bytes are drawn; those of expressions are passed over.
fn advance<'a>(
    tape: &'a [u8],
    nodes: &'a [u16],
    numbers: &'a Numbers,
    compares: Compares,
    pen: Pen,
    walk: Walk,
    rec: &'a [u8],
    at: usize,
    image: &mut [u8],
) -> Result<Stepped, Fault>
    requires { (walk.place ≤ size) × (walk.names < size) × (at + length rec.now ≤ size) }
    ensures { says_stepped result image.new
        ≡ tried_over (reads_noted tape.now nodes.now) compares (numbers_in numbers.now)
        (trying walk (page pen image.old)) at rec.now }
{
    if form::is_inner(rec) {
        return Ok(Stepped { pen, walk });
    }
    let place = walk.place as i64;
    let value = walk::value_of(tape, nodes, numbers, place, rec, at + rec.len());
    let own = own_number(numbers, walk.names);
    let code = attempt(compares, own, place, rec, at, value)?;
    put(pen, walk, little::u8_at(rec, 0), at, value, code, image)
}

// The number in the list of the name that is declared next.
#[tactic(auto, unfolding(walk::specs::Numbers::numbers_in))]
fn own_number<'a>(numbers: &'a Numbers, names: usize) -> Option<i64>
    requires { names < size }
    ensures { result ≡ numbers_in numbers.now (suc names) }
{
    let node = names + 1;
    numbers.get(node).copied().flatten()
}

// Draws the bytes of a statement that passed, and moves the walk behind it.
fn put(
    pen: Pen,
    walk: Walk,
    kind: u8,
    at: usize,
    value: Value,
    code: Code,
    image: &mut [u8],
) -> Result<Stepped, Fault>
    requires { (walk.place ≤ size) × (walk.names < size) × (code.len ≤ 3) }
    ensures { says_stepped result image.new
        ≡ At.mapped (λ p. trying (walk_behind walk kind (says_value value) code.len) p)
        (placed at (drawn (page pen image.old) walk.place (bytes_in code))) }
{
    let moved = draw(pen, walk.place, code, image).map_err(|why| why.at(at))?;
    Ok(Stepped {
        pen: moved,
        walk: behind(walk, kind, value, code.len as usize),
    })
}

// The pen goes to a place and writes there; no bytes are no write.
fn draw(pen: Pen, place: usize, code: Code, image: &mut [u8]) -> Result<Pen, Refusal>
    requires { code.len ≤ 3 }
    ensures { says_drawn result image.new ≡ drawn (page pen image.old) place (bytes_in code) }
{
    if code.len == 0 {
        return Ok(pen);
    }
    let there = segment::set_pc(pen, place)?;
    let bytes = [code.b0, code.b1, code.b2];
    segment::emit(there, image, &bytes[..code.len as usize])
}

// The walk behind a record of this kind that wrote so many bytes.
#[tactic(auto, unfolding(crate::specs::Steps::walk_behind))]
fn behind(walk: Walk, kind: u8, value: Value, len: usize) -> Walk
    requires { (walk.place ≤ size) × (walk.names < size) × (len ≤ 3) }
    ensures { result ≡ walk_behind walk kind (says_value value) len }
{
    Walk {
        place: place_behind(kind, value, walk.place, len),
        names: walk.names + form::names_in(kind),
    }
}

// The place behind it.
#[tactic(auto, unfolding(crate::specs::Steps::place_behind))]
fn place_behind(kind: u8, value: Value, place: usize, len: usize) -> usize
    requires { (place ≤ size) × (len ≤ 3) }
    ensures { result ≡ place_behind kind (says_value value) place len }
{
    if kind == SET_PLACE {
        return walk::moved_to(walk::number_of(value), place);
    }
    place + len
}

// A statement with the offset `at`, tried at a place: its expression comes to `value`, and its name has the number `own` in the list.
#[tactic(auto, unfolding(form::specs::Statements::what_of))]
pub fn attempt(
    compares: Compares,
    own: Option<i64>,
    place: i64,
    rec: &[u8],
    at: usize,
    value: Value,
) -> Result<Code, Fault>
    ensures { says_at result ≡ At.mapped code (try_of compares own place at (what_of rec.now) (says_value value)) }
{
    if !form::is_followed(rec) {
        return attempt_alone(compares, own, place, rec, at);
    }
    match value {
        Value::Unresolved(_) => Err(Refusal::Unresolved.at(at)),
        Value::Refused(fault) => Err(fault.why.at(at)),
        Value::Number(z) => attempt_with(compares, own, place, rec, at, z),
    }
}

// A statement without an expression.
#[tactic(auto, unfolding(form::specs::Statements::what_of))]
fn attempt_alone(
    compares: Compares,
    own: Option<i64>,
    place: i64,
    rec: &[u8],
    at: usize,
) -> Result<Code, Fault>
    requires { is_followed (what_of rec.now) ≡ false }
    ensures { (v : E.Value) → says_at result
        ≡ At.mapped code (try_of compares own place at (what_of rec.now) v) }
{
    let kind = little::u8_at(rec, 0);
    if kind == INSTRUCTION {
        return encode(rec, 0).map_err(|why| why.at(at));
    }
    if kind == LABEL {
        return compare(compares.label, own, place, at);
    }
    if kind == OPEN_SCOPE {
        return Ok(nothing());
    }
    if kind == CLOSE_SCOPE {
        return Ok(nothing());
    }
    Ok(byte(text_encoding::petscreen(little::u8_at(rec, 1))))
}

// A statement whose expression is a number.
#[tactic(auto, unfolding(form::specs::Statements::what_of))]
fn attempt_with(
    compares: Compares,
    own: Option<i64>,
    place: i64,
    rec: &[u8],
    at: usize,
    z: i64,
) -> Result<Code, Fault>
    requires { is_followed (what_of rec.now) ≡ true }
    ensures { says_at result ≡ At.mapped code (try_of compares own place at (what_of rec.now) (E.Number z)) }
{
    let kind = little::u8_at(rec, 0);
    if kind == INSTRUCTION {
        return instruction(rec, place, z).map_err(|why| why.at(at));
    }
    if kind == CONSTANT {
        return compare(compares.constant, own, z, at);
    }
    if kind == SET_PLACE {
        return place_only(z, at);
    }
    if kind == BYTE {
        return Ok(byte(int64::low_byte(z)));
    }
    Ok(word(int64::low_word(z)))
}

// No bytes.
fn nothing() -> Code
    ensures { result ≡ code [] }
{
    Code {
        len: 0,
        b0: 0,
        b1: 0,
        b2: 0,
    }
}

// One byte.
fn byte(b: u8) -> Code
    ensures { result ≡ code (b ∷ []) }
{
    Code {
        len: 1,
        b0: b,
        b1: 0,
        b2: 0,
    }
}

// Two bytes, low first.
fn word(w: u16) -> Code
    ensures { result ≡ code (low_first 2 w) }
{
    Code {
        len: 2,
        b0: (w % 256) as u8,
        b1: (w / 256) as u8,
        b2: 0,
    }
}

// A number against the one in the list, by the refusal that a difference gives.
fn compare(refusal: Option<Refusal>, own: Option<i64>, z: i64, at: usize) -> Result<Code, Fault>
    ensures { says_at result ≡ At.mapped code (compared refusal own z at) }
{
    match refusal {
        None => Ok(nothing()),
        Some(why) => {
            if own == Some(z) {
                Ok(nothing())
            } else {
                Err(why.at(at))
            }
        }
    }
}

// No bytes, where the number is a place.
fn place_only(z: i64, at: usize) -> Result<Code, Fault>
    ensures { says_at result ≡ At.mapped code (pick (is_place z) (Fine []) (At.Fault outside at)) }
{
    if z < 0 {
        return Err(Refusal::Outside.at(at));
    }
    if (SIZE as i64) < z {
        return Err(Refusal::Outside.at(at));
    }
    Ok(nothing())
}

// The bytes of an instruction's record with an operand.
fn encode(rec: &[u8], operand: i64) -> Result<Code, Refusal>
    ensures { says result
        ≡ mapped code (encode_of (get_or rec.now 1 0) (get_or rec.now 2 0) (get_or rec.now 3 0) operand) }
{
    opcodes::encode(
        little::u8_at(rec, 1),
        little::u8_at(rec, 2),
        little::u8_at(rec, 3),
        operand,
    )
}

// The bytes of an instruction at a place: a branch has its distance for an operand.
#[tactic(auto, unfolding(crate::specs::Try::instruction_of))]
fn instruction(rec: &[u8], place: i64, z: i64) -> Result<Code, Refusal>
    ensures { says result
        ≡ mapped code (instruction_of (get_or rec.now 1 0) (get_or rec.now 2 0) (get_or rec.now 3 0) place z) }
{
    if !opcodes::is_branch(
        little::u8_at(rec, 1),
        little::u8_at(rec, 2),
        little::u8_at(rec, 3),
    ) {
        return encode(rec, z);
    }
    let distance = branch::distance_of(place, z)?;
    encode(rec, i64::from(distance))
}
