// A walk over a tape whose names have been resolved: what it carries from one statement to the next, the numbers that it reads, and
// what an expression comes to with them. Passes and tries both walk so.
#![tactic(auto)]

ghost use Rattle.std.specs.Prelude.{◌≡◌};
ghost use Rattle.evaluator.specs.Says.{says_value};
ghost use Rattle.walk.specs.Walk.{moved_to};
ghost use Rattle.walk.specs.Values.{number_of};
ghost use Rattle.walk.specs.Numbers.{numbers_in, value_of};

use evaluator::Value;
use symbols::Numbers;

// The greatest place.
const LAST_PLACE: usize = 65536;

// Between two statements: the place of the next byte, and how many names are declared.
#[derive(Clone, Copy, Debug, PartialEq, Eq)]
pub struct Walk {
    pub place: usize,
    pub names: usize,
}

// What the expression behind a statement's record comes to; it begins at the offset `at`. Unresolved where there is none.
pub fn value_of<'a>(
    tape: &'a [u8],
    nodes: &'a [u16],
    numbers: &'a Numbers,
    place: i64,
    rec: &'a [u8],
    at: usize,
) -> Value
    ensures { says_value result ≡ value_of tape.now nodes.now (numbers_in numbers.now) place rec.now at }
{
    if !form::is_followed(rec) {
        return Value::Unresolved(at);
    }
    evaluator::expression_at(tape, nodes, numbers, place, at).value
}

// What an expression counts for in a pass: a number, or unresolved.
pub fn number_of(value: Value) -> Option<i64>
    ensures { result ≡ number_of (says_value value) }
{
    match value {
        Value::Number(z) => Some(z),
        Value::Unresolved(_) => None,
        Value::Refused(_) => None,
    }
}

// Where a set place leads: nowhere if unresolved or out of range.
pub fn moved_to(read: Option<i64>, place: usize) -> usize
    ensures { result ≡ moved_to read place }
{
    match read {
        None => place,
        Some(z) if 0 <= z && z <= LAST_PLACE as i64 => z as usize,
        Some(_) => place,
    }
}
