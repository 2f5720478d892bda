// The checker: whether numbers, a start and bytes, from anyone, fit a tape. Form and names as in a build; then each statement is tried
// once, with the given numbers, and what is written is compared. There are no passes, and no memory of the caller is written.
#![tactic(auto)]

ghost use Rattle.std.specs.Prelude.{◌≡◌, ◌≤◌, ◌<◌, length};
ghost use Rattle.refusals.specs.Says.{says_at};
ghost use Rattle.pen.specs.Pens.{size};
ghost use Rattle.edges.specs.Edges.{max_nodes};
ghost use Rattle.form.specs.Form.{max_tape};
ghost use Rattle.form.specs.Statements.{statements};
ghost use Rattle.walk.specs.Walk.{origin};
ghost use Rattle.walk.specs.Values.{declarations};
ghost use Rattle.walk.specs.Numbers.{reads_noted};
ghost use Rattle.checker.specs.Check.{checked_by};
ghost use Rattle.checker.specs.Call.{is_allowed, check_of};

use form::LONGEST;
use pen::SIZE;
use refusals::{Fault, Refusal};

// Whether numbers, one for each label and constant in tape order, a start and the covered bytes fit a tape from an initial place.
#[tactic(auto, unfolding(crate::specs::Call::check_of))]
pub fn check<'a>(
    tape: &'a [u8],
    initial: usize,
    numbers: &'a [i64],
    start: usize,
    bytes: &'a [u8],
) -> Result<(), Fault>
    ensures { says_at result ≡ check_of tape.now initial numbers.now start bytes.now }
{
    if !is_allowed(tape.len(), initial, start, bytes.len()) {
        return Err(Refusal::Argument.at(0));
    }
    let mut nodes = [0u16; LONGEST];
    names::declare(tape, &mut nodes)?;
    check_numbers(tape, &nodes, initial, numbers, start, bytes)
}

// Whether the lengths and the two places are in their ranges.
#[tactic(auto, unfolding(crate::specs::Call::is_allowed))]
fn is_allowed(tape: usize, initial: usize, start: usize, bytes: usize) -> bool
    ensures { result ≡ is_allowed tape initial start bytes }
{
    tape <= LONGEST && initial <= SIZE && start <= SIZE && bytes <= SIZE
}

// The names being resolved: the length of the list, then the statements with its numbers.
#[tactic(auto, unfolding(crate::specs::Check::checked_by, number_list::specs::Calls::spread_of))]
fn check_numbers<'a>(
    tape: &'a [u8],
    nodes: &'a [u16],
    initial: usize,
    numbers: &'a [i64],
    start: usize,
    bytes: &'a [u8],
) -> Result<(), Fault>
    requires { (length tape.now ≤ max_tape) × (initial ≤ size) × (declarations (statements tape.now) < max_nodes) }
    ensures { says_at result
        ≡ checked_by (reads_noted tape.now nodes.now) (statements tape.now) (origin initial)
        numbers.now start bytes.now }
{
    let spread = number_list::spread(tape, numbers);
    if spread.count != numbers.len() {
        return Err(Refusal::NumberDiffers.at(0));
    }
    verdict::judge(tape, nodes, spread.numbers, initial, start, bytes)
}
