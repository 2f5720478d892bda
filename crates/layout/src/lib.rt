// The layout of a tape: form and names, then passes until one gives back the numbers that it read.
#![tactic(auto)]

ghost use Rattle.std.specs.Prelude.{◌≡◌, length};
ghost use Rattle.refusals.specs.AnswerAt.{mapped};
ghost use Rattle.passes.specs.Settle.{says_settled, handed};
ghost use Rattle.layout.specs.Layout.{layout_of, noted_of};

use passes::Settled;
use refusals::{Fault, Refusal};

// The greatest place.
const LAST_PLACE: usize = 65536;

// Lays out a tape from an initial place; the nodes that its names reach are noted in lent memory.
pub fn lay_out(tape: &[u8], initial: usize, nodes: &mut [u16]) -> Result<Settled, Fault>
    ensures { (says_settled result ≡ mapped handed (layout_of tape.now initial (length nodes.old)))
        × (nodes.new ≡ noted_of tape.now initial nodes.old) }
{
    if LAST_PLACE < initial {
        return Err(Refusal::Argument.at(0));
    }
    names::declare(tape, nodes)?;
    passes::settle(tape, nodes, initial)
}
