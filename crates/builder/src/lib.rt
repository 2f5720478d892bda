// The builder: from a tape to an image. The tape is laid out, and each statement tried with the numbers of its layout; the lent image is
// written where nothing is refused, and the work memory is zero again at the end.
#![tactic(auto)]

ghost use Rattle.std.specs.Prelude.{◌≡◌, ◌≤◌, pos, length, replicate};
ghost use Rattle.pen.specs.Pens.{size};
ghost use Rattle.edges.specs.Edges.{max_nodes};
ghost use Rattle.form.specs.Form.{max_tape};
ghost use Rattle.walk.specs.Walk.{origin};
ghost use Rattle.finish.specs.Finish.{says_built};
ghost use Rattle.builds.specs.Build.{built};
ghost use Rattle.builder.specs.Call.{work_places, is_allowed, memory, build_of};
ghost use Rattle.builder.specs.Steps.{leaving};

pub use finish::Built;
use form::LONGEST;
pub use pen::SIZE;
use refusals::{Fault, Refusal};
use symbols::NODES;

// How many places the work memory has: one for each offset of a tape.
pub const WORK: usize = 65536;

// Builds a tape from an initial place.
#[tactic(auto, unfolding(crate::specs::Call::build_of))]
pub fn build(
    tape: &[u8],
    initial: usize,
    image: &mut [u8],
    numbers: &mut [i64],
    work: &mut [u16],
) -> Result<Built, Fault>
    ensures { (says_built result, memory image.new numbers.new work.new)
        ≡ build_of tape.now initial (memory image.old numbers.old work.old) }
{
    if !is_allowed(tape.len(), initial, image.len(), numbers.len(), work.len()) {
        return Err(Refusal::Argument.at(0));
    }
    number_list::clear(numbers);
    let built = build_laid(tape, initial, image, numbers, work);
    lookup::clear(work);
    built
}

// Whether the lengths and the initial place are in their ranges.
#[tactic(auto, unfolding(crate::specs::Call::is_allowed))]
fn is_allowed(tape: usize, initial: usize, image: usize, list: usize, work: usize) -> bool
    ensures { result ≡ is_allowed tape initial image list work }
{
    tape <= LONGEST && initial <= SIZE && image == SIZE && list == NODES && work == WORK
}

// The build behind its arguments: the layout.
fn build_laid(
    tape: &[u8],
    initial: usize,
    image: &mut [u8],
    list: &mut [i64],
    nodes: &mut [u16],
) -> Result<Built, Fault>
    requires { (length tape.now ≤ max_tape) × (initial ≤ size) × (length image.old ≡ size) × (list.old ≡ replicate max_nodes (pos 0))
        × (length nodes.old ≡ work_places) }
    ensures { ((says_built result, image.new, list.new)
        ≡ leaving image.old list.old (built tape.now (origin initial)))
        × (length nodes.new ≡ length nodes.old) }
{
    let settled = layout::lay_out(tape, initial, nodes)?;
    finish::finish(
        tape,
        nodes,
        settled.numbers,
        settled.passes,
        initial,
        image,
        list,
    )
}
