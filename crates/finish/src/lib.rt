// The end of a build: each statement of a tape whose names have been resolved is tried with the numbers of its layout; where none is
// refused, the lent image is written and the lent list has the numbers.
#![tactic(auto)]

ghost use Rattle.std.specs.Prelude.{◌≡◌};
ghost use Rattle.refusals.specs.AnswerAt.{mapped};
ghost use Rattle.pen.specs.Pens.{size};
ghost use Rattle.compares.specs.Compared.{builder};
ghost use Rattle.tries.specs.Write.{write_of, range_of, says_written};
ghost use Rattle.finish.specs.Finish.{finish_of, says_built};

use pen::SIZE;
use refusals::Fault;
use symbols::Numbers;
use tries::Written;

// A finished build: where what is written starts and ends, how many numbers the list has, and how many passes there were.
#[derive(Clone, Copy, Debug, PartialEq, Eq)]
pub struct Built {
    pub start: usize,
    pub end: usize,
    pub numbers: usize,
    pub passes: usize,
}

// Tries every statement with the numbers, by node, of a layout after so many passes; writes the image and the list if none is refused.
#[tactic(auto, unfolding(crate::specs::Finish::finish_of))]
pub fn finish<'a>(
    tape: &'a [u8],
    nodes: &'a [u16],
    numbers: Numbers,
    passes: usize,
    initial: usize,
    image: &mut [u8],
    list: &mut [i64],
) -> Result<Built, Fault>
    ensures { (says_built result, image.new, list.new)
        ≡ finish_of tape.now nodes.now numbers passes initial image.old list.old }
{
    let written = tries::write(tape, nodes, numbers, initial, compares::builder(), image)?;
    let count = number_list::gather(tape, &numbers, list);
    Ok(Built {
        start: written.start,
        end: written.end,
        numbers: count,
        passes,
    })
}

// Tries every statement, into an image that is not kept.
pub fn tried<'a>(
    tape: &'a [u8],
    nodes: &'a [u16],
    numbers: Numbers,
    initial: usize,
) -> Result<Written, Fault>
    ensures { says_written result
        ≡ mapped range_of (write_of tape.now nodes.now numbers initial builder size) }
{
    let mut image = [0u8; SIZE];
    tries::write(
        tape,
        nodes,
        numbers,
        initial,
        compares::builder(),
        &mut image,
    )
}
