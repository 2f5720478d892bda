// The verdict on numbers, a start and bytes, from anyone, for a tape whose names have been resolved: each statement is tried once with
// these numbers, and what is written is compared.
#![tactic(auto)]

ghost use Rattle.std.specs.Prelude.{◌&&◌, ◌≡◌, ◌≤◌, eqb, length};
ghost use Rattle.refusals.specs.Answer.{pick};
ghost use Rattle.refusals.specs.AnswerAt as At;
ghost use Rattle.refusals.specs.AnswerAt.{Fine};
ghost use Rattle.refusals.specs.Says.{says_at};
ghost use Rattle.refusals.specs.Table.{bytes_differ};
ghost use Rattle.walk.specs.Values.{same};
ghost use Rattle.verdict.specs.Verdict.{covered, verdict_of};

use pen::SIZE;
use refusals::{Fault, Refusal};
use symbols::Numbers;

// Whether every statement passes with these numbers, by node, and the tape then writes these bytes from this start.
#[tactic(auto, unfolding(crate::specs::Verdict::verdict_of, crate::specs::Verdict::judged, crate::specs::Verdict::is_written))]
pub fn judge<'a>(
    tape: &'a [u8],
    nodes: &'a [u16],
    numbers: Numbers,
    initial: usize,
    start: usize,
    bytes: &'a [u8],
) -> Result<(), Fault>
    ensures { says_at result
        ≡ verdict_of tape.now nodes.now numbers initial start bytes.now }
{
    let mut image = [0u8; SIZE];
    let written = tries::write(
        tape,
        nodes,
        numbers,
        initial,
        compares::checker(),
        &mut image,
    )?;
    compare(&image, written.start, written.end, start, bytes)
}

// Start, length and bytes against what is written: the image from `first` to `end`.
fn compare<'a>(
    image: &'a [u8],
    first: usize,
    end: usize,
    start: usize,
    bytes: &'a [u8],
) -> Result<(), Fault>
    requires { (first ≤ end) × (end ≤ length image.now) }
    ensures { says_at result
        ≡ pick (eqb start first && same eqb bytes.now (covered first end image.now))
        (Fine tt) (At.Fault bytes_differ 0) }
{
    if start == first && page::is_same(bytes, &image[first..end]) {
        Ok(())
    } else {
        Err(Refusal::BytesDiffer.at(0))
    }
}
