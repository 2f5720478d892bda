// The pen, lent: reset, set_pc and emit change it where it is, under the Rust's names. Each is thin: it takes the
// pen out, calls segment's function of the same name, which takes a pen by value, and stores the pen that comes back. emit_two is for
// callers that hold no pen.
#![tactic(auto)]

ghost use Rattle.std.specs.Prelude.{◌≡◌};
ghost use Rattle.refusals.specs.Says.{says};
ghost use Rattle.program_counter.specs.Says.{says_range};
ghost use Rattle.segment.specs.Segment.{reset, set_pc, emit, image_after};
ghost use Rattle.segment.specs.Says.{left};
ghost use Rattle.lent_pen.specs.Two.{range_of_two, image_of_two};
ghost use Rattle.lent_pen.specs.Steps.{lent_to};

use pen::Pen;
use program_counter::Range;
use refusals::Refusal;

// Back to the initial place, with an empty range there and nothing emitted.
pub fn reset(pen: &mut Pen) -> Result<(), Refusal>
    ensures { (pen.new, says result) ≡ left pen.old (reset pen.old) }
{
    *pen = segment::reset(*pen)?;
    Ok(())
}

// Moves the place and leaves the range.
pub fn set_pc(pen: &mut Pen, pc: usize) -> Result<(), Refusal>
    ensures { (pen.new, says result) ≡ left pen.old (set_pc pen.old pc) }
{
    *pen = segment::set_pc(*pen, pc)?;
    Ok(())
}

// Writes the bytes at the place, and moves it behind them.
pub fn emit(pen: &mut Pen, image: &mut [u8], bytes: &[u8]) -> Result<(), Refusal>
    ensures { ((pen.new, says result)
        ≡ left pen.old (emit pen.old image.old bytes.now))
        × (image.new ≡ image_after pen.old image.old bytes.now) }
{
    *pen = segment::emit(*pen, image, bytes)?;
    Ok(())
}

// Writes two runs of bytes into one image: the first at the initial place, the second at another. Gives the range that holds both. Where
// one of them is refused, nothing is written. Nothing is asked of a caller, and no pen: one is made and lent here.
pub fn emit_two(
    initial: usize,
    image: &mut [u8],
    first: &[u8],
    place: usize,
    second: &[u8],
) -> Result<Range, Refusal>
    ensures { (says_range result ≡ range_of_two initial image.old first.now place second.now)
        × (image.new ≡ image_of_two initial image.old first.now place second.now) }
{
    let here = pen::begin(initial, initial);
    let there = pen::begin(place, place);
    if !here.is_sound_over(image.len()) {
        return Err(Refusal::Argument);
    }
    if !there.is_sound() {
        return Err(Refusal::Argument);
    }
    if !here.has_room(first.len()) {
        return Err(Refusal::Outside);
    }
    if !there.has_room(second.len()) {
        return Err(Refusal::Outside);
    }
    lend(initial, image, first, place, second).range()
}

// A new pen is lent to emit, to set_pc and to emit again, and given back. What they answer is left aside: emit_two tested it all before.
#[tactic(auto, unfolding(crate::specs::Steps::lent_to))]
fn lend(initial: usize, image: &mut [u8], first: &[u8], place: usize, second: &[u8]) -> Pen
    ensures { (result, image.new) ≡ lent_to initial image.old first.now place second.now }
{
    let mut pen = pen::begin(initial, initial);
    let _ = emit(&mut pen, image, first);
    let _ = set_pc(&mut pen, place);
    let _ = emit(&mut pen, image, second);
    pen
}
