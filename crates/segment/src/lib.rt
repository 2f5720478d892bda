// The segment: the calls that move a pen over a lent image of 65,536 bytes and write, under the Rust's names.
// reset, set_pc and emit are here functions that take a pen and give one; those of the crate lent_pen change
// a pen that is lent. What a pen is, and what is read of it, is in the crate pen. A call on a pen or an image
// that is not sound is refused (1), and a refused call changes nothing.
#![tactic(auto)]

ghost use Rattle.std.specs.Prelude.{◌≡◌, ◌+◌, ◌≤◌, length};
ghost use Rattle.refusals.specs.Memory.{over};
ghost use Rattle.refusals.specs.Says.{says};
ghost use Rattle.segment.specs.Segment.{reset, set_pc, widened, ground, emit, image_after};

use pen::{Pen, SIZE, begin};
use refusals::Refusal;

// Back to the initial place, with an empty range there and nothing emitted.
#[tactic(auto, unfolding(crate::specs::Segment::reset, pen::specs::Pens::of_pen))]
pub fn reset(pen: Pen) -> Result<Pen, Refusal>
    ensures { says result ≡ reset pen }
{
    if pen.is_sound() {
        Ok(begin(pen.initial, pen.target))
    } else {
        Err(Refusal::Argument)
    }
}

// Moves the place and leaves the range.
#[tactic(auto, unfolding(crate::specs::Segment::set_pc, pen::specs::Pens::of_pen))]
pub fn set_pc(pen: Pen, pc: usize) -> Result<Pen, Refusal>
    ensures { says result ≡ set_pc pen pc }
{
    if pen.is_sound() && pc <= SIZE {
        Ok(Pen { place: pc, ..pen })
    } else {
        Err(Refusal::Argument)
    }
}

// Writes the bytes at the place, and moves it behind them.
#[tactic(auto, unfolding(crate::specs::Segment::emit, crate::specs::Segment::image_after, pen::specs::Pens::of_both, pen::specs::Pens::sound_over, pen::specs::Pens::fits))]
pub fn emit(pen: Pen, image: &mut [u8], bytes: &[u8]) -> Result<Pen, Refusal>
    ensures { (says result ≡ emit pen image.old bytes.now) × (image.new ≡ image_after pen image.old bytes.now) }
{
    if !pen.is_sound_over(image.len()) {
        return Err(Refusal::Argument);
    }
    if !pen.has_room(bytes.len()) {
        return Err(Refusal::Outside);
    }
    draw(image, pen.place, bytes, pen.emitted);
    Ok(behind(pen, bytes.len()))
}

// The pen behind so many bytes that it wrote.
#[tactic(auto, unfolding(crate::specs::Segment::widened))]
fn behind(pen: Pen, count: usize) -> Pen
    requires { pen.place + count ≤ 65536 }
    ensures { result ≡ widened pen count }
{
    let end = pen.place + count;
    if pen.emitted {
        Pen {
            place: end,
            start: pen.start.min(pen.place),
            end: pen.end.max(end),
            ..pen
        }
    } else {
        Pen {
            place: end,
            start: pen.place,
            end,
            emitted: true,
            ..pen
        }
    }
}

// Lays the bytes over the image, which is made all zero first where nothing was emitted yet.
#[tactic(auto, unfolding(crate::specs::Segment::ground, refusals::specs::Memory::over))]
fn draw(image: &mut [u8], at: usize, bytes: &[u8], emitted: bool)
    requires { at + length bytes.now ≤ length image.old }
    ensures { image.new ≡ over (ground emitted image.old) at bytes.now }
{
    if !emitted {
        image.fill(0);
    }
    image[at..at + bytes.len()].copy_from_slice(bytes);
}
