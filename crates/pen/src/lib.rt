// The pen that writes bytes into a lent image of 65,536 bytes, and what is read of it, under the Rust's
// names. The pen is a small struct; the image stands beside it, so that writing one byte costs one byte. The
// calls that move it and write are in the crate segment. A call on a pen or an image that is not sound is
// refused (1); is_sound, is_sound_over and has_room only tell.
#![tactic(auto)]

ghost use Rattle.std.specs.Prelude.{◌≡◌, ◌≤◌, pos, ◌-ℤ◌};
ghost use Rattle.refusals.specs.Answer.{Done, outcome};
ghost use Rattle.refusals.specs.Says.{says};
ghost use Rattle.program_counter.specs.Says.{says_place, says_range};
ghost use Rattle.pen.specs.Pens.{of_pen, sound, sound_over, begun, new, pc, target_pc, target_offset, range};
ghost use Rattle.pen.specs.Pens.{range_data, part_of, fits};

use program_counter::{ProgramCounter, Range};
use refusals::Refusal;

// How many bytes an image has; also the last place, one past the last byte.
pub const SIZE: usize = 65536;

// Where the next byte goes (place), where a reset goes back to (initial), what place the code is meant for when it starts there
// (target), what is written so far (start up to, but not including, end), and whether anything was emitted:
// a flag, since an empty range stands at the initial place before that.
#[derive(Clone, Copy, Debug, PartialEq, Eq)]
pub struct Pen {
    pub place: usize,
    pub initial: usize,
    pub target: usize,
    pub start: usize,
    pub end: usize,
    pub emitted: bool,
}

impl Pen {
    // A pen at its initial place, with nothing emitted.
    #[tactic(auto, unfolding(crate::specs::Pens::new))]
    pub fn new(initial: usize, target: usize) -> Result<Pen, Refusal>
        ensures { says result ≡ new initial target }
    {
        if initial <= SIZE && target <= SIZE {
            Ok(begin(initial, target))
        } else {
            Err(Refusal::Argument)
        }
    }

    // The place.
    #[tactic(auto, unfolding(crate::specs::Pens::pc, crate::specs::Pens::of_pen))]
    pub fn pc(self) -> Result<ProgramCounter, Refusal>
        ensures { says_place result ≡ pc self }
    {
        self.checked()?;
        Ok(ProgramCounter(self.place))
    }

    // The place that the next byte is meant for.
    #[tactic(auto, unfolding(crate::specs::Pens::target_pc, crate::specs::Pens::of_pen, crate::specs::Pens::sound))]
    pub fn target_pc(self) -> Result<i64, Refusal>
        ensures { says result ≡ target_pc self }
    {
        self.checked()?;
        Ok(difference(self.place + self.target, self.initial))
    }

    // What is written so far.
    #[tactic(auto, unfolding(crate::specs::Pens::range, crate::specs::Pens::of_pen))]
    pub fn range(self) -> Result<Range, Refusal>
        ensures { says_range result ≡ range self }
    {
        self.checked()?;
        Ok(Range {
            start: self.start,
            end: self.end,
        })
    }

    // How far the target lies from the initial place.
    #[tactic(auto, unfolding(crate::specs::Pens::target_offset, crate::specs::Pens::of_pen, crate::specs::Pens::sound))]
    pub fn target_offset(self) -> Result<i64, Refusal>
        ensures { says result ≡ target_offset self }
    {
        self.checked()?;
        Ok(difference(self.target, self.initial))
    }

    // The part of the image that the range covers; no bytes where nothing was emitted, or where range_data_answer refuses.
    #[tactic(auto, unfolding(crate::specs::Pens::range_data, crate::specs::Pens::of_both, crate::specs::Pens::sound_over, crate::specs::Pens::sound))]
    pub fn range_data(self, image: &[u8]) -> &[u8]
        ensures { result.now ≡ part_of (range_data self image.now) }
    {
        if !self.is_sound_over(image.len()) {
            return &image[0..0];
        }
        if !self.emitted {
            return &image[0..0];
        }
        let start = self.start;
        let end = self.end;
        &image[start..end]
    }

    // Whether range_data hands out the range, or refuses.
    #[tactic(auto, unfolding(crate::specs::Pens::range_data, crate::specs::Pens::of_both))]
    pub fn range_data_answer(self, image: &[u8]) -> Result<(), Refusal>
        ensures { says result ≡ outcome (range_data self image.now) }
    {
        if self.is_sound_over(image.len()) {
            Ok(())
        } else {
            Err(Refusal::Argument)
        }
    }

    // Refused where the pen is not sound.
    #[tactic(auto, unfolding(crate::specs::Pens::of_pen))]
    fn checked(self) -> Result<(), Refusal>
        ensures { says result ≡ of_pen self (Done tt) }
    {
        if self.is_sound() {
            Ok(())
        } else {
            Err(Refusal::Argument)
        }
    }

    // Whether the places are at most 65,536 and the range runs forward.
    #[tactic(auto, unfolding(crate::specs::Pens::sound))]
    pub fn is_sound(self) -> bool
        ensures { result ≡ sound self }
    {
        self.place <= SIZE
            && self.initial <= SIZE
            && self.target <= SIZE
            && self.start <= self.end
            && self.end <= SIZE
    }

    // Whether the pen is sound, and over an image of the one length there is.
    #[tactic(auto, unfolding(crate::specs::Pens::sound_over))]
    pub fn is_sound_over(self, length: usize) -> bool
        ensures { result ≡ sound_over self length }
    {
        length == SIZE && self.is_sound()
    }

    // Whether so many bytes fit at the place, which is itself inside the image.
    #[tactic(auto, unfolding(crate::specs::Pens::fits))]
    pub fn has_room(self, count: usize) -> bool
        ensures { result ≡ fits self count }
    {
        self.place < SIZE && count <= SIZE && self.place + count <= SIZE
    }
}

// A pen at its initial place, with nothing emitted. Nothing is tested: is_sound tells whether the two places are there.
#[tactic(auto, unfolding(crate::specs::Pens::begun))]
pub fn begin(initial: usize, target: usize) -> Pen
    ensures { result ≡ begun initial target }
{
    Pen {
        place: initial,
        initial,
        target,
        start: initial,
        end: initial,
        emitted: false,
    }
}

// a - b as a signed number.
fn difference(a: usize, b: usize) -> i64
    requires { (a ≤ 131072) × (b ≤ 131072) }
    ensures { result ≡ pos a -ℤ pos b }
{
    a as i64 - b as i64
}
