// Places of the 6502's memory, 0 to 65,536 (one past the last byte), under the Rust's names. A place outside that, handed in
// or reached by a sum or a difference, is refused (1).
#![tactic(auto)]

ghost use Rattle.std.specs.Prelude.{◌≡◌, ◌≤◌};
ghost use Rattle.refusals.specs.Says.{says};
ghost use Rattle.program_counter.specs.Place.{place, sum, difference, low16, le_bytes, as_i64, empty_range};
ghost use Rattle.program_counter.specs.Says.{says_place, says_range};

use refusals::Refusal;

// The last place: one past the last byte of memory.
const LAST: usize = 65536;

// A place.
#[derive(Clone, Copy, Debug, PartialEq, Eq)]
pub struct ProgramCounter(pub usize);

// From start up to, but not including, end.
#[derive(Clone, Copy, Debug, PartialEq, Eq)]
pub struct Range {
    pub start: usize,
    pub end: usize,
}

impl ProgramCounter {
    // The place of this number.
    pub fn new(pc: usize) -> Result<ProgramCounter, Refusal>
        ensures { says_place result ≡ place pc }
    {
        if pc <= LAST {
            Ok(ProgramCounter(pc))
        } else {
            Err(Refusal::Argument)
        }
    }

    // The place's number, where it is one.
    fn checked(self) -> Result<usize, Refusal>
        ensures { says result ≡ place self.0 }
    {
        Ok(ProgramCounter::new(self.0)?.0)
    }

    // The place that many bytes on.
    pub fn add(self, rhs: usize) -> Result<ProgramCounter, Refusal>
        ensures { says_place result ≡ sum self.0 rhs }
    {
        let pc = self.checked()?;
        if rhs <= LAST - pc {
            Ok(ProgramCounter(pc + rhs))
        } else {
            Err(Refusal::Argument)
        }
    }

    // The place that many bytes back.
    pub fn sub(self, rhs: usize) -> Result<ProgramCounter, Refusal>
        ensures { says_place result ≡ difference self.0 rhs }
    {
        let pc = self.checked()?;
        if rhs <= pc {
            Ok(ProgramCounter(pc - rhs))
        } else {
            Err(Refusal::Argument)
        }
    }

    // The place's low 16 bits: 65,536 gives 0.
    pub fn as_u16(self) -> Result<u16, Refusal>
        ensures { says result ≡ low16 self.0 }
    {
        Ok((self.checked()? % 65536) as u16)
    }

    // The two bytes of as_u16, low first.
    pub fn to_le_bytes(self) -> Result<[u8; 2], Refusal>
        ensures { says result ≡ le_bytes self.0 }
    {
        Ok(self.as_u16()?.to_le_bytes())
    }

    // The place as a signed number.
    pub fn as_i64(self) -> Result<i64, Refusal>
        ensures { says result ≡ as_i64 self.0 }
    {
        Ok(self.checked()? as i64)
    }

    // The range that begins and ends at the place.
    pub fn as_empty_range(self) -> Result<Range, Refusal>
        ensures { says_range result ≡ empty_range self.0 }
    {
        let pc = self.checked()?;
        Ok(Range { start: pc, end: pc })
    }
}
