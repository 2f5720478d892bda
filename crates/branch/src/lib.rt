// A branch's operand byte: how far its target lies from the instruction behind it.
#![tactic(auto)]

ghost use Rattle.std.specs.Prelude.{◌≡◌, pos, ◌-ℤ◌};
ghost use Rattle.refusals.specs.Says.{says};
ghost use Rattle.branch.specs.Branch.{byte_of, distance_of};

use refusals::Refusal;

// A branch's bytes; its offset counts from behind them.
const BRANCH_LENGTH: i64 = 2;

const FARTHEST_BACK: i64 = -128;

const FARTHEST_AHEAD: i64 = 127;

// The operand byte that stands for an offset from the next instruction.
fn operand_byte(offset: i64) -> Result<u8, Refusal>
    ensures { says result ≡ byte_of offset }
{
    if FARTHEST_BACK <= offset && offset <= FARTHEST_AHEAD {
        Ok(int64::low_byte(offset))
    } else {
        Err(Refusal::TooFar)
    }
}

// The operand byte of a branch whose target is this far from its place.
fn from_place(ahead: i64) -> Result<u8, Refusal>
    ensures { says result ≡ byte_of (ahead -ℤ pos 2) }
{
    match int64::sub(ahead, BRANCH_LENGTH) {
        Ok(offset) => operand_byte(offset),
        Err(_) => Err(Refusal::TooFar),
    }
}

// The operand byte of a branch at a place to a target.
#[tactic(auto, unfolding(crate::specs::Branch::distance_of))]
pub fn distance_of(place: i64, target: i64) -> Result<u8, Refusal>
    ensures { says result ≡ distance_of place target }
{
    match int64::sub(target, place) {
        Ok(ahead) => from_place(ahead),
        Err(_) => Err(Refusal::TooFar),
    }
}
