// Document 01's "Numbers a call may answer": why a call is refused, and of a call on a tape also where. Every refusal of every crate is
// one of these.
#![tactic(auto)]

ghost use Rattle.std.specs.Prelude.{◌≡◌, Some};
ghost use Rattle.refusals.specs.Table.{numbers};
ghost use Rattle.refusals.specs.Says.{number_of};
ghost use Rattle.refusals.specs.Words.{refusal_text, fault_text};

use std::fmt;

// Why a call is refused, in the table's order.
#[derive(Clone, Copy, Debug, PartialEq, Eq)]
pub enum Refusal {
    Argument = 1,
    NoRoom = 2,
    NameTaken = 3,
    Loop = 4,
    BadRecord = 5,
    NoRow = 6,
    CutShort = 7,
    Unpaired = 8,
    TooDeep = 9,
    Arithmetic = 10,
    Unresolved = 11,
    TooSmall = 12,
    Moved = 13,
    TooFar = 14,
    Outside = 15,
    NotSettled = 16,
    NumberDiffers = 17,
    BytesDiffer = 18,
}

// Of a call on a tape: why it is refused, and the offset of the record at fault.
#[derive(Clone, Copy, Debug, PartialEq, Eq)]
pub struct Fault {
    pub why: Refusal,
    pub at: usize,
}

impl Refusal {
    // Its number in the table.
    pub fn number(self) -> u8
        ensures { result ≡ number_of self }
    {
        self as u8
    }

    // The same refusal, of the record at an offset.
    pub fn at(self, at: usize) -> Fault
        ensures { result ≡ record { why = self; at = at } }
    {
        Fault { why: self, at }
    }
}

// `refused`, and the number.
impl fmt::Display for Refusal {
    ghost output = { λ why. Some (refusal_text why) };

    fn fmt<W: fmt::Write>(&self, f: &mut fmt::Formatter<W>) -> fmt::Result {
        let number = self.number();
        write!(f, "refused {number}")
    }
}

// The same, with `at` and the offset behind it.
impl fmt::Display for Fault {
    ghost output = { λ fault. Some (fault_text fault) };

    fn fmt<W: fmt::Write>(&self, f: &mut fmt::Formatter<W>) -> fmt::Result {
        let why = self.why;
        let at = self.at;
        write!(f, "{why} at {at}")
    }
}

// The numbers of all refusals, in the table's order: those that definitions cite.
pub fn all() -> [u8; 18]
    ensures { result ≡ numbers }
{
    [
        Refusal::Argument.number(),
        Refusal::NoRoom.number(),
        Refusal::NameTaken.number(),
        Refusal::Loop.number(),
        Refusal::BadRecord.number(),
        Refusal::NoRow.number(),
        Refusal::CutShort.number(),
        Refusal::Unpaired.number(),
        Refusal::TooDeep.number(),
        Refusal::Arithmetic.number(),
        Refusal::Unresolved.number(),
        Refusal::TooSmall.number(),
        Refusal::Moved.number(),
        Refusal::TooFar.number(),
        Refusal::Outside.number(),
        Refusal::NotSettled.number(),
        Refusal::NumberDiffers.number(),
        Refusal::BytesDiffer.number(),
    ]
}
