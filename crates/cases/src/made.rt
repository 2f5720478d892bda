// A tape that lines make.
ghost use Rattle.std.specs.Prelude.{ℕ, ◌≡◌, ◌≤◌, List, [], take};
ghost use Rattle.script_tapes.specs.Tapes.{is_tape};
ghost use Rattle.cases.specs.Tapes.{made};

use std::marker::Model;

/// At most `N` bytes.
#[derive(Drop)]
pub struct Tape<const N: usize> {
    room: [u8; N],
    len: usize,
}

// Clauses see the bytes that are there.
impl<const N: usize> Model for Tape<N> {
    ghost Value = { List ℕ };

    ghost view = { λ t. take t.len t.room };

    ghost invariant = { λ t. t.len ≤ N };
}

impl<const N: usize> Tape<N> {
    // No bytes.
    pub fn new() -> Self
        ensures { result ≡ [] }
    {
        Tape {
            room: [0; N],
            len: 0,
        }
    }

    // The bytes.
    pub fn as_slice(&self) -> &[u8]
        ensures { result.now ≡ self.now }
    {
        &self.room[..self.len]
    }

    // Makes the tape as a line says, if the line says so; whether it does.
    #[tactic(auto, using(crate::proofs::Tapes::made_of))]
    pub fn is_made(&mut self, line: &[u8]) -> bool
        ensures says { result ≡ is_tape line.now }
        ensures makes { self.new ≡ made N self.old line.now }
    {
        self.len = script_tapes::put_tape(&mut self.room, self.len, line);
        script_tapes::is_tape(line)
    }
}
