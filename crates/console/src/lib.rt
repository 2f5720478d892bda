// Standard input and output of a program, by the kit's `io`, which reads and writes and does nothing else.
#![tactic(auto)]

ghost use Rattle.std.specs.Prelude.{ℕ, ◌≡◌, ◌+◌, ◌≤◌, List, [], ◌++◌, length, take};

use descriptors::{STDIN_FILENO, STDOUT_FILENO};
use std::fmt;
use std::fmt::{Display, Write};
use std::io::{ErrorKind, Result};
use std::marker::Model;

// How many bytes of a format are gathered before they are written.
const ROOM: usize = 128;

// What a program prints to: the pieces of one format are gathered, and written at its end.
#[derive(Clone, Copy)]
pub struct Console;

impl Print for Console {
    fn print<D: Display + Drop>(&self, value: D) -> Result<()> {
        let mut output = Output::new();
        let formatted = write!(output, "{value}").is_ok();
        told(output.flush() && formatted)
    }

    fn println<D: Display + Drop>(&self, value: D) -> Result<()> {
        let mut output = Output::new();
        let formatted = writeln!(output, "{value}").is_ok();
        told(output.flush() && formatted)
    }

    fn write_all(&self, bytes: &[u8]) -> Result<()> {
        told(io::write_all(STDOUT_FILENO, bytes))
    }
}

// Where a format is written: the bytes that are gathered, one behind the other.
#[derive(Drop)]
struct Output {
    memory: [u8; ROOM],
    len: usize,
}

// Clauses see the bytes that are gathered.
impl Model for Output {
    ghost Value = { List ℕ };

    ghost view = { λ o. take o.len o.memory };

    ghost invariant = { λ o. o.len ≤ 128 };
}

impl Output {
    // Nothing gathered.
    fn new() -> Self
        ensures { result ≡ [] }
    {
        Output {
            memory: [0; ROOM],
            len: 0,
        }
    }

    // Writes what is gathered, of which nothing stays; whether all of it was written.
    fn flush(&mut self) -> bool
        ensures { self.new ≡ [] }
    {
        let len = self.len;
        self.len = 0;
        io::write_all(STDOUT_FILENO, &self.memory[..len])
    }

    // Gathers bytes behind the others.
    fn gather(&mut self, bytes: &[u8])
        requires { length self.old + length bytes.now ≤ 128 }
        ensures { self.new ≡ self.old ++ bytes.now }
    {
        let end = self.len + bytes.len();
        self.memory[self.len..end].copy_from_slice(bytes);
        self.len = end;
    }
}

impl Write for Output {
    // Gathers a piece, or, where there is no room for it, writes what is gathered and then the piece.
    fn write_str(&mut self, piece: &str) -> fmt::Result {
        let bytes = piece.as_bytes();
        if bytes.len() <= ROOM - self.len {
            self.gather(bytes);
            return Ok(());
        }
        if self.flush() && io::write_all(STDOUT_FILENO, bytes) {
            Ok(())
        } else {
            Err(fmt::Error)
        }
    }
}

// Nothing, or that the output is closed.
fn told(written: bool) -> Result<()> {
    if written {
        Ok(())
    } else {
        Err(ErrorKind::BrokenPipe.into())
    }
}

// Fills the memory from standard input, as far as that goes; how much of it.
pub fn read(memory: &mut [u8]) -> usize
    ensures { result ≤ length memory.new }
{
    io::read_full(STDIN_FILENO, memory)
}
