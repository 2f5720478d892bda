// What the programs share that read case files: each line obeyed, the tape that lines make, and how answers are printed.
#![tactic(auto)]

mod made;

ghost use Rattle.std.specs.Prelude.{◌≡◌, ◌%◌, ◌^◌};
ghost use Rattle.script.specs.Numbers.{number_of};

pub use made::Tape;
use std::fmt::Display;
use std::io;

// What a program obeys lines with, and keeps from line to line.
pub trait Obeys {
    // Does what a line says.
    fn obey(&mut self, rt: &impl Print, line: &[u8]) -> io::Result<()>;
}

// What a program asks about a tape with, and keeps from line to line.
pub trait Asks {
    // Asks about the tape what a line says.
    fn ask(&mut self, rt: &impl Print, line: &[u8], tape: &[u8]) -> io::Result<()>;
}

// Obeys each line that comes in on standard input, as far as the memory for all of them goes, but the empty ones and the comments.
pub fn obey_each(rt: &impl Print, room: &mut [u8], obeys: &mut impl Obeys) -> io::Result<()> {
    let text = read(room);
    for i in 0..script::lines(text) {
        let line = script::line(text, i);
        if !script::is_silent(line) {
            obeys.obey(rt, line)?;
        }
    }
    Ok(())
}

// The same of lines that make a tape or ask about it: asks what each line does that does not make it.
pub fn ask_each<const N: usize>(
    rt: &impl Print,
    room: &mut [u8],
    tape: &mut Tape<N>,
    asks: &mut impl Asks,
) -> io::Result<()> {
    let text = read(room);
    for i in 0..script::lines(text) {
        let line = script::line(text, i);
        if !script::is_silent(line) && !tape.is_made(line) {
            asks.ask(rt, line, tape.as_slice())?;
        }
    }
    Ok(())
}

// As much of standard input as fits.
fn read(room: &mut [u8]) -> &[u8] {
    let count = console::read(room);
    page::cut(room, count)
}

// The last 16 bits of the number that the word of that number has: a node, a name or a place.
pub fn u16_of(line: &[u8], index: usize) -> u16
    ensures { result ≡ number_of index line.now % 2 ^ 16 }
{
    (script::number(line, index) % 0x1_0000) as u16
}

// Says that a line has no command that is known.
pub fn tell(rt: &impl Print, line: &[u8]) -> io::Result<()> {
    print_name(rt, b"not known")?;
    print_line(rt, line)
}

// Prints the name of a case, which its answer follows.
pub fn print_name(rt: &impl Print, name: &[u8]) -> io::Result<()> {
    rt.write_all(name)?;
    print!(rt; ": ")
}

// Prints words on a line of their own.
pub fn print_line(rt: &impl Print, words: &[u8]) -> io::Result<()> {
    rt.write_all(words)?;
    println!(rt;)
}

// Prints what a call answers: its value, or its refusal.
pub fn print_answer<T: Display + Drop, E: Display + Drop>(
    rt: &impl Print,
    answer: Result<T, E>,
) -> io::Result<()> {
    match answer {
        Ok(value) => print!(rt; "{value}"),
        Err(refusal) => print!(rt; "{refusal}"),
    }
}

// The same of a call that may find nothing, which has a word.
pub fn print_found<T: Display + Drop, E: Display + Drop>(
    rt: &impl Print,
    answer: Result<Option<T>, E>,
    nothing: &str,
) -> io::Result<()> {
    match answer {
        Ok(Some(value)) => print!(rt; "{value}"),
        Ok(None) => print!(rt; "{nothing}"),
        Err(refusal) => print!(rt; "{refusal}"),
    }
}
