// How tapes are listed, and cases printed.
use refusals::Refusal;
use std::io;

// How many bytes of a tape are printed at most.
const MOST: usize = 16;

// Prints the bytes of a tape, or how many there are.
fn print_tape(rt: &impl Print, tape: &[u8]) -> io::Result<()> {
    let count = tape.len();
    if count == 0 {
        return print!(rt; " no bytes");
    }
    if MOST < count {
        return print!(rt; " {count} bytes");
    }
    for byte in tape {
        print!(rt; " {byte:02X}")?;
    }
    Ok(())
}

// Prints the name of a case, which its line has from that word on, and its tape.
pub fn print_head(rt: &impl Print, line: &[u8], from: usize, tape: &[u8]) -> io::Result<()> {
    rt.write_all(script::words_from(line, from))?;
    print!(rt; " |")?;
    print_tape(rt, tape)?;
    print!(rt; " |")
}

// Lists a tape into a text of the right length.
pub fn list(text: &mut [u8], tape: &[u8], initial: usize) -> Result<usize, Refusal> {
    list_into(text, listing::TEXT, tape, initial)
}

// Lists a tape into a text of this length.
pub fn list_into(
    text: &mut [u8],
    length: usize,
    tape: &[u8],
    initial: usize,
) -> Result<usize, Refusal> {
    let end = length.min(text.len());
    listing::list(tape, initial, &mut text[..end])
}

// Prints the listing of a tape; nothing where there is none.
fn print_listing(rt: &impl Print, line: &[u8], tape: &[u8], text: &mut [u8]) -> io::Result<()> {
    let end = list(text, tape, script::number(line, 1)).unwrap_or(0);
    rt.write_all(page::cut(text, end))
}

// A case whose listing is one line, which stands behind the tape: PLACE NAME.
pub fn line(rt: &impl Print, line: &[u8], tape: &[u8], text: &mut [u8]) -> io::Result<()> {
    print_head(rt, line, 2, tape)?;
    print!(rt; " ")?;
    print_listing(rt, line, tape, text)
}

// A case whose listing has several lines, which stand below: PLACE NAME.
pub fn lines(rt: &impl Print, line: &[u8], tape: &[u8], text: &mut [u8]) -> io::Result<()> {
    print_head(rt, line, 2, tape)?;
    println!(rt;)?;
    print_listing(rt, line, tape, text)
}
