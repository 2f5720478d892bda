// The listing: a tape is built, and for each record that writes a line of its place, its bytes and its mnemonic goes into a lent text,
// then a line of start, end and passes. A refused tape gives the refused line alone.
#![tactic(auto)]

ghost use Rattle.std.specs.Prelude.{◌≡◌, ◌≤◌, length};
ghost use Rattle.refusals.specs.Says.{says};
ghost use Rattle.pen.specs.Pens.{size};
ghost use Rattle.page.specs.Page.{laid};
ghost use Rattle.form.specs.Form.{max_tape};
ghost use Rattle.walk.specs.Walk.{origin};
ghost use Rattle.record_lines.specs.Records.{said};
ghost use Rattle.listing.specs.Listing.{listed};
ghost use Rattle.listing.specs.Call.{listing, list_of};

use form::LONGEST;
use pen::SIZE;
use refusals::Refusal;

// How long the text is that is lent: twenty bytes for each byte of a tape, and twenty for the last line.
pub const TEXT: usize = 1310740;

// Lists a tape that is built from an initial place, into a lent text; how long that is.
pub fn list(tape: &[u8], initial: usize, text: &mut [u8]) -> Result<usize, Refusal>
    ensures { (says result, text.new) ≡ list_of tape.now initial text.old }
{
    if text.len() != TEXT {
        return Err(Refusal::Argument);
    }
    Ok(fill(tape, initial, text))
}

// Fills a text; how much of it.
fn fill(tape: &[u8], initial: usize, text: &mut [u8]) -> usize
    ensures { (result, text.new) ≡ laid text.old 0 (listing tape.now initial) }
{
    if LONGEST < tape.len() {
        return lines::put_refused(text, 0, Refusal::Argument.number(), 0);
    }
    if SIZE < initial {
        return lines::put_refused(text, 0, Refusal::Argument.number(), 0);
    }
    let mut nodes = [0u16; LONGEST];
    fill_laid(tape, initial, text, &mut nodes)
}

// The layout, then the lines with its numbers.
fn fill_laid(tape: &[u8], initial: usize, text: &mut [u8], nodes: &mut [u16]) -> usize
    requires { (length tape.now ≤ max_tape) × (initial ≤ size) × (length nodes.old ≡ max_tape) }
    ensures { (result, text.new) ≡ laid text.old 0 (said (listed tape.now (origin initial))) }
{
    match layout::lay_out(tape, initial, nodes) {
        Err(fault) => lines::put_refused(text, 0, fault.why.number(), fault.at),
        Ok(settled) => record_lines::put_records(
            tape,
            nodes,
            settled.numbers,
            settled.passes,
            initial,
            text,
        ),
    }
}
