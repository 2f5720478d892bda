// The lines of a listing, laid into lent memory. Each call takes the offset where it begins, and gives the one behind what it laid.
// What has no room is left out.
#![tactic(auto)]

ghost use Rattle.std.specs.Prelude.{[], ◌∷◌, ◌≡◌};
ghost use Rattle.page.specs.Page.{laid};
ghost use Rattle.mnemonics.specs.Mnemonics.{name_of};
ghost use Rattle.lines.specs.Text.{spaced, line, last_line, refused_line};

// How many digits an offset has at most, and a refusal's number or a number of passes.
const OFFSET_MOST: usize = 5;

const NUMBER_MOST: usize = 3;

// A line: place, bytes, mnemonic.
pub fn put_line(text: &mut [u8], at: usize, place: usize, bytes: &[u8], mnemonic: u8) -> usize
    ensures { (result, text.new) ≡ laid text.old at (line place bytes.now (name_of mnemonic)) }
{
    let placed = numerals::put_place(text, at, place);
    let listed = put_bytes(text, placed, bytes);
    let spaced = page::put(text, listed, b' ');
    let named = page::put_all(text, spaced, &mnemonics::letters_of(mnemonic));
    page::put(text, named, b'\n')
}

// The last line: start, end and passes.
pub fn put_last(text: &mut [u8], at: usize, start: usize, end: usize, passes: usize) -> usize
    ensures { (result, text.new) ≡ laid text.old at (last_line start end passes) }
{
    let started = numerals::put_place(text, at, start);
    let spaced = page::put(text, started, b' ');
    let ended = numerals::put_place(text, spaced, end);
    let again = page::put(text, ended, b' ');
    let counted = numerals::put_decimal(text, again, NUMBER_MOST, passes);
    page::put(text, counted, b'\n')
}

// The refused line.
pub fn put_refused(text: &mut [u8], at: usize, number: u8, offset: usize) -> usize
    ensures { (result, text.new) ≡ laid text.old at (refused_line number offset) }
{
    let said = page::put_all(text, at, b"refused ");
    let numbered = numerals::put_decimal(text, said, NUMBER_MOST, number as usize);
    let joined = page::put_all(text, numbered, b" at ");
    let placed = numerals::put_decimal(text, joined, OFFSET_MOST, offset);
    page::put(text, placed, b'\n')
}

// Bytes, each behind a space.
fn put_bytes(text: &mut [u8], from: usize, bytes: &[u8]) -> usize
    ensures { (result, text.new) ≡ laid text.old from (spaced bytes.now) }
{
    let mut at = from;
    for byte in bytes {
        at = put_byte(text, at, *byte);
    }
    at
}

// A byte behind a space.
fn put_byte(text: &mut [u8], at: usize, byte: u8) -> usize
    ensures { (result, text.new) ≡ laid text.old at (spaced (byte ∷ [])) }
{
    let spaced = page::put(text, at, b' ');
    page::put_all(text, spaced, &hexadecimal::capital(byte))
}
