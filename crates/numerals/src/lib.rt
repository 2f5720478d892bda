// Numbers in digits, laid into lent memory: places in hex, and decimal numbers. Each call takes the offset where it begins, and gives the
// one behind what it laid. What has no room is left out.
#![tactic(auto)]

ghost use Rattle.std.specs.Prelude.{◌&&◌, [], ◌∷◌, ◌≡◌, ◌≤◌, ◌<◌, ltb, leb};
ghost use Rattle.hexadecimal.specs.Hex.{digit_of};
ghost use Rattle.page.specs.Page.{laid};
ghost use Rattle.numerals.specs.Numerals.{numeral, place_text, decimal};

// The bases of numbers.
const DECIMAL: usize = 10;

const HEX: usize = 16;

// How many digits a place has at most and at least.
const PLACE_MOST: usize = 5;

const PLACE_LEAST: usize = 4;

// A place, in capital hex.
pub fn put_place(text: &mut [u8], at: usize, place: usize) -> usize
    ensures { (result, text.new) ≡ laid text.old at (place_text place) }
{
    put_numeral(PLACE_MOST, HEX, PLACE_LEAST, place, text, at)
}

// A number of at most so many digits, in decimal.
pub fn put_decimal(text: &mut [u8], at: usize, most: usize, n: usize) -> usize
    ensures { (result, text.new) ≡ laid text.old at (decimal most n) }
{
    put_numeral(most, DECIMAL, 1, n, text, at)
}

// A number to a base, of at most and at least so many digits: those of its quotient by the base, then its remainder.
#[tactic(auto, using(page::proofs::Laying::nothing_laid))]
fn put_numeral(
    most: usize,
    base: usize,
    least: usize,
    n: usize,
    text: &mut [u8],
    at: usize,
) -> usize
    requires { (1 < base) × (base ≤ 16) }
    ensures { (result, text.new) ≡ laid text.old at (numeral base most least n) }
{
    if most == 0 {
        return at;
    }
    if is_digit(n, base, least) {
        return put_digit(text, at, n);
    }
    let end = put_numeral(most - 1, base, least.saturating_sub(1), n / base, text, at);
    put_digit(text, end, n % base)
}

// Whether a number is one digit, and no more are asked for.
fn is_digit(n: usize, base: usize, least: usize) -> bool
    ensures { result ≡ (ltb n base && leb least 1) }
{
    n < base && least <= 1
}

// A digit.
fn put_digit(text: &mut [u8], at: usize, n: usize) -> usize
    requires { n < 16 }
    ensures { (result, text.new) ≡ laid text.old at (digit_of n ∷ []) }
{
    page::put(text, at, hexadecimal::digit(n as u8))
}
