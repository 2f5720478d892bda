// Bytes that are laid one behind the other into lent memory, for programs that make tapes and lines: each call takes the offset where it
// begins, and gives the one behind what it laid. What has no room is left out.
#![tactic(auto)]

ghost use Rattle.std.specs.Prelude.{[], ◌∷◌, ◌≡◌, ◌<◌, take, IfSome};
ghost use Rattle.page.specs.Page.{laid, repeated, same, digit_in, pair, following, bytes_in};

// One byte.
#[tactic(auto, using(crate::proofs::Laying::no_room_lem, crate::proofs::Laying::one_laid))]
pub fn put(bytes: &mut [u8], at: usize, byte: u8) -> usize
    ensures { (result, bytes.new) ≡ laid bytes.old at (byte ∷ []) }
{
    if bytes.len() <= at {
        return at;
    }
    bytes[at] = byte;
    at + 1
}

// Several bytes.
pub fn put_all(bytes: &mut [u8], from: usize, piece: &[u8]) -> usize
    ensures { (result, bytes.new) ≡ laid bytes.old from piece.now }
{
    let mut at = from;
    for byte in piece {
        at = put(bytes, at, *byte);
    }
    at
}

// Several bytes, so often.
pub fn put_often(bytes: &mut [u8], from: usize, piece: &[u8], times: usize) -> usize
    ensures { (result, bytes.new) ≡ laid bytes.old from (repeated times piece.now) }
{
    let mut at = from;
    for i in 0..times {
        at = put_all(bytes, at, piece);
    }
    at
}

// The bytes of a tape that is written as document 01 writes one: pairs of hexadecimal digits. A pair does not begin with its second
// digit, and what is no digit stands between two bytes.
pub fn put_hex(bytes: &mut [u8], from: usize, text: &[u8]) -> usize
    ensures { (result, bytes.new) ≡ laid bytes.old from (bytes_in text.now) }
{
    let mut at = from;
    let mut high = None;
    for letter in text {
        let low = digit(*letter);
        at = put_pair(bytes, at, high, low);
        high = next_high(high, low);
    }
    at
}

// A digit as a number; anything else as none.
fn digit(letter: u8) -> Option<u8>
    ensures value { result ≡ digit_in letter }
    ensures small { IfSome result (λ d. d < 16) }
{
    match letter {
        b'0'..=b'9' => Some(letter - b'0'),
        b'a'..=b'f' => Some(letter - b'a' + 10),
        _ => None,
    }
}

// The byte of two digits, if they are two.
#[tactic(auto, using(crate::proofs::Laying::nothing_laid))]
fn put_pair(bytes: &mut [u8], at: usize, high: Option<u8>, low: Option<u8>) -> usize
    requires high_small { IfSome high (λ d. d < 16) }
    requires low_small { IfSome low (λ d. d < 16) }
    ensures { (result, bytes.new) ≡ laid bytes.old at (pair high low) }
{
    match (high, low) {
        (Some(high), Some(low)) => put(bytes, at, 16 * high + low),
        _ => at,
    }
}

// The digit before the next one: none where it has been used.
fn next_high(high: Option<u8>, low: Option<u8>) -> Option<u8>
    ensures { result ≡ following high low }
{
    match high {
        None => low,
        Some(_) => None,
    }
}

// The first so many bytes, or all.
pub fn cut(bytes: &[u8], count: usize) -> &[u8]
    ensures { result.now ≡ take count bytes.now }
{
    &bytes[..bytes.len().min(count)]
}

// Whether two runs of bytes are the same.
pub fn is_same(one: &[u8], other: &[u8]) -> bool
    ensures { result ≡ same one.now other.now }
{
    one == other
}
