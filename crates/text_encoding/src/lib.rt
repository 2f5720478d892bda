// Text for the display boards. Of the Rust's three encodings only Petscreen is carried over, from a Petscii byte to a screen
// byte: one match, each arm a plain formula.
#![tactic(auto)]

ghost use Rattle.std.specs.Prelude.{◌≡◌};
ghost use Rattle.text_encoding.specs.Petscreen.{petscreen_of};

// The screen byte of a Petscii byte.
#[tactic(auto, unfolding(crate::specs::Petscreen::petscreen_of))]
pub fn petscreen(c: u8) -> u8
    ensures { result ≡ petscreen_of c }
{
    match c {
        0x00..=0x1f => c + 128,
        0x20..=0x3f => c,
        0x40..=0x5f => c - 64,
        0x60..=0x7f => c - 32,
        0x80..=0x9f => c + 64,
        0xa0..=0xbf => c - 64,
        0xc0..=0xfe => c - 128,
        0xff => 0x5e,
    }
}
