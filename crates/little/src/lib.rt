// Little-endian numbers at an offset of a slice. Total: what lies past the end reads as zero.
#![tactic(auto)]

ghost use Rattle.std.specs.Prelude.{◌≡◌, get_or, take};
ghost use Rattle.std.specs.Int.{w64};
ghost use Rattle.std.proofs.Common.{to_z};
ghost use Rattle.little.specs.Little.{number, number_at};

// The byte at an offset.
pub fn u8_at(s: &[u8], at: usize) -> u8
    ensures { result ≡ get_or s.now at 0 }
{
    s.get(at).copied().unwrap_or(0)
}

// The number of the first two bytes.
fn first_two(s: &[u8]) -> u16
    ensures { result ≡ number (take 2 s.now) }
{
    u16::from_le_bytes([u8_at(s, 0), u8_at(s, 1)])
}

// The number of the first eight bytes.
fn first_eight(s: &[u8]) -> u64
    ensures { result ≡ number (take 8 s.now) }
{
    u64::from_le_bytes([
        u8_at(s, 0),
        u8_at(s, 1),
        u8_at(s, 2),
        u8_at(s, 3),
        u8_at(s, 4),
        u8_at(s, 5),
        u8_at(s, 6),
        u8_at(s, 7),
    ])
}

// The 16-bit number at an offset.
#[tactic(auto, using(crate::proofs::Laws::number_part, crate::proofs::Laws::number_past))]
pub fn u16_at(s: &[u8], at: usize) -> u16
    ensures { result ≡ number_at 2 s.now at }
{
    if at <= s.len() {
        first_two(&s[at..])
    } else {
        0
    }
}

// The 64-bit number at an offset.
#[tactic(auto, using(crate::proofs::Laws::number_part, crate::proofs::Laws::number_past))]
pub fn u64_at(s: &[u8], at: usize) -> u64
    ensures { result ≡ number_at 8 s.now at }
{
    if at <= s.len() {
        first_eight(&s[at..])
    } else {
        0
    }
}

// The i64 of the eight bytes at an offset.
pub fn i64_at(s: &[u8], at: usize) -> i64
    ensures { result ≡ to_z w64 (number_at 8 s.now at) }
{
    int64::of_word(u64_at(s, at))
}
