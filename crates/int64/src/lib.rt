// Arithmetic on i64 that refuses (10) where the Rust overflows, and the low bytes of a number. Each function equals a definition over
// the integers. Only the first four functions and `shr` touch an i64: the rest is on a sign and a size, or on a word of bits.
#![tactic(auto)]

ghost use Rattle.std.specs.Prelude.{◌≡◌, ◌+◌, ◌*◌, ◌%◌, ◌^◌, not, ◌+ℤ◌, ◌-ℤ◌, ◌*ℤ◌, neg_ℤ, unsigned_abs};
ghost use Rattle.std.specs.Int.{w64};
ghost use Rattle.std.proofs.Common.{to_z, of_z};
ghost use Rattle.refusals.specs.Says.{says};
ghost use Rattle.int64.specs.Num.{fit, divided, remaining, shifted, halved, xored, low_byte, high_byte, low_word};
ghost use Rattle.int64.specs.SignAndSize.{below_zero, signed, apart};

use refusals::Refusal;

// 2 ^ 63, the size of the smallest i64.
const HALF: u64 = 9223372036854775808;

// How many bits an i64 has; a shift's count is below it.
const BITS: u64 = 64;

// Whether x is below zero.
fn negative(x: i64) -> bool
    ensures { result ≡ below_zero x }
{
    x < 0
}

// x without its sign.
pub fn size(x: i64) -> u64
    ensures { result ≡ unsigned_abs x }
{
    if x < 0 { (!x as u64) + 1 } else { x as u64 }
}

// The bits of x.
fn word(x: i64) -> u64
    ensures { result ≡ of_z w64 x }
{
    if x < 0 { !(!x as u64) } else { x as u64 }
}

// The number with these bits, read as signed.
pub fn of_word(w: u64) -> i64
    ensures { result ≡ to_z w64 w }
{
    if w < HALF { w as i64 } else { !(!w as i64) }
}

// The number with this sign and this size, where an i64 holds it. All refusing is done here.
fn join(below: bool, m: u64) -> Result<i64, Refusal>
    ensures { says result ≡ fit (signed below m) }
{
    if below {
        if m == 0 {
            Ok(0)
        } else if m <= HALF {
            Ok(!((m - 1) as i64))
        } else {
            Err(Refusal::Arithmetic)
        }
    } else if m < HALF {
        Ok(m as i64)
    } else {
        Err(Refusal::Arithmetic)
    }
}

// x + y, both of one sign.
fn plus(below: bool, x: u64, y: u64) -> Result<i64, Refusal>
    ensures { says result ≡ fit (signed below (x + y)) }
{
    if x <= u64::MAX - y {
        join(below, x + y)
    } else {
        Err(Refusal::Arithmetic)
    }
}

// x less y, with x's sign.
fn minus(below: bool, x: u64, y: u64) -> Result<i64, Refusal>
    ensures { says result ≡ fit (apart below x y) }
{
    if y <= x {
        join(below, x - y)
    } else {
        join(!below, y - x)
    }
}

// The sum of two numbers that are given by sign and size.
fn sum(na: bool, x: u64, nb: bool, y: u64) -> Result<i64, Refusal>
    ensures { says result ≡ fit (signed na x +ℤ signed nb y) }
{
    if na {
        if nb {
            plus(true, x, y)
        } else {
            minus(true, x, y)
        }
    } else if nb {
        minus(false, x, y)
    } else {
        plus(false, x, y)
    }
}

// a + b
pub fn add(a: i64, b: i64) -> Result<i64, Refusal>
    ensures { says result ≡ fit (a +ℤ b) }
{
    sum(negative(a), size(a), negative(b), size(b))
}

// a - b
pub fn sub(a: i64, b: i64) -> Result<i64, Refusal>
    ensures { says result ≡ fit (a -ℤ b) }
{
    sum(negative(a), size(a), !negative(b), size(b))
}

// NEG: 0 - a
pub fn neg(a: i64) -> Result<i64, Refusal>
    ensures { says result ≡ fit (neg_ℤ a) }
{
    join(!negative(a), size(a))
}

// x times y, of a given sign.
fn times(below: bool, x: u64, y: u64) -> Result<i64, Refusal>
    ensures { says result ≡ fit (signed below (x * y)) }
{
    if y == 0 {
        join(below, 0)
    } else if x <= u64::MAX / y {
        join(below, x * y)
    } else {
        Err(Refusal::Arithmetic)
    }
}

// a * b
pub fn mul(a: i64, b: i64) -> Result<i64, Refusal>
    ensures { says result ≡ fit (a *ℤ b) }
{
    times(negative(a) != negative(b), size(a), size(b))
}

// a / b, rounded toward zero; 0 where b is 0.
pub fn div(a: i64, b: i64) -> Result<i64, Refusal>
    ensures { says result ≡ divided a b }
{
    let y = size(b);
    if y == 0 {
        return Ok(0);
    }
    join(negative(a) != negative(b), size(a) / y)
}

// a % b, with a's sign; 0 where b is 0; refused where a / b is.
pub fn rem(a: i64, b: i64) -> Result<i64, Refusal>
    ensures { says result ≡ remaining a b }
{
    let y = size(b);
    if y == 0 {
        return Ok(0);
    }
    let x = size(a);
    let na = negative(a);
    join(na != negative(b), x / y)?;
    join(na, x % y)
}

// w doubled n times, each time modulo 2 ^ 64.
fn doubled(w: u64, n: u64) -> u64
    ensures { result ≡ (w * 2 ^ n) % 2 ^ 64 }
{
    let mut v = w;
    for i in 0..n {
        v = v.wrapping_add(v);
    }
    v
}

// a << k: the low 64 bits, read as signed.
pub fn shl(a: i64, k: i64) -> Result<i64, Refusal>
    ensures { says result ≡ shifted a k }
{
    if negative(k) {
        return Err(Refusal::Arithmetic);
    }
    let n = size(k);
    if n < BITS {
        Ok(of_word(doubled(word(a), n)))
    } else {
        Err(Refusal::Arithmetic)
    }
}

// a >> k, rounded down.
pub fn shr(a: i64, k: i64) -> Result<i64, Refusal>
    ensures { says result ≡ halved a k }
{
    if negative(k) {
        return Err(Refusal::Arithmetic);
    }
    let n = size(k);
    if n < BITS {
        Ok(a >> n)
    } else {
        Err(Refusal::Arithmetic)
    }
}

// The exclusive or of the bits.
pub fn xor(a: i64, b: i64) -> i64
    ensures { result ≡ xored a b }
{
    a ^ b
}

// a modulo 256.
pub fn low_byte(a: i64) -> u8
    ensures { result ≡ low_byte a }
{
    (word(a) % 256) as u8
}

// The floor of a over 256, modulo 256.
pub fn high_byte(a: i64) -> u8
    ensures { result ≡ high_byte a }
{
    low_byte(a >> 8)
}

// a modulo 65,536.
pub fn low_word(a: i64) -> u16
    ensures { result ≡ low_word a }
{
    (word(a) % 65536) as u16
}
