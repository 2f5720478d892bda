// The operators of a tape, which are those of the Rust's `BinaryOp`, and the flag NOT: comparisons and truth values, as 0 or 1, and the
// operator of a number. What an operator computes with is int64.
#![tactic(auto)]

ghost use Rattle.std.specs.Prelude.{◌≡◌, not, ◌&&◌, ◌||◌};
ghost use Rattle.std.specs.Int.Signed.{lt_z, le_z};
ghost use Rattle.refusals.specs.Says.{says};
ghost use Rattle.int64.specs.Num.{eq_z};
ghost use Rattle.operators.specs.Operators.{flag, is_on, not_of, applied};

use refusals::Refusal;

// a == b, as 0 or 1.
pub fn eq(a: i64, b: i64) -> i64
    ensures { result ≡ flag (eq_z a b) }
{
    i64::from(a == b)
}

// a != b, as 0 or 1.
pub fn ne(a: i64, b: i64) -> i64
    ensures { result ≡ flag (not (eq_z a b)) }
{
    i64::from(a != b)
}

// a > b, as 0 or 1.
pub fn gt(a: i64, b: i64) -> i64
    ensures { result ≡ flag (lt_z b a) }
{
    i64::from(a > b)
}

// a >= b, as 0 or 1.
pub fn gt_eq(a: i64, b: i64) -> i64
    ensures { result ≡ flag (le_z b a) }
{
    i64::from(a >= b)
}

// a < b, as 0 or 1.
pub fn lt(a: i64, b: i64) -> i64
    ensures { result ≡ flag (lt_z a b) }
{
    i64::from(a < b)
}

// a <= b, as 0 or 1.
pub fn lt_eq(a: i64, b: i64) -> i64
    ensures { result ≡ flag (le_z a b) }
{
    i64::from(a <= b)
}

// Whether a is not 0.
fn on(a: i64) -> bool
    ensures { result ≡ is_on a }
{
    int64::size(a) != 0
}

// a && b: whether both are not 0, as 0 or 1.
pub fn and(a: i64, b: i64) -> i64
    ensures { result ≡ flag (is_on a && is_on b) }
{
    i64::from(on(a) && on(b))
}

// a || b: whether one of them is not 0, as 0 or 1.
pub fn or(a: i64, b: i64) -> i64
    ensures { result ≡ flag (is_on a || is_on b) }
{
    i64::from(on(a) || on(b))
}

// NOT: 1 of 0, else 0.
pub fn not(a: i64) -> i64
    ensures { result ≡ not_of a }
{
    i64::from(!on(a))
}

// The operator of this number, 0 to 15 in the tape's order, on two numbers; any other number is refused (1).
pub fn apply_i64(op: u8, lhs: i64, rhs: i64) -> Result<i64, Refusal>
    ensures { says result ≡ applied op lhs rhs }
{
    match op {
        0 => int64::add(lhs, rhs),
        1 => int64::sub(lhs, rhs),
        2 => int64::mul(lhs, rhs),
        3 => int64::div(lhs, rhs),
        4 => int64::rem(lhs, rhs),
        5 => int64::shl(lhs, rhs),
        6 => int64::shr(lhs, rhs),
        7 => Ok(int64::xor(lhs, rhs)),
        8 => Ok(eq(lhs, rhs)),
        9 => Ok(ne(lhs, rhs)),
        10 => Ok(gt(lhs, rhs)),
        11 => Ok(gt_eq(lhs, rhs)),
        12 => Ok(lt(lhs, rhs)),
        13 => Ok(lt_eq(lhs, rhs)),
        14 => Ok(and(lhs, rhs)),
        15 => Ok(or(lhs, rhs)),
        _ => Err(Refusal::Argument),
    }
}
