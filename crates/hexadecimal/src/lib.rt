// A byte as the listing writes it: two capital hexadecimal digits; and one digit.
#![tactic(auto)]

ghost use Rattle.std.specs.Prelude.{◌≡◌, [], ◌∷◌, ◌%◌};
ghost use Rattle.hexadecimal.specs.Hex.{digit_of, digits_of};

// The digit of a number: of its remainder by 16.
pub fn digit(n: u8) -> u8
    ensures { result ≡ digit_of (n % 16) }
{
    let low = n % 16;
    if low < 10 {
        b'0' + low
    } else {
        b'A' + (low - 10)
    }
}

// The two digits of a byte, the high one first.
pub fn capital(b: u8) -> [u8; 2]
    ensures { result ≡ digits_of b }
{
    [digit(b / 16), digit(b)]
}
