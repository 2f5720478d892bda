// What a try compares with the number list: a build the place of a label, a check the number of a constant too, demand 3 nothing.
#![tactic(auto)]

ghost use Rattle.std.specs.Prelude.{◌≡◌};
ghost use Rattle.compares.specs.Compared.{plain, builder, checker};

use refusals::Refusal;

// The refusal to give where a label's place, or a constant's value, differs from the list; `None`: not compared.
#[derive(Clone, Copy, Debug, PartialEq, Eq)]
pub struct Compares {
    pub label: Option<Refusal>,
    pub constant: Option<Refusal>,
}

// Nothing is compared.
pub fn plain() -> Compares
    ensures { result ≡ plain }
{
    Compares {
        label: None,
        constant: None,
    }
}

// What a build compares.
pub fn builder() -> Compares
    ensures { result ≡ builder }
{
    Compares {
        label: Some(Refusal::Moved),
        constant: None,
    }
}

// What a check compares.
pub fn checker() -> Compares
    ensures { result ≡ checker }
{
    Compares {
        label: Some(Refusal::NumberDiffers),
        constant: Some(Refusal::NumberDiffers),
    }
}
