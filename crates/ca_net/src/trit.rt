//! The three values of a node.

ghost use Rattle.std.specs.Prelude.{◌≡◌, IsTrue, ◌↔◌};
ghost use Rattle.ca_net.specs.Trit.{IsBelow, meet_of, letter_of};

/// The value of a node: 0, 1, or X where it isn't known.
#[derive(Clone, Copy, Debug, PartialEq, Eq)]
pub enum Trit {
    Zero,
    One,
    X,
}

/// The meet of two values.
pub fn meet(a: Trit, b: Trit) -> Trit
    ensures { result ≡ meet_of a b }
{
    if a == b { a } else { Trit::X }
}

/// Whether the first value is below the second, as each value is below itself.
pub fn below(a: Trit, b: Trit) -> bool
    ensures { IsTrue result ↔ IsBelow a b }
{
    a == Trit::X || a == b
}

/// The letter of a value: 0, 1 or X.
pub fn letter(value: Trit) -> u8
    ensures { result ≡ letter_of value }
{
    match value {
        Trit::Zero => b'0',
        Trit::One => b'1',
        Trit::X => b'X',
    }
}
