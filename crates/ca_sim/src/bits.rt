//! Where the values of all bits come from.

ghost use Rattle.std.specs.Prelude.{◌≡◌, ◌<◌, length};
ghost use Rattle.ca_net.specs.State.{value_at};

use ca_net::{State, Trit};

/// A value for each bit of a chip, X for one that is unset.
pub trait Bits {
    ghost use Rattle.std.specs.Prelude.{List};
    ghost use Rattle.ca_net.specs.declared.trit.Trit.{Trit};

    /// The values.
    ghost bits: { Self → List Trit };

    /// The value of a bit.
    fn value(&self, bit: usize) -> Trit
        requires { bit < length (bits self.now) }
        ensures { result ≡ value_at (bits self.now) bit };
}

impl Bits for State {
    ghost bits = { λ state. state };

    fn value(&self, bit: usize) -> Trit {
        self.get(bit)
    }
}
