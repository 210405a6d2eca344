//! The three limits of a node.

ghost use Rattle.std.specs.Prelude.{◌≡◌};
ghost use Rattle.ca_net.specs.Wave.{pair_of};

use crate::trit::{Trit, meet};

/// The values to which a node settles under the first inputs, while the inputs change, and under the last
/// inputs. The middle is at or below the first and the last.
#[derive(Clone, Copy, Debug, PartialEq, Eq)]
pub struct Wave {
    pub first: Trit,
    pub mid: Trit,
    pub last: Trit,
}

/// The wave of a node of which no value is known.
impl Default for Wave {
    ghost use Rattle.ca_net.specs.declared.trit.Trit.TheVariants.{X};

    fn default() -> Self
        ensures { result ≡ record { first = X; mid = X; last = X } }
    {
        Wave {
            first: Trit::X,
            mid: Trit::X,
            last: Trit::X,
        }
    }
}

impl Wave {
    /// The wave of an input that changes from one value to another, or keeps it: its middle is the meet of
    /// the two.
    pub fn pair(first: Trit, last: Trit) -> Wave
        ensures { result ≡ pair_of first last }
    {
        Wave {
            first,
            mid: meet(first, last),
            last,
        }
    }
}
