//! Partial pairs of which one vector is set.

ghost use Rattle.std.specs.Prelude.{◌≡◌, ◌+◌, ◌<◌, ◌≤◌, ◌/◌, ◌%◌, ◌^◌};
ghost use Rattle.ca_cell.specs.Row.{digit_value};
ghost use Rattle.ca_every_vector.specs.declared.vectors.TheConstants.{MOST_VECTOR_BITS};

use ca_net::Trit;
use ca_sim::Bits;

/// The most bits of a vector of a chip all of whose vectors are tried: they are 256 vectors.
pub const MOST_VECTOR_BITS: usize = 8;

/// The most inputs of a region.
pub(crate) const MOST_REGION_BITS: usize = 20;

/// The most inputs of a region that is tried before a wider one.
pub(crate) const FEW_REGION_BITS: usize = 12;

/// The first vector of this number; no bit of the last one is set.
#[derive(Clone, Copy, Debug)]
pub(crate) struct FirstVector {
    pub(crate) inputs: usize,
    pub(crate) number: usize,
    ghost few: { inputs ≤ MOST_VECTOR_BITS },
}

impl Bits for FirstVector {
    ghost use Rattle.ca_every_vector.specs.Vectors.{first_set};

    ghost bits = { λ vector. first_set vector.inputs vector.number };

    fn value(&self, bit: usize) -> Trit {
        if bit < self.inputs {
            digit(self.number, self.inputs - 1 - bit)
        } else {
            Trit::X
        }
    }
}

/// The last vector of this number; no bit of the first one is set.
#[derive(Clone, Copy, Debug)]
pub(crate) struct LastVector {
    pub(crate) inputs: usize,
    pub(crate) number: usize,
    ghost few: { inputs ≤ MOST_VECTOR_BITS },
}

impl Bits for LastVector {
    ghost use Rattle.ca_every_vector.specs.Vectors.{last_set};

    ghost bits = { λ vector. last_set vector.inputs vector.number };

    fn value(&self, bit: usize) -> Trit {
        if bit < self.inputs {
            Trit::X
        } else {
            let place = bit - self.inputs;
            digit(self.number, self.inputs - 1 - place)
        }
    }
}

/// The binary digit of a number with this many digits after it.
pub(crate) fn digit(number: usize, after: usize) -> Trit
    requires { after < 64 }
    ensures { result ≡ digit_value (number / 2 ^ after % 2) }
{
    if (number >> after) % 2 == 0 {
        Trit::Zero
    } else {
        Trit::One
    }
}
