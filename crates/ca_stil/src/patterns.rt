//! Pairs of vectors and their expected values, however they are kept.

ghost use Rattle.std.specs.Prelude.{◌≡◌, ◌<◌, length, slice_get, Some};

use ca_base::List;
use ca_net::Trit;
use ca_pair::Pair;

/// A pair of vectors. Contracts see it as the list of its pattern bits.
pub trait PatternBits {
    ghost use Rattle.std.specs.Prelude.{List, Bool};

    /// The pattern bits: those of the first vector, and then those of the second; in each first the chip
    /// inputs among the ports, and then the scan instances in netlist order.
    ghost bits: { Self → List Bool };

    /// The number of bits.
    fn len(&self) -> usize
        ensures { result ≡ length (bits self.now) };

    /// The bit at a place.
    fn bit(&self, place: usize) -> bool
        requires { place < length (bits self.now) }
        ensures { slice_get (bits self.now) place ≡ Some result };
}

/// The values that are expected under a pair. Contracts see them as a list.
pub trait ExpectedValues {
    ghost use Rattle.std.specs.Prelude.{List};
    ghost use Rattle.ca_net.specs.declared.trit.Trit.{Trit};

    /// The values at the observed outputs: first at those among the ports, and then in the scan instances in
    /// netlist order. X where none is expected.
    ghost values: { Self → List Trit };

    /// The number of values.
    fn len(&self) -> usize
        ensures { result ≡ length (values self.now) };

    /// The value at a place.
    fn value(&self, place: usize) -> Trit
        requires { place < length (values self.now) }
        ensures { slice_get (values self.now) place ≡ Some result };
}

impl PatternBits for List<bool> {
    ghost bits = { λ list. list };

    fn len(&self) -> usize {
        List::len(self)
    }

    fn bit(&self, place: usize) -> bool {
        self.get(place)
    }
}

impl PatternBits for Pair {
    ghost bits = { λ pair. pair };

    fn len(&self) -> usize {
        Pair::len(self)
    }

    fn bit(&self, place: usize) -> bool {
        self.get(place)
    }
}

impl ExpectedValues for List<Trit> {
    ghost values = { λ list. list };

    fn len(&self) -> usize {
        List::len(self)
    }

    fn value(&self, place: usize) -> Trit {
        self.get(place)
    }
}
