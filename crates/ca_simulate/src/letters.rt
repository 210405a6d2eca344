//! The letters of two vectors as the bits of a simulator.

ghost use Rattle.std.specs.Prelude.{◌+◌, ◌<◌, length};

use ca_net::Trit;
use ca_request::{Vectors, trit};
use ca_sim::Bits;

/// The letters of a first vector, and then those of a last one.
#[derive(Clone, Copy)]
pub(crate) struct Letters<'a> {
    pub(crate) vectors: Vectors<'a>,
}

impl Bits for Letters<'_> {
    ghost use Rattle.ca_simulate.specs.Simulated.{pair_of};

    ghost bits = { λ letters. pair_of letters.vectors.first.now letters.vectors.last.now };

    fn value(&self, bit: usize) -> Trit {
        let first = self.vectors.first;
        if bit < first.len() {
            trit(first[bit])
        } else {
            trit(self.vectors.last[bit - first.len()])
        }
    }
}
