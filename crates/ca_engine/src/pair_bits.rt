//! The bits of a pair, as a simulator takes them.

use ca_net::Trit;
use ca_pair::Pair;
use ca_sim::Bits;

// The bits of the pair as values.
#[derive(Clone, Copy)]
pub(crate) struct PairBits<'a> {
    pub(crate) pair: &'a Pair,
}

impl Bits for PairBits<'_> {
    ghost use Rattle.ca_code.specs.Filled.{trits_of};

    ghost bits = { λ bits. trits_of bits.pair.now };

    #[tactic(auto, using(crate::proofs::PairLemmas::trit_at, crate::proofs::PairLemmas::count_of_trits))]
    fn value(&self, bit: usize) -> Trit {
        if self.pair.get(bit) {
            Trit::One
        } else {
            Trit::Zero
        }
    }
}
