//! What is seen once a bit more is set.

use crate::followed::Followed;
use crate::scene::BitValue;
use crate::sight::Sight;
use ca_net::{Trit, Wave};

/// The sight of a decision with one bit more, and with what follows from it in its frame.
#[derive(Drop)]
pub(crate) struct Ahead<'a, S: Sight> {
    pub(crate) sight: &'a S,
    pub(crate) followed: &'a Followed,
    pub(crate) set: BitValue,
    // whether the bit is one of the last frame
    pub(crate) is_last: bool,
}

impl<S: Sight> Ahead<'_, S> {
    // The wave with a value in the bit's frame, if that is known.
    fn with(&self, wave: Wave, value: Trit) -> Wave {
        if value == Trit::X {
            wave
        } else if self.is_last {
            Wave {
                first: wave.first,
                mid: wave.mid,
                last: value,
            }
        } else {
            Wave {
                first: value,
                mid: wave.mid,
                last: wave.last,
            }
        }
    }
}

impl<S: Sight> Sight for Ahead<'_, S> {
    fn good(&self, net: u32) -> Wave {
        self.with(self.sight.good(net), self.followed.good(net))
    }

    fn faulty(&self, net: u32) -> Wave {
        self.with(self.sight.faulty(net), self.followed.faulty(net))
    }

    fn is_observed(&self, net: u32) -> bool {
        self.sight.is_observed(net)
    }

    fn onward(&self, net: u32) -> &[u32] {
        self.sight.onward(net)
    }

    fn value(&self, bit: usize) -> Option<bool> {
        if bit == self.set.bit {
            Some(self.set.value)
        } else {
            self.sight.value(bit)
        }
    }

    fn is_wanted(&self, bit: usize) -> bool {
        bit != self.set.bit && self.sight.is_wanted(bit)
    }
}
