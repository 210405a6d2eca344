//! The waves of an attempt, as the guide reads them.

use ca_confined::Confined;
use ca_guide::NetWaves;
use ca_net::Wave;

// The same waves, with nets of four bytes.
#[derive(Drop)]
pub(crate) struct AttemptWaves<'a, 'v> {
    pub(crate) confined: &'a Confined<'v>,
}

impl NetWaves for AttemptWaves<'_, '_> {
    ghost use Rattle.ca_judge.specs.GuideSeen.{guide_seen};

    ghost seen = { λ waves. guide_seen waves.confined.now };

    fn good(&self, net: u32) -> Wave {
        self.confined.whole();
        self.confined.good(net as usize)
    }

    fn faulty(&self, net: u32) -> Wave {
        self.confined.whole();
        self.confined.faulty(net as usize)
    }

    fn bit(&self, bit: u16) -> Option<bool> {
        self.confined.bit(bit as usize)
    }
}
