//! The waves of a simulator, as the guide reads them.

use ca_guide::NetWaves;
use ca_net::Wave;

// The same waves, with nets of four bytes.
#[derive(Drop)]
pub(crate) struct GuideWaves<'a, V: ca_sim::NetWaves> {
    pub(crate) waves: &'a V,
}

impl<V: ca_sim::NetWaves> NetWaves for GuideWaves<'_, V> {
    ghost use Rattle.ca_judge.specs.GuideSeen.{guide_seen};

    ghost seen = { λ waves. guide_seen (V.seen waves.waves.now) };

    fn good(&self, net: u32) -> Wave {
        self.waves.exact();
        self.waves.good(net as usize)
    }

    fn faulty(&self, net: u32) -> Wave {
        self.waves.exact();
        self.waves.faulty(net as usize)
    }

    fn bit(&self, bit: u16) -> Option<bool> {
        self.waves.bit(bit as usize)
    }
}
