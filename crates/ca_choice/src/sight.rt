//! What the choice sees at a decision.

ghost use Rattle.std.specs.Prelude.{◌<◌, length, IsTrue};
ghost use Rattle.ca_guide.specs.Seen.{Covers};

use crate::cell_cubes::are_opposite;
use ca_guide::{Guide, NetWaves};
use ca_net::{Trit, Wave};
use ca_view::View;

/// The waves and the bits. Of nets and bits that aren't there nothing is known.
pub(crate) trait Sight {
    /// The wave of the net without the defect.
    fn good(&self, net: u32) -> Wave;

    /// The wave of the net with the defect.
    fn faulty(&self, net: u32) -> Wave;

    /// Whether the net is observed.
    fn is_observed(&self, net: u32) -> bool;

    /// The nets that the net feeds.
    fn onward(&self, net: u32) -> &[u32];

    /// The value of the bit, if it is set.
    fn value(&self, bit: usize) -> Option<bool>;

    /// Whether the bit is one of the support that isn't set.
    fn is_wanted(&self, bit: usize) -> bool;
}

/// The sight of a guide.
#[derive(Drop)]
pub(crate) struct GuideSight<'a, V: NetWaves> {
    pub(crate) guide: &'a Guide,
    pub(crate) chip: &'a View<'a>,
    pub(crate) waves: &'a V,
    ghost covers: { Covers chip.now.lists (V.seen waves.now) },
}

// Whether there is such a net.
fn has_net(chip: &View<'_>, net: u32) -> bool
    ensures { IsTrue result → net < length chip.now.lists.onward }
{
    chip.linked();
    (net as usize) < chip.nets()
}

/// Whether there is such a net, and it is observed.
pub(crate) fn is_observed(chip: &View<'_>, net: u32) -> bool {
    has_net(chip, net) && chip.is_observed(net)
}

impl<V: NetWaves> Sight for GuideSight<'_, V> {
    fn good(&self, net: u32) -> Wave {
        if has_net(self.chip, net) {
            self.waves.good(net)
        } else {
            Wave::default()
        }
    }

    fn faulty(&self, net: u32) -> Wave {
        if has_net(self.chip, net) {
            self.waves.faulty(net)
        } else {
            Wave::default()
        }
    }

    fn is_observed(&self, net: u32) -> bool {
        is_observed(self.chip, net)
    }

    fn onward(&self, net: u32) -> &[u32] {
        if has_net(self.chip, net) {
            self.chip.onward(net)
        } else {
            &[]
        }
    }

    fn value(&self, bit: usize) -> Option<bool> {
        if bit < 2 * self.chip.inputs().len() && bit <= u16::MAX as usize {
            self.waves.bit(bit as u16)
        } else {
            None
        }
    }

    fn is_wanted(&self, bit: usize) -> bool {
        bit <= u16::MAX as usize && self.guide.supports(bit as u16) && self.value(bit).is_none()
    }
}

/// Whether the last values without and with the defect are opposite.
pub(crate) fn shows<S: Sight>(sight: &S, net: u32) -> bool {
    are_opposite(sight.good(net).last, sight.faulty(net).last)
}

/// Whether the last values without and with the defect are one and known.
pub(crate) fn is_dead<S: Sight>(sight: &S, net: u32) -> bool {
    let last = sight.good(net).last;
    last != Trit::X && sight.faulty(net).last == last
}
