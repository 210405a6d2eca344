//! The kinds of paths.

ghost use Rattle.std.specs.Prelude.{IsTrue, ◌↔◌};
ghost use Rattle.ca_net.specs.Passing.{PassesAt};

use crate::device::DeviceKind;
use crate::trit::Trit;

/// Which paths are looked for.
#[derive(Clone, Copy, Debug, PartialEq, Eq)]
pub enum PathKind {
    /// Those whose devices all conduct.
    Definite,
    /// Those none of whose devices is open.
    Potential,
}

impl PathKind {
    /// Whether a path of this kind may go through a device with this value of its gate.
    pub fn passes(self, device: DeviceKind, gate: Trit) -> bool
        ensures { IsTrue result ↔ PassesAt self device gate }
    {
        match (device, gate) {
            (DeviceKind::N, Trit::One) | (DeviceKind::P, Trit::Zero) | (DeviceKind::D, _) => true,
            (DeviceKind::N, Trit::Zero) | (DeviceKind::P, Trit::One) => false,
            (DeviceKind::N | DeviceKind::P, Trit::X) => self == PathKind::Potential,
        }
    }
}
