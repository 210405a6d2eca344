//! What every network offers.

ghost use Rattle.std.specs.Prelude.{◌≡◌, ◌<◌, length, slice_get};

use crate::device::{Device, DeviceId};
use crate::node::{NodeId, NodeKind};

/// A network of nodes and devices, which contracts see as its two lists. Each implementation keeps what is
/// said of a well-formed circuit.
pub trait Network {
    ghost use Rattle.ca_net.specs.Circuit.{Circuit, IsWellFormed};

    /// The list of nodes and the list of devices.
    ghost circuit: { Self → Circuit };

    /// The number of nodes.
    fn node_count(&self) -> usize
        ensures count { result ≡ length (circuit self.now).nodes }
        ensures well_formed { IsWellFormed (circuit self.now) };

    /// The number of devices.
    fn device_count(&self) -> usize
        ensures count { result ≡ length (circuit self.now).devices }
        ensures well_formed { IsWellFormed (circuit self.now) };

    /// The kind of a node.
    fn kind(&self, n: NodeId) -> NodeKind
        requires { n.0 < length (circuit self.now).nodes }
        ensures { slice_get (circuit self.now).nodes n.0 ≡ Some result };

    /// A device.
    fn device(&self, d: DeviceId) -> Device
        requires { d.0 < length (circuit self.now).devices }
        ensures { slice_get (circuit self.now).devices d.0 ≡ Some result };
}
