//! The ends of a bridge: the pins that are on chip inputs or constants, and what they make members.

ghost use Rattle.std.specs.Prelude.{ℕ, ◌≡◌, ◌<◌, ◌↔◌, length, IsTrue, Some};
ghost use Rattle.ca_flat.specs.Chip.{circuit_at};
ghost use Rattle.ca_linked.specs.Linked.{net_count, IsLibrary};
ghost use Rattle.ca_view.specs.Core.{core_of};
ghost use Rattle.ca_cluster.specs.Bridges.{IsKnown};
ghost use Rattle.ca_cluster.specs.Clusters.{IsPortEnd, IsAtPort, IsOneNode};
ghost use Rattle.ca_cluster.specs.code.Ends.{IsOnOutput, MakesMember};

use crate::bridge::Bridge;
use ca_flatten::cell_at;
use ca_linked::{Chip, InstanceId, NetId, Source};
use ca_net::NodeId;

/// The library instance that drives a net, if one does.
pub(crate) fn gate_on(chip: &Chip, net: NetId) -> Option<u32>
    requires { net.0 < net_count chip.now }
    ensures { (x : ℕ) → (result ≡ Some x) ↔ IsOnOutput chip.now net.0 x }
{
    chip.wired();
    match chip.driver(net) {
        Source::FromPin(w, _) => {
            if chip.is_library(InstanceId(w)) {
                Some(w)
            } else {
                None
            }
        }
        Source::FromPort(_) | Source::FromConstant(_) => None,
    }
}

/// The instance that an end of a bridge makes a member of its cluster, if there is one: that which drives the
/// net of an input pin, or the end's own, if it is past the input pins.
pub(crate) fn end_member(chip: &Chip, u: InstanceId, n: NodeId) -> Option<u32>
    requires library { IsLibrary chip.now u.0 }
    requires within { n.0 < length (circuit_at (core_of chip.now) u.0).nodes }
    ensures { (x : ℕ) → (result ≡ Some x) ↔ MakesMember (core_of chip.now) u.0 n.0 x }
{
    chip.wired();
    let past = 2 + cell_at(chip, u).inputs();
    let n = n.0 as usize;
    if n < 2 {
        None
    } else if n < past {
        gate_on(chip, chip.pin_net(u, n - 2))
    } else {
        Some(u.0)
    }
}

// Whether the node is that of an input pin on a chip input or a constant.
fn is_port_end(chip: &Chip, u: InstanceId, n: NodeId) -> bool
    requires library { IsLibrary chip.now u.0 }
    requires within { n.0 < length (circuit_at (core_of chip.now) u.0).nodes }
    ensures { IsTrue result ↔ IsPortEnd (core_of chip.now) u.0 n.0 }
{
    chip.wired();
    let past = 2 + cell_at(chip, u).inputs();
    let n = n.0 as usize;
    if n < 2 {
        return false;
    }
    if past <= n {
        return false;
    }
    match gate_on(chip, chip.pin_net(u, n - 2)) {
        Some(_) => false,
        None => true,
    }
}

/// Whether an input pin among the ends of a bridge is on a chip input or a constant.
pub fn is_at_port(chip: &Chip, bridge: Bridge) -> bool
    requires { IsKnown chip.now bridge }
    ensures { IsTrue result ↔ IsAtPort (core_of chip.now) bridge }
{
    is_port_end(chip, bridge.instance, bridge.m) || is_port_end(chip, bridge.instance, bridge.n)
}

/// Whether both ends of a bridge are one node of the flat network: pins on one net.
pub fn is_one_node(chip: &Chip, bridge: Bridge) -> bool
    requires { IsKnown chip.now bridge }
    ensures { IsTrue result ↔ IsOneNode (core_of chip.now) bridge }
{
    chip.wired();
    let cell = cell_at(chip, bridge.instance);
    let outer = 2 + cell.inputs() + cell.outputs();
    let m = bridge.m.0 as usize;
    let n = bridge.n.0 as usize;
    if m < 2 {
        return false;
    }
    if outer <= n {
        return false;
    }
    chip.pin_net(bridge.instance, m - 2).0 == chip.pin_net(bridge.instance, n - 2).0
}
