//! The lists of a network that owns its nodes and devices.

use crate::device::Device;
use crate::node::NodeKind;
use ca_base::List;

/// The nodes of a network, in order.
pub type NodeList = List<NodeKind>;

/// The devices of a network, in order.
pub type DeviceList = List<Device>;
