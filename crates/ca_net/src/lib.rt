//! Switch-level networks: values, nodes, devices and states, and the response of a node. The definitions of
//! the model are in specs/, from a trit to what every run of a network ends with.
#![tactic(auto)]

mod device;
mod flat_net;
mod laws;
mod lists;
mod marks;
mod network;
mod node;
mod path_kind;
mod response;
mod scale;
mod search;
mod state;
mod trit;
mod wave;

pub use device::{Device, DeviceId, DeviceKind};
pub use flat_net::{FlatNet, NetFault};
pub use laws::{last_limit_is_end, response_rises, scale_is_ordered, some_path_is_unblocked};
pub use lists::{DeviceList, NodeList};
pub use marks::Marks;
pub use network::Network;
pub use node::{NodeId, NodeKind};
pub use path_kind::PathKind;
pub use response::response_by_paths;
pub use scale::{BRIDGE, INNER_NODE, INPUT, OUTPUT_NET, STRONGEST, WEAKEST};
pub use state::State;
pub use trit::{Trit, below, letter, meet};
pub use wave::Wave;
