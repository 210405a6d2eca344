//! The bridges of a library instance of a linked chip, and the cluster of each.
#![tactic(auto)]

mod bridge;
mod clusters;
mod ends;
mod laws;
mod marks;
mod members;
mod short;

pub use bridge::{Bridge, BridgeList, bridge_name, bridges};
pub use clusters::{Clustered, cluster};
pub use ends::{is_at_port, is_one_node};
pub use laws::{members_can_merge, merged_is_for};
pub use members::{are_same, members_of};
pub use short::short_for;
