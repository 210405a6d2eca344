//! The nodes of a network.

ghost use Rattle.std.specs.Prelude.{◌≡◌};
ghost use Rattle.ca_net.specs.Path.{root_strength};

use crate::scale::INPUT;

/// A place in a network's list of nodes.
#[derive(Clone, Copy, Debug, PartialEq, Eq)]
pub struct NodeId(pub u32);

/// An input node, whose value is set from outside, or a storage node, which keeps its charge, with its size.
#[derive(Clone, Copy, Debug, PartialEq, Eq)]
pub enum NodeKind {
    Input,
    Storage(u8),
}

impl NodeKind {
    /// What the node gives to the paths that begin at it: an input node its own strength, a storage node its
    /// size.
    pub fn root_strength(self) -> u8
        ensures { result ≡ root_strength self }
    {
        match self {
            NodeKind::Input => INPUT,
            NodeKind::Storage(size) => size,
        }
    }
}
