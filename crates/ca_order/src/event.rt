//! The events of an order file, and why one is refused.

ghost use Rattle.std.specs.Prelude.{◌≡◌};
ghost use Rattle.ca_order.specs.declared.event.OrderFault.TheVariants as fault;

use ca_base::{List, NoMemory};
use ca_net::{NodeId, Trit};

/// What is done to a network at once.
#[derive(Drop, Debug)]
pub enum Event {
    /// The nodes take their responses.
    Settle(List<NodeId>),
    /// Those of the nodes whose responses differ from their values become unknown.
    Blur(List<NodeId>),
    /// The input node takes the value.
    Set(NodeId, Trit),
}

/// Whether a node may be set: it is an input node that doesn't have one value of 0 and 1 in both vectors.
#[derive(Clone, Copy, Debug, PartialEq, Eq)]
pub enum Place {
    Free,
    Fixed,
}

/// Why a text is no order file.
#[derive(Clone, Copy, Debug, PartialEq, Eq)]
pub enum OrderFault {
    /// This line, counted from 1, is the first that is no event that is allowed there.
    At { line: usize },
    /// There was no memory.
    NoMemory,
}

impl From<NoMemory> for OrderFault {
    ghost from_gives = { λ _ e. e ≡ fault.NoMemory };

    fn from(_: NoMemory) -> Self {
        OrderFault::NoMemory
    }
}
