//! The scale of sizes and strengths, which is here alone: each size of a storage node is at least 1 and below
//! each strength of a device, and that is below the strength of an input node. Nothing else of these numbers
//! is used, and the law `scale_is_ordered` says in which order they are.

/// The size of an inner node of a cell.
pub const INNER_NODE: u8 = 1;

/// The size of an output net.
pub const OUTPUT_NET: u8 = 2;

/// The strength of the weakest transistors. Those of all transistors go from here to `STRONGEST`.
pub const WEAKEST: u8 = 3;

/// The strength of the strongest transistors.
pub const STRONGEST: u8 = 8;

/// The strength of a bridge, the device of a short.
pub const BRIDGE: u8 = 9;

/// The strength of an input node.
pub const INPUT: u8 = 10;
