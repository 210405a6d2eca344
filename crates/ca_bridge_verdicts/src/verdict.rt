//! What is said of a bridge.

use ca_base::List;
use ca_cell::CellRule;
use ca_code::Code;

/// The verdict on a bridge of a library instance.
#[derive(Drop, Debug)]
pub enum BridgeVerdict {
    /// The first listed pair that detects the bridge, and the first observed output at which it does.
    Credited { pair: u32, output: u32 },
    /// Both ends are one node, or no pair of vectors exposes the bridge in the cell of its cluster.
    Unexposable,
    /// No pair of vectors of the chip detects the bridge.
    Untestable,
    /// The search for a pair ended with its budget, and no listed pair detects the bridge.
    Aborted { code: Code },
    /// An input pin among the ends is on a chip input or a constant.
    Port,
    /// The cell of the bridge's cluster breaks this rule first.
    Wide { rule: CellRule },
}

/// A verdict for each bridge of a list, in order.
pub type BridgeVerdicts = List<BridgeVerdict>;
