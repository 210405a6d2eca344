//! The vectors of a chip's flat network.

ghost use Rattle.std.specs.Prelude.{◌+◌, ◌≤◌, ◌≡◌, length, IfOk};
ghost use Rattle.ca_flat.specs.Pair.{bit_count, net_value, constant_value, input_value};
ghost use Rattle.ca_chip_replay.specs.code.Kept.{IsVector, unknown_nets};

use ca_base::NoMemory;
use ca_net::{State, Trit};
use ca_sim::Bits;
use ca_view::View;
use std::alloc::Global;

// The vector in which only power and ground are known.
fn rails(alloc: Global, nodes: usize) -> Result<State, NoMemory>
    requires { 2 ≤ nodes }
    ensures { IfOk result (IsVector nodes 0 unknown_nets) }
{
    let mut vector = State::unknown(alloc, nodes)?;
    vector.set(0, Trit::One);
    vector.set(1, Trit::Zero);
    Ok(vector)
}

// Gives the nets of the chip inputs their bits, which begin at this one.
fn set_inputs<B: Bits>(vector: &mut State, view: &View<'_>, pair: &B, from: usize)
    requires from { from ≤ length view.now.core.inputs }
    requires bits { from + length view.now.core.inputs ≤ length (B.bits pair.now) }
    requires fits { 2 + length view.now.core.nets ≤ length vector.old }
    requires begun { IsVector (length vector.old) (length view.now.core.nets) unknown_nets vector.old }
    ensures { IsVector (length vector.old) (length view.now.core.nets)
        (input_value view.now.core.inputs (B.bits pair.now) from) vector.new }
{
    view.linked();
    let inputs = view.input_count();
    for k in 0..inputs {
        // The first input of a net counts, so it comes last.
        let input = inputs - 1 - k;
        vector.set(2 + view.input(input), pair.value(from + input));
    }
}

// Gives the nets of constants their values.
fn set_constants<B: Bits>(vector: &mut State, view: &View<'_>, pair: &B, from: usize)
    requires fits { 2 + length view.now.core.nets ≤ length vector.old }
    requires begun { IsVector (length vector.old) (length view.now.core.nets)
        (input_value view.now.core.inputs (B.bits pair.now) from) vector.old }
    ensures { IsVector (length vector.old) (length view.now.core.nets)
        (net_value view.now.core (B.bits pair.now) from) vector.new }
{
    view.linked();
    let constants = view.constant_count();
    for k in 0..constants {
        // The first constant of a net counts, so it comes last.
        let constant = view.constant(constants - 1 - k);
        vector.set(2 + constant.net, constant.value);
    }
}

/// The vector of a flat network with this many nodes in which bits of the chip inputs begin at this one. No
/// storage node is known in it.
pub(crate) fn vector_of<B: Bits>(
    alloc: Global,
    view: &View<'_>,
    nodes: usize,
    pair: &B,
    from: usize,
) -> Result<State, NoMemory>
    requires from { from ≤ length view.now.core.inputs }
    requires bits { from + length view.now.core.inputs ≤ length (B.bits pair.now) }
    requires fits { 2 + length view.now.core.nets ≤ nodes }
    ensures { IfOk result (IsVector nodes (length view.now.core.nets)
        (net_value view.now.core (B.bits pair.now) from)) }
{
    let mut vector = rails(alloc, nodes)?;
    set_inputs(&mut vector, view, pair, from);
    set_constants(&mut vector, view, pair, from);
    Ok(vector)
}
