//! Which rule a subcircuit breaks first.

ghost use Rattle.std.specs.Prelude.{◌≡◌, ◌<◌, ◌≤◌, ℕ, length, IfSome, IfNone, OnSome, option_map};
ghost use Rattle.ca_cell.specs.Raw.{is_input, is_output, is_power, is_ground, role_count, inner_count};
ghost use Rattle.ca_cell.specs.Raw.{node_of};
ghost use Rattle.ca_cell.specs.Rules.{IsRaw, PlacesWithin, node_count, input_node, channel_pin, KeepsRules};
ghost use Rattle.ca_cell.specs.Rules.{IsFirstBroken};
ghost use Rattle.ca_cell.specs.code.Rules.{KeepsCounts};

use crate::raw::{RawCell, RawDevice, RawPin, Role};
use crate::rule::{CellRule, MOST_DEVICES, MOST_INPUTS, MOST_NODES, MOST_OUTPUTS};
use ca_net::{DeviceId, NodeId};

/// The number of input pins.
pub(crate) fn input_count(pins: &[RawPin]) -> usize
    ensures { result ≡ role_count is_input pins.now }
{
    pins.iter().filter(|pin| pin.role.is_input()).count()
}

/// The number of output pins.
pub(crate) fn output_count(pins: &[RawPin]) -> usize
    ensures { result ≡ role_count is_output pins.now }
{
    pins.iter().filter(|pin| pin.role.is_output()).count()
}

// The number of power pins.
fn power_count(pins: &[RawPin]) -> usize
    ensures { result ≡ role_count is_power pins.now }
{
    pins.iter().filter(|pin| pin.role.is_power()).count()
}

// The number of ground pins.
fn ground_count(pins: &[RawPin]) -> usize
    ensures { result ≡ role_count is_ground pins.now }
{
    pins.iter().filter(|pin| pin.role.is_ground()).count()
}

// The first rule on counts that the subcircuit breaks.
fn broken_count(raw: &RawCell) -> Option<CellRule>
    requires { IsRaw raw.now }
    ensures broken { IfSome result (IsFirstBroken raw.now) }
    ensures kept { IfNone result (KeepsCounts raw.now) }
{
    let pins = raw.pins.as_slice();
    let devices = raw.devices.as_slice().len();
    let inputs = input_count(pins);
    let outputs = output_count(pins);
    let nodes = 2 + inputs + outputs + (raw.nets.len() - pins.len());
    if power_count(pins) == 0 || ground_count(pins) == 0 {
        Some(CellRule::NoRail)
    } else if devices > MOST_DEVICES {
        Some(CellRule::TooManyDevices { count: devices })
    } else if nodes > MOST_NODES {
        Some(CellRule::TooManyNodes { count: nodes })
    } else if inputs > MOST_INPUTS {
        Some(CellRule::TooManyInputs { count: inputs })
    } else if outputs == 0 {
        Some(CellRule::NoOutput)
    } else if outputs > MOST_OUTPUTS {
        Some(CellRule::TooManyOutputs { count: outputs })
    } else {
        None
    }
}

/// The node of the net at a place.
pub(crate) fn node_of(raw: &RawCell, place: u32) -> NodeId
    requires raw { IsRaw raw.now }
    requires few { node_count raw.now ≤ MOST_NODES }
    requires within { place < length raw.now.nets }
    ensures node { result.0 ≡ node_of raw.now.pins place }
    ensures within { result.0 < node_count raw.now }
{
    let pins = raw.pins.as_slice();
    let at = place as usize;
    let node = match pins.get(at) {
        Some(pin) => match pin.role {
            Role::Power => 0,
            Role::Ground => 1,
            Role::Input => 2 + input_count(&pins[..at]),
            Role::Output => 2 + input_count(pins) + output_count(&pins[..at]),
        },
        None => 2 + input_count(pins) + output_count(pins) + (at - pins.len()),
    };
    NodeId(node as u32)
}

// The node of the net at a place, if it is that of an input pin.
fn input_node(raw: &RawCell, place: u32) -> Option<NodeId>
    requires raw { IsRaw raw.now }
    requires few { node_count raw.now ≤ MOST_NODES }
    requires within { place < length raw.now.nets }
    ensures { option_map (λ node. node.0) result ≡ input_node raw.now.pins place }
{
    match raw.pins.as_slice().get(place as usize) {
        Some(pin) if pin.role.is_input() => Some(node_of(raw, place)),
        _ => None,
    }
}

// The input pin on which the device has its drain, or else its source.
fn channel_pin(raw: &RawCell, device: &RawDevice) -> Option<NodeId>
    requires raw { IsRaw raw.now }
    requires few { node_count raw.now ≤ MOST_NODES }
    requires places { PlacesWithin (length raw.now.nets) device.now }
    ensures { option_map (λ node. node.0) result ≡ channel_pin raw.now.pins device.now }
{
    input_node(raw, device.drain).or(input_node(raw, device.source))
}

// The first device that has its drain or its source on an input pin, as a broken rule.
fn driven_channel(raw: &RawCell) -> Option<CellRule>
    requires raw { IsRaw raw.now }
    requires few { node_count raw.now ≤ MOST_NODES }
    requires counts { KeepsCounts raw.now }
    ensures broken { IfSome result (IsFirstBroken raw.now) }
    ensures kept { IfNone result (KeepsRules raw.now) }
{
    let devices = raw.devices.as_slice();
    for i in 0..devices.len() {
        if let Some(pin) = channel_pin(raw, &devices[i]) {
            return Some(CellRule::InputDrivesChannel {
                pin,
                device: DeviceId(i as u32),
            });
        }
    }
    None
}

/// The first rule that the subcircuit breaks.
pub(crate) fn first_broken(raw: &RawCell) -> Option<CellRule>
    requires { IsRaw raw.now }
    ensures broken { IfSome result (IsFirstBroken raw.now) }
    ensures kept { IfNone result (KeepsRules raw.now) }
{
    match broken_count(raw) {
        Some(rule) => Some(rule),
        None => driven_channel(raw),
    }
}
