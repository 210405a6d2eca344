//! Subcircuits given by counts, and the rule that each breaks first.

use crate::examples::{Example, device_of, raw_of};
use ca_cell::Role::{self, Ground, Input, Output, Power};
use ca_cell::{Cell, CellFault, CellRule, RawCell, RawPin};
use ca_lex::Text;
use ca_net::{DeviceId, DeviceKind, NodeId, STRONGEST};
use std::alloc::Global;
use std::process::Abort;

// How many pins there are of power, ground, inputs and outputs, in this order, how many inner nets, and how
// many devices; and whether the last device has its source on the first input pin. All other terminals are on
// the first pin.
pub(crate) type Shape = ([usize; 6], bool);

// A shape that keeps the rules.
pub(crate) const SOUND: Shape = ([1, 1, 2, 1, 1, 3], false);

// A shape with a device on an input pin.
pub(crate) const DRIVEN: Shape = ([1, 1, 2, 1, 1, 3], true);

fn push_pins(rt: &impl Abort, alloc: Global, raw: &mut RawCell, count: usize, role: Role) {
    for _ in 0..count {
        raw.pins
            .push(RawPin {
                name: Text::from_bytes(alloc, b"A").expect(rt, "memory"),
                role,
            })
            .expect(rt, "memory");
        raw.nets
            .push(Text::from_bytes(alloc, b"A").expect(rt, "memory"))
            .expect(rt, "memory");
    }
}

pub(crate) fn shaped(rt: &impl Abort, alloc: Global, shape: Shape) -> RawCell {
    let ([power, ground, inputs, outputs, inner, devices], drives) = shape;
    let mut raw = raw_of(
        rt,
        alloc,
        &Example {
            pins: &[],
            inner: &[],
            cards: &[],
        },
    );
    push_pins(rt, alloc, &mut raw, power, Power);
    push_pins(rt, alloc, &mut raw, ground, Ground);
    let first_input = raw.nets.len();
    push_pins(rt, alloc, &mut raw, inputs, Input);
    push_pins(rt, alloc, &mut raw, outputs, Output);
    for _ in 0..inner {
        raw.nets
            .push(Text::from_bytes(alloc, b"N").expect(rt, "memory"))
            .expect(rt, "memory");
    }
    for i in 0..devices {
        let on_pin = drives && i + 1 == devices && first_input < 9;
        let source = if on_pin { first_input as u32 } else { 0 };
        let card = (b"M".as_slice(), DeviceKind::N, STRONGEST, 0, 0, source);
        raw.devices
            .push(device_of(rt, alloc, &card))
            .expect(rt, "memory");
    }
    raw
}

// The first rule that the subcircuit breaks.
pub(crate) fn broken(rt: &impl Abort, alloc: Global, raw: &RawCell) -> Option<CellRule> {
    assert!(rt; raw.is_raw());
    match Cell::check(alloc, raw) {
        Ok(_) => None,
        Err(CellFault::Rule(rule)) => Some(rule),
        Err(CellFault::NoMemory) => {
            assert!(rt; false, "memory");
            None
        }
    }
}

const NO_RAIL: Option<CellRule> = Some(CellRule::NoRail);

const NO_OUTPUT: Option<CellRule> = Some(CellRule::NoOutput);

const MANY_DEVICES: Option<CellRule> = Some(CellRule::TooManyDevices { count: 193 });

const MANY_NODES: Option<CellRule> = Some(CellRule::TooManyNodes { count: 193 });

const MANY_INPUTS: Option<CellRule> = Some(CellRule::TooManyInputs { count: 7 });

const MANY_OUTPUTS: Option<CellRule> = Some(CellRule::TooManyOutputs { count: 3 });

const DRIVES: Option<CellRule> = Some(CellRule::InputDrivesChannel {
    pin: NodeId(2),
    device: DeviceId(2),
});

// Each rule, and each limit at its edge; then each two rules that can be broken together.
static SHAPES: [([usize; 6], bool, Option<CellRule>); 36] = [
    ([1, 1, 2, 1, 1, 3], false, None),
    ([0, 1, 2, 1, 1, 3], false, NO_RAIL),
    ([1, 0, 2, 1, 1, 3], false, NO_RAIL),
    ([2, 3, 2, 1, 1, 3], false, None),
    ([1, 1, 2, 1, 1, 192], false, None),
    ([1, 1, 2, 1, 1, 193], false, MANY_DEVICES),
    ([1, 1, 2, 1, 187, 3], false, None),
    ([1, 1, 2, 1, 188, 3], false, MANY_NODES),
    ([2, 1, 2, 1, 187, 3], false, None),
    ([1, 1, 6, 1, 1, 3], false, None),
    ([1, 1, 7, 1, 1, 3], false, MANY_INPUTS),
    ([1, 1, 0, 1, 1, 3], false, None),
    ([1, 1, 2, 0, 1, 3], false, NO_OUTPUT),
    ([1, 1, 2, 2, 1, 3], false, None),
    ([1, 1, 2, 3, 1, 3], false, MANY_OUTPUTS),
    ([1, 1, 2, 1, 1, 3], true, DRIVES),
    ([1, 0, 2, 1, 1, 193], false, NO_RAIL),
    ([1, 0, 2, 1, 189, 3], false, NO_RAIL),
    ([1, 0, 7, 1, 1, 3], false, NO_RAIL),
    ([1, 0, 2, 0, 1, 3], false, NO_RAIL),
    ([1, 0, 2, 3, 1, 3], false, NO_RAIL),
    ([1, 0, 2, 1, 1, 3], true, NO_RAIL),
    ([1, 1, 2, 1, 188, 193], false, MANY_DEVICES),
    ([1, 1, 7, 1, 1, 193], false, MANY_DEVICES),
    ([1, 1, 2, 0, 1, 193], false, MANY_DEVICES),
    ([1, 1, 2, 3, 1, 193], false, MANY_DEVICES),
    ([1, 1, 2, 1, 1, 193], true, MANY_DEVICES),
    ([1, 1, 7, 1, 183, 3], false, MANY_NODES),
    ([1, 1, 2, 0, 189, 3], false, MANY_NODES),
    ([1, 1, 2, 3, 186, 3], false, MANY_NODES),
    ([1, 1, 2, 1, 188, 3], true, MANY_NODES),
    ([1, 1, 7, 0, 1, 3], false, MANY_INPUTS),
    ([1, 1, 7, 3, 1, 3], false, MANY_INPUTS),
    ([1, 1, 7, 1, 1, 3], true, MANY_INPUTS),
    ([1, 1, 2, 0, 1, 3], true, NO_OUTPUT),
    ([1, 1, 2, 3, 1, 3], true, MANY_OUTPUTS),
];

#[test]
fn the_first_broken_rule_is_answered(rt: HostRuntime) {
    for (counts, drives, expected) in &SHAPES {
        let raw = shaped(&rt, rt.alloc(), (*counts, *drives));
        let rule = broken(&rt, rt.alloc(), &raw);
        assert_eq!(rt; rule, *expected, "{counts:?} {drives}");
    }
}
