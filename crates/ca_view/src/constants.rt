//! The constants of the core.

ghost use Rattle.std.specs.Prelude.{◌≡◌, ◌<◌, ◌++◌, ◌↔◌, if◌then◌else◌, IsTrue, Some, IfOk, OnOk};
ghost use Rattle.ca_linked.specs.Linked.{net_count, constant_net};
ghost use Rattle.ca_view.specs.Core.{trit_of, constant_on, in_net_order, core_constants};
ghost use Rattle.ca_view.specs.Numbers.{AreCoreNumbers};
ghost use Rattle.ca_view.specs.Constants.{constants_of};
ghost use Rattle.ca_view.specs.code.Constants.{fixed_of};

use crate::nets::CoreNets;
use ca_base::NoMemory;
use ca_linked::{Chip, NetId};
use ca_net::Trit;
use std::alloc::Global;

/// An input net whose value is fixed.
#[derive(Clone, Copy, Debug)]
pub struct FixedNet {
    pub net: usize,
    pub value: Trit,
}

// Whether a constant drives a net.
fn is_driven_by(chip: &Chip, net: NetId, value: bool) -> bool
    requires { net.0 < net_count chip.now }
    ensures { IsTrue result ↔ (constant_net chip.now value ≡ Some net.0) }
{
    chip.wired();
    match chip.constant(net) {
        Some(true) => value,
        Some(false) => !value,
        None => false,
    }
}

// The net that a constant drives.
fn constant_net(chip: &Chip, value: bool) -> Option<u32>
    ensures { result ≡ constant_net chip.now value }
{
    chip.wired();
    for net in 0..chip.nets() {
        if is_driven_by(chip, NetId(net as u32), value) {
            return Some(net as u32);
        }
    }
    None
}

// The value of a constant.
fn trit_of(value: bool) -> Trit
    ensures { result ≡ trit_of value }
{
    if value { Trit::One } else { Trit::Zero }
}

// The net of the core that a constant drives.
fn fixed_by(chip: &Chip, numbers: &CoreNets, value: bool) -> Option<FixedNet>
    requires { AreCoreNumbers chip.now numbers.now }
    ensures { fixed_of result ≡ constant_on chip.now value (constant_net chip.now value) }
{
    chip.wired();
    match constant_net(chip, value) {
        Some(net) => {
            if chip.is_scan_path(NetId(net)) {
                None
            } else {
                Some(FixedNet {
                    net: numbers.get(NetId(net)) as usize,
                    value: trit_of(value),
                })
            }
        }
        None => None,
    }
}

// Whether both are there, and the second is not after the first.
fn is_swapped(low: Option<FixedNet>, high: Option<FixedNet>) -> bool
    ensures { in_net_order (fixed_of low) (fixed_of high)
        ≡ (if result then fixed_of high ++ fixed_of low else fixed_of low ++ fixed_of high) }
{
    match (low, high) {
        (Some(low), Some(high)) => high.net <= low.net,
        _ => false,
    }
}

// Appends a constant, if there is one.
fn push_if_some(list: &mut Vec<FixedNet>, fixed: Option<FixedNet>) -> Result<(), NoMemory>
    ensures { OnOk result (constants_of list.new.items ≡ constants_of list.old.items ++ fixed_of fixed) }
{
    match fixed {
        Some(fixed) => Ok(list.push(fixed)?),
        None => Ok(()),
    }
}

// The two in this order.
fn both(
    alloc: Global,
    first: Option<FixedNet>,
    second: Option<FixedNet>,
) -> Result<Vec<FixedNet>, NoMemory>
    ensures { IfOk result (λ list. constants_of list.items ≡ fixed_of first ++ fixed_of second) }
{
    let mut list = Vec::new(alloc);
    push_if_some(&mut list, first)?;
    push_if_some(&mut list, second)?;
    Ok(list)
}

/// The constants of the core, in net order.
pub(crate) fn constants_of(
    alloc: Global,
    chip: &Chip,
    numbers: &CoreNets,
) -> Result<Vec<FixedNet>, NoMemory>
    requires { AreCoreNumbers chip.now numbers.now }
    ensures { IfOk result (λ list. constants_of list.items ≡ core_constants chip.now) }
{
    let low = fixed_by(chip, numbers, false);
    let high = fixed_by(chip, numbers, true);
    if is_swapped(low, high) {
        both(alloc, high, low)
    } else {
        both(alloc, low, high)
    }
}
