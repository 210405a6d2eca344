//! How many nodes and devices a flat network has, and whether these are few enough to have numbers.

ghost use Rattle.std.specs.Prelude.{◌≡◌, ◌^◌, ◌<◌, length, IfSome};
ghost use Rattle.ca_flat.specs.Chip.{circuit_at};
ghost use Rattle.ca_view.specs.Core.{core_of};
ghost use Rattle.ca_view.specs.Numbers.{AreCoreNumbers};
ghost use Rattle.ca_flatten.specs.code.Kept.{AreGateMarks, AreSizes};

use crate::gates::Gates;
use crate::spots::{cell_at, inner_count};
use ca_linked::{Chip, InstanceId};
use ca_net::Network;
use ca_view::CoreNets;

// The most nodes, and the most devices, of a network.
const MOST: usize = u32::MAX as usize;

// The number of devices of an instance.
fn device_count(chip: &Chip, gates: &Gates, u: InstanceId) -> usize
    requires gates { AreGateMarks chip.now gates.now }
    requires within { u.0 < length chip.now.parts }
    ensures count { result ≡ length (circuit_at (core_of chip.now) u.0).devices }
    ensures few { result < 2 ^ 32 }
{
    if gates.has(u) {
        cell_at(chip, u).device_count()
    } else {
        0
    }
}

/// How many inner nodes and devices the instances of a chip have.
#[derive(Clone, Copy)]
pub(crate) struct Sizes {
    pub(crate) inner: usize,
    pub(crate) devices: usize,
}

/// The sizes of the flat network, where it has fewer than 2^32 nodes and devices, also with one more of each,
/// which a defect may add.
pub(crate) fn sizes_of(chip: &Chip, nets: &CoreNets, gates: &Gates) -> Option<Sizes>
    requires nets { AreCoreNumbers chip.now nets.now }
    requires gates { AreGateMarks chip.now gates.now }
    ensures { IfSome result (AreSizes (core_of chip.now)) }
{
    let mut inner = 0;
    let mut devices = 0;
    for u in 0..chip.parts() {
        let instance = InstanceId(u as u32);
        inner += inner_count(chip, gates, instance);
        devices += device_count(chip, gates, instance);
        if inner > MOST || devices > MOST {
            return None;
        }
    }
    let nodes = 3 + nets.count() as usize + inner;
    if nodes > MOST || devices >= MOST {
        return None;
    }
    Some(Sizes { inner, devices })
}
