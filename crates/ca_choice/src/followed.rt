//! What follows from one bit more.

use crate::cube::Cube;
use crate::goal::trit_of;
use crate::plan::{Plan, Source};
use crate::scene::Scene;
use crate::sight::Sight;
use ca_base::NoMemory;
use ca_net::Trit;
use std::alloc::Global;

/// A value of a net in the first or in the last frame.
#[derive(Clone, Copy, Debug)]
pub(crate) struct FrameValue {
    pub(crate) net: u32,
    pub(crate) is_last: bool,
    pub(crate) value: bool,
}

// A frame without or with the defect.
#[derive(Clone, Copy, Debug)]
struct Side {
    is_last: bool,
    is_faulty: bool,
}

/// The values of one frame that follow from a bit, for the nets that had none before.
#[derive(Drop)]
pub(crate) struct Followed {
    good: Vec<Trit>,
    faulty: Vec<Trit>,
    // the nets that have got a value, in their order, without and with the defect at once or one by one
    nets: Vec<u32>,
    count: usize,
}

impl Followed {
    /// The room for a chip.
    pub(crate) fn reserve(alloc: Global, plan: &Plan<'_>) -> Result<Self, NoMemory> {
        let nets = plan.net_count();
        Ok(Followed {
            good: vec![in alloc; Trit::X; nets]?,
            faulty: vec![in alloc; Trit::X; nets]?,
            nets: vec![in alloc; 0; nets.saturating_mul(2)]?,
            count: 0,
        })
    }

    /// The value that the net has got without the defect.
    pub(crate) fn good(&self, net: u32) -> Trit {
        trit_at(&self.good, net)
    }

    /// The value that the net has got with the defect.
    pub(crate) fn faulty(&self, net: u32) -> Trit {
        trit_at(&self.faulty, net)
    }

    /// Finds what follows from the value of a chip input's net for a defect of an instance. What the instance
    /// gives with the defect isn't looked for.
    pub(crate) fn find<S: Sight>(&mut self, scene: &Scene<'_, S>, part: u32, from: FrameValue) {
        self.clear();
        let value = trit_of(from.value);
        self.note(from.net, value, value);
        for place in 0..self.nets.len() {
            match self.net(place) {
                Some(net) => {
                    for next in scene.sight.onward(net) {
                        self.renew(scene, part, from.is_last, *next);
                    }
                }
                None => return,
            }
        }
    }

    // The net that was the one of this place to get a value.
    fn net(&self, place: usize) -> Option<u32> {
        if place < self.count && place < self.nets.len() {
            Some(self.nets[place])
        } else {
            None
        }
    }

    // Takes all values back.
    fn clear(&mut self) {
        for place in 0..self.count {
            if let Some(net) = self.net(place) {
                put(&mut self.good, net, Trit::X);
                put(&mut self.faulty, net, Trit::X);
            }
        }
        self.count = 0;
    }

    // Notes the values of a net, if one of them is new.
    fn note(&mut self, net: u32, good: Trit, faulty: Trit) {
        if self.good(net) == good && self.faulty(net) == faulty {
            return;
        }
        let count = self.count;
        if count < self.nets.len() {
            self.nets[count] = net;
            self.count = count + 1;
            put(&mut self.good, net, good);
            put(&mut self.faulty, net, faulty);
        }
    }

    // Finds the values of a net, if an instance drives it.
    fn renew<S: Sight>(&mut self, scene: &Scene<'_, S>, part: u32, is_last: bool, net: u32) {
        if let Source::Output {
            part: driver,
            output,
        } = scene.plan.source(net)
        {
            let side = Side {
                is_last,
                is_faulty: false,
            };
            let good = self.found(scene, side, driver, output, net);
            let faulty = if driver == part {
                Trit::X
            } else if scene.cone.has_net(net) {
                let side = Side {
                    is_last,
                    is_faulty: true,
                };
                self.found(scene, side, driver, output, net)
            } else {
                good
            };
            self.note(net, good, faulty);
        }
    }

    // The value that an instance's output gets; X if it had one before, or still has none.
    fn found<S: Sight>(
        &self,
        scene: &Scene<'_, S>,
        side: Side,
        driver: u32,
        output: usize,
        net: u32,
    ) -> Trit {
        if seen(scene.sight, side, net) != Trit::X {
            Trit::X
        } else if self.is_brought(scene, side, driver, output, false) {
            Trit::Zero
        } else if self.is_brought(scene, side, driver, output, true) {
            Trit::One
        } else {
            Trit::X
        }
    }

    // Whether the instance's pins have the values of a cube that brings the value to its output.
    fn is_brought<S: Sight>(
        &self,
        scene: &Scene<'_, S>,
        side: Side,
        driver: u32,
        output: usize,
        value: bool,
    ) -> bool {
        for cube in scene.plan.bringing(driver, output, value) {
            if self.is_met(scene, side, driver, *cube) {
                return true;
            }
        }
        false
    }

    // Whether the instance's pins have the values of a cube.
    fn is_met<S: Sight>(&self, scene: &Scene<'_, S>, side: Side, driver: u32, cube: Cube) -> bool {
        for (pin, net) in scene.plan.inputs(driver).iter().enumerate() {
            if let Some(value) = scene.plan.literal(driver, cube, pin) {
                if self.value(scene.sight, side, *net) != trit_of(value) {
                    return false;
                }
            }
        }
        true
    }

    // The value that the net had before, or else has got.
    fn value<S: Sight>(&self, sight: &S, side: Side, net: u32) -> Trit {
        let before = seen(sight, side, net);
        if before != Trit::X {
            before
        } else if side.is_faulty {
            self.faulty(net)
        } else {
            self.good(net)
        }
    }
}

// The value that the net had before.
fn seen<S: Sight>(sight: &S, side: Side, net: u32) -> Trit {
    let wave = if side.is_faulty {
        sight.faulty(net)
    } else {
        sight.good(net)
    };
    if side.is_last { wave.last } else { wave.first }
}

// The value of a net in a list.
fn trit_at(values: &[Trit], net: u32) -> Trit {
    match values.get(net as usize) {
        Some(value) => *value,
        None => Trit::X,
    }
}

// Notes the value of a net in a list.
fn put(values: &mut [Trit], net: u32, value: Trit) {
    let net = net as usize;
    if net < values.len() {
        values[net] = value;
    }
}
