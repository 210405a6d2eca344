//! The instances that a defect can reach.

use crate::plan::Plan;
use ca_base::NoMemory;
use std::alloc::Global;

/// An instance and those that it reaches, in their order, and the nets of their outputs.
#[derive(Drop)]
pub(crate) struct Cone {
    parts: Vec<u32>,
    count: usize,
    has_net: Vec<bool>,
}

impl Cone {
    /// The room for a chip.
    pub(crate) fn reserve(alloc: Global, plan: &Plan<'_>) -> Result<Self, NoMemory> {
        Ok(Cone {
            parts: vec![in alloc; 0; plan.part_count()]?,
            count: 0,
            has_net: vec![in alloc; false; plan.net_count()]?,
        })
    }

    /// Finds the cone of an instance.
    pub(crate) fn find(&mut self, plan: &Plan<'_>, part: u32) {
        self.clear(plan);
        self.add(plan, part);
        let order = plan.order();
        for place in plan.place(part)..order.len() {
            let next = order[place];
            if next != part && self.is_reached(plan, next) {
                self.add(plan, next);
            }
        }
    }

    /// The number of instances.
    pub(crate) fn len(&self) -> usize {
        self.count
    }

    /// The instance at this place.
    pub(crate) fn get(&self, place: usize) -> u32 {
        match self.parts.get(place) {
            Some(part) => *part,
            None => u32::MAX,
        }
    }

    /// Whether the net is one of an output.
    pub(crate) fn has_net(&self, net: u32) -> bool {
        match self.has_net.get(net as usize) {
            Some(flag) => *flag,
            None => false,
        }
    }

    // Takes all instances out.
    fn clear(&mut self, plan: &Plan<'_>) {
        for place in 0..self.count {
            let part = self.get(place);
            self.mark(plan, part, false);
        }
        self.count = 0;
    }

    // Appends an instance.
    fn add(&mut self, plan: &Plan<'_>, part: u32) {
        let count = self.count;
        if count < self.parts.len() {
            self.parts[count] = part;
            self.count = count + 1;
            self.mark(plan, part, true);
        }
    }

    // Notes for the nets of an instance's outputs whether they are in.
    fn mark(&mut self, plan: &Plan<'_>, part: u32, is_in: bool) {
        for net in plan.outputs(part) {
            put(&mut self.has_net, *net, is_in);
        }
    }

    // Whether a net of the cone is on an input pin of the instance.
    fn is_reached(&self, plan: &Plan<'_>, part: u32) -> bool {
        for net in plan.inputs(part) {
            if self.has_net(*net) {
                return true;
            }
        }
        false
    }
}

// Notes whether the net is in.
fn put(has_net: &mut [bool], net: u32, is_in: bool) {
    let net = net as usize;
    if net < has_net.len() {
        has_net[net] = is_in;
    }
}
