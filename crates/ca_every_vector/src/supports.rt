//! Which chip inputs the nets of a chip hang on, where these are few.

ghost use Rattle.std.specs.Prelude.{◌≡◌, ◌+◌, length, IfOk};

use crate::vectors::MOST_REGION_BITS;
use ca_base::NoMemory;
use ca_view::View;
use std::alloc::Global;

/// Numbers of chip inputs, as many as the bits of a vector may be.
#[derive(Clone, Copy, Debug)]
pub(crate) struct Support {
    inputs: [u16; MOST_REGION_BITS],
    count: usize,
}

impl Support {
    /// No input.
    pub(crate) fn none() -> Self {
        Support {
            inputs: [0; MOST_REGION_BITS],
            count: 0,
        }
    }

    /// The input at a place, if there are more.
    pub(crate) fn get(&self, place: usize) -> Option<u16> {
        if place < self.count && place < MOST_REGION_BITS {
            Some(self.inputs[place])
        } else {
            None
        }
    }

    fn has(&self, input: u16) -> bool {
        for place in 0..self.count {
            if self.get(place) == Some(input) {
                return true;
            }
        }
        false
    }

    // Adds an input, if there are fewer than this many. Whether it is among them now.
    fn add(&mut self, input: u16, most: usize) -> bool {
        if self.has(input) {
            return true;
        }
        if self.count >= most || self.count >= MOST_REGION_BITS {
            return false;
        }
        self.inputs[self.count] = input;
        self.count += 1;
        true
    }

    /// The inputs of both, if they are at most this many.
    pub(crate) fn with(&self, other: &Support, most: usize) -> Option<Support> {
        let mut all = *self;
        for place in 0..other.count {
            if let Some(input) = other.get(place) {
                if !all.add(input, most) {
                    return None;
                }
            }
        }
        Some(all)
    }
}

/// For each net the chip inputs that it hangs on, if they are at most this many, and the instance that drives
/// it.
#[derive(Drop)]
pub(crate) struct Supports {
    pub(crate) most: usize,
    nets: Vec<Option<Support>>,
    drivers: Vec<Option<u32>>,
}

impl Supports {
    /// Finds them by the order of the instances.
    pub(crate) fn new(
        alloc: Global,
        chip: &View<'_>,
        order: &[Option<usize>],
        most: usize,
    ) -> Result<Self, NoMemory> {
        let mut supports = Supports {
            most,
            nets: vec![in alloc; None; chip.nets()]?,
            drivers: vec![in alloc; None; chip.nets()]?,
        };
        for input in 0..chip.input_count() {
            supports.begin(chip.inputs().get(input), input);
        }
        for k in 0..chip.constant_count() {
            supports.fix(chip.constant(k).net);
        }
        for place in 0..order.len() {
            if let Some(u) = order[place] {
                supports.pass(chip, u);
            }
        }
        Ok(supports)
    }

    // The net of a chip input hangs on it alone.
    fn begin(&mut self, net: Option<&u32>, input: usize) {
        let mut own = Support::none();
        if input <= u16::MAX as usize && own.add(input as u16, self.most) {
            if let Some(net) = net {
                if (*net as usize) < self.nets.len() {
                    self.nets[*net as usize] = Some(own);
                }
            }
        }
    }

    // The net of a constant hangs on no input.
    fn fix(&mut self, net: usize) {
        if net < self.nets.len() {
            self.nets[net] = Some(Support::none());
        }
    }

    // The output nets of an instance hang on what its input nets hang on.
    fn pass(&mut self, chip: &View<'_>, u: usize) {
        chip.linked();
        if u >= chip.instances() {
            return;
        }
        let support = self.before(chip, u as u32);
        for net in output_pins(chip, u as u32) {
            let net = *net as usize;
            if net < self.nets.len() && net < self.drivers.len() {
                self.nets[net] = support;
                self.drivers[net] = Some(u as u32);
            }
        }
    }

    /// What the output nets of an instance hang on, if it isn't much.
    pub(crate) fn before(&self, chip: &View<'_>, u: u32) -> Option<Support> {
        let mut all = Support::none();
        for net in input_pins(chip, u) {
            match self.of(*net) {
                Some(support) => match all.with(&support, self.most) {
                    Some(both) => all = both,
                    None => return None,
                },
                None => return None,
            }
        }
        Some(all)
    }

    // What a net hangs on, if it isn't much.
    fn of(&self, net: u32) -> Option<Support> {
        match self.nets.get(net as usize) {
            Some(support) => *support,
            None => None,
        }
    }

    /// The instance that drives a net, if it has a place.
    pub(crate) fn driver(&self, net: u32) -> Option<u32> {
        match self.drivers.get(net as usize) {
            Some(driver) => *driver,
            None => None,
        }
    }
}

/// The input nets of an instance.
pub(crate) fn input_pins<'a>(chip: &'a View<'_>, u: u32) -> &'a [u32] {
    chip.linked();
    if (u as usize) < chip.instances() {
        chip.input_pins(u)
    } else {
        &[]
    }
}

/// The output nets of an instance.
pub(crate) fn output_pins<'a>(chip: &'a View<'_>, u: u32) -> &'a [u32] {
    chip.linked();
    if (u as usize) < chip.instances() {
        chip.output_pins(u)
    } else {
        &[]
    }
}
