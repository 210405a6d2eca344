//! The numbers of nets in the core.

ghost use Rattle.std.specs.Prelude.{◌≡◌, ◌<◌, length, slice_index, IfOk};
ghost use Rattle.ca_view.specs.Numbers.{AreCoreNumbers};

use ca_base::NoMemory;
use ca_linked::{Chip, NetId};
use std::alloc::Global;
use std::marker::Model;

/// The number of each net of a chip among those off the scan path, which is its number in the core, and how
/// many those are.
#[derive(Drop)]
pub struct CoreNets {
    numbers: Vec<u32>,
    count: u32,
}

impl Model for CoreNets {
    ghost use Rattle.ca_view.specs.Numbers.{Numbers};

    ghost Value = { Numbers };

    ghost view = { λ nets. record { numbers = nets.numbers.items; count = nets.count } };
}

impl CoreNets {
    /// The number of a net; that of a net on the scan path is the number of those before it that are off it.
    pub fn get(&self, net: NetId) -> u32
        requires { net.0 < length self.now.numbers }
        ensures { result ≡ slice_index self.now.numbers net.0 }
    {
        self.numbers[net.0 as usize]
    }

    /// The number of nets of the core.
    pub fn count(&self) -> u32
        ensures { result ≡ self.now.count }
    {
        self.count
    }
}

/// The numbers of a chip's nets in its core. Also answers out of memory for a chip with 2^32 nets, for which
/// `wire` makes none.
#[tactic(auto, using(crate::proofs::NumberLemmas::first_none))]
pub fn core_nets(alloc: Global, chip: &Chip) -> Result<CoreNets, NoMemory>
    ensures { IfOk result (AreCoreNumbers chip.now) }
{
    let nets = chip.nets();
    if nets > u32::MAX as usize {
        return Err(NoMemory);
    }
    let mut numbers = Vec::new(alloc);
    let mut count = 0;
    for net in 0..nets {
        numbers.push(count)?;
        if !chip.is_scan_path(NetId(net as u32)) {
            count += 1;
        }
    }
    Ok(CoreNets { numbers, count })
}
