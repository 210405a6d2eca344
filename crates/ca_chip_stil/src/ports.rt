//! Which port is on a net.

ghost use Rattle.std.specs.Prelude.{◌≡◌, ◌<◌, Bool, None, length, replicate, slice_get, IsSomeAnd, IfSome};
ghost use Rattle.std.specs.Prelude.{IfOk};
ghost use Rattle.ca_linked.specs.Linked.{net_count};
ghost use Rattle.ca_chip_stil.specs.Sites.{is_directed};
ghost use Rattle.ca_chip_stil.specs.ChipStil.{port_on};
ghost use Rattle.ca_chip_stil.specs.code.Kept.{entry_of, port_at, AreFirstPorts, SetsPort, ArePorts};

use ca_base::NoMemory;
use ca_linked::{Chip, NetId};
use std::alloc::Global;
use std::marker::Model;

/// For each net the first bit of a port of one direction that is on it, if one is. Contracts see a list.
#[derive(Drop)]
pub(crate) struct PortTable {
    first: Vec<Option<u32>>,
}

impl Model for PortTable {
    ghost use Rattle.std.specs.Prelude.{List, Option, ℕ};

    ghost Value = { List (Option ℕ) };

    ghost view = { λ table. table.first.items };
}

/// Whether a port bit is of a port of this direction.
pub(crate) fn is_directed(chip: &Chip, input: bool, p: usize) -> bool
    requires { p < length chip.now.ports }
    ensures { IsSomeAnd (slice_get chip.now.ports p) (λ port. is_directed input port ≡ result) }
{
    if input {
        chip.port_is_input(p)
    } else {
        !chip.port_is_input(p)
    }
}

// No port, `count` times.
fn no_ports(alloc: Global, count: usize) -> Result<Vec<Option<u32>>, NoMemory>
    ensures { IfOk result (λ none. none.items ≡ replicate count None) }
{
    let mut none = Vec::with_capacity(alloc, count)?;
    for k in 0..count {
        none.push(None)?;
    }
    Ok(none)
}

impl PortTable {
    // The entry of a net.
    fn get(&self, net: NetId) -> Option<u32>
        ensures { result ≡ entry_of self.now net.0 }
    {
        if (net.0 as usize) < self.first.len() {
            self.first[net.0 as usize]
        } else {
            None
        }
    }

    // Makes a port bit the first on its net, if it is of this direction.
    #[tactic(auto, using(crate::proofs::PortLemmas::port_set, crate::proofs::PortLemmas::port_kept))]
    fn set(&mut self, chip: &Chip, input: bool, p: usize)
        requires within { p < length chip.now.ports }
        requires room { length self.old ≡ net_count chip.now }
        ensures { SetsPort chip.now input p self.old self.new }
    {
        chip.wired();
        let net = chip.port_net(p);
        if is_directed(chip, input, p) {
            self.first[net.0 as usize] = Some(p as u32);
        }
    }

    // The first ports of a direction, found from the last port bit to the first.
    #[tactic(auto, using(crate::proofs::PortLemmas::ports_none, crate::proofs::PortLemmas::ports_more))]
    fn of(alloc: Global, chip: &Chip, input: bool) -> Result<Self, NoMemory>
        ensures { IfOk result (AreFirstPorts chip.now input 0) }
    {
        let mut table = PortTable {
            first: no_ports(alloc, chip.nets())?,
        };
        let mut left = chip.ports();
        'ports: while left > 0 {
            left -= 1;
            table.set(chip, input, left);
        }
        Ok(table)
    }
}

/// The first input port and the first output port on each net.
#[derive(Drop)]
pub(crate) struct Ports {
    inputs: PortTable,
    outputs: PortTable,
}

impl Ports {
    /// Those of a chip.
    pub(crate) fn of(alloc: Global, chip: &Chip) -> Result<Self, NoMemory>
        ensures { IfOk result (ArePorts chip.now) }
    {
        let inputs = PortTable::of(alloc, chip, true)?;
        let outputs = PortTable::of(alloc, chip, false)?;
        Ok(Ports { inputs, outputs })
    }

    /// The first bit of a port of this direction on the net, if there is one.
    pub(crate) fn get(&self, chip: &Chip, input: bool, net: NetId) -> Option<u32>
        requires { ArePorts chip.now self.now }
        ensures first { port_at chip.now.ports result ≡ port_on input net.0 chip.now.ports }
        ensures within { IfSome result (λ p. p < length chip.now.ports) }
    {
        let _ = chip;
        if input {
            self.inputs.get(net)
        } else {
            self.outputs.get(net)
        }
    }
}
