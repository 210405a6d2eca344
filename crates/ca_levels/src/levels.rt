//! The room of a block's responses.

ghost use Rattle.std.specs.Prelude.{◌≡◌, ◌<◌, ◌≤◌, ◌^◌, false, IfOk, length};
ghost use Rattle.ca_relax.specs.Groups.{HaveOwnStrengths};
ghost use Rattle.ca_levels.specs.Levels.{HasRoom, HoldsNetwork};
ghost use Rattle.ca_levels.specs.Given.{IsGivenByNone, IsCarriedByNone, AreGiven, AreCarried};

use ca_base::NoMemory;
use ca_net::{Device, INPUT, Network, NodeId};
use ca_planes::ALL_LANES;
use std::alloc::Global;

/// Room for the responses of the nodes of a network in a block of lanes, and what is read of its strengths.
#[derive(Drop, Debug)]
pub struct Levels {
    // what each node gives to the paths that begin at it
    pub(crate) own: Vec<u8>,
    // whether some node gives each strength, and whether some device has it
    pub(crate) given: Vec<bool>,
    pub(crate) carried: Vec<bool>,
    // the lanes in which the value of each node isn't 1
    pub(crate) not_ones: Vec<u64>,
    // the lanes in which a definite path to the node is stronger than the level
    pub(crate) stronger: Vec<u64>,
    // the lanes in which each device isn't open, and those in which it conducts
    pub(crate) potential: Vec<u64>,
    pub(crate) definite: Vec<u64>,
    // all lanes, and none, of each node
    pub(crate) all: Vec<u64>,
    pub(crate) none: Vec<u64>,
}

/// How many strengths there are, with that of an input node and with 0.
pub(crate) const STRENGTHS: usize = INPUT as usize + 1;

// Copies what the nodes of the network give to paths.
fn copy_strengths<N: Network>(net: &N, own: &mut [u8])
    requires { length own.old ≡ length (N.circuit net.now).nodes }
    ensures { HaveOwnStrengths (N.circuit net.now) (length (N.circuit net.now).nodes) own.new }
{
    for node in 0..net.node_count() {
        own[node] = net.kind(NodeId(node as u32)).root_strength();
    }
}

// Whether some node gives this strength to the paths that begin at it.
fn is_given(own: &[u8], level: u8) -> bool
    ensures { result ≡ false → IsGivenByNone own.now level }
{
    for node in 0..own.len() {
        if own[node] == level {
            return true;
        }
    }
    false
}

// Whether some device has this strength.
fn is_carried(devices: &[Device], level: u8) -> bool
    ensures { result ≡ false → IsCarriedByNone devices.now level }
{
    for i in 0..devices.len() {
        if devices[i].strength == level {
            return true;
        }
    }
    false
}

// Finds which strengths nodes give.
fn find_given(own: &[u8], given: &mut [bool])
    requires { length given.old ≡ STRENGTHS }
    ensures { AreGiven STRENGTHS own.now given.new }
{
    for level in 0..STRENGTHS {
        given[level] = is_given(own, level as u8);
    }
}

// Finds which strengths devices have.
fn find_carried(devices: &[Device], carried: &mut [bool])
    requires { length carried.old ≡ STRENGTHS }
    ensures { AreCarried STRENGTHS devices.now carried.new }
{
    for level in 0..STRENGTHS {
        carried[level] = is_carried(devices, level as u8);
    }
}

impl Levels {
    /// Takes the room for a network of this many nodes and devices: 33 bytes a node and 16 a device. As yet
    /// it holds no network.
    pub fn reserve(alloc: Global, nodes: usize, devices: usize) -> Result<Self, NoMemory>
        ensures { IfOk result (HasRoom nodes devices) }
    {
        Ok(Levels {
            own: vec![in alloc; 0u8; nodes]?,
            given: vec![in alloc; false; STRENGTHS]?,
            carried: vec![in alloc; false; STRENGTHS]?,
            not_ones: vec![in alloc; 0u64; nodes]?,
            stronger: vec![in alloc; 0u64; nodes]?,
            potential: vec![in alloc; 0u64; devices]?,
            definite: vec![in alloc; 0u64; devices]?,
            all: vec![in alloc; ALL_LANES; nodes]?,
            none: vec![in alloc; 0u64; nodes]?,
        })
    }

    /// Leaves in the room what is read of the network, whatever it held. It takes no memory.
    pub fn load<N: Network>(&mut self, net: &N, devices: &[Device])
        requires room { HasRoom
            (length (N.circuit net.now).nodes) (length (N.circuit net.now).devices) self.old }
        requires devices { devices.now ≡ (N.circuit net.now).devices }
        ensures { HoldsNetwork (N.circuit net.now) self.new }
    {
        copy_strengths(net, &mut self.own);
        find_given(&self.own, &mut self.given);
        find_carried(devices, &mut self.carried);
    }
}
