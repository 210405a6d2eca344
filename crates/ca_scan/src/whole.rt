//! The whole chains of a chip.

ghost use Rattle.std.specs.Prelude.{◌≡◌, ◌<◌, ◌++◌, length, option_to_list, slice_get, IsSomeAnd, IfOk};
ghost use Rattle.std.specs.Prelude.{IfErr, OnOk};
ghost use Rattle.ca_scan.specs.Chain.{AreChains};
ghost use Rattle.ca_scan.specs.ChainFault.{AreAllChains, IsChainCause};
ghost use Rattle.ca_scan.specs.code.Kept.{AreJoints, IsFirstOffIn, Counts, Adds, all_of};

use crate::fault::ChainFault;
use crate::follow::chain_at;
use crate::joints::{Joints, joints_of};
use crate::tally::Tally;
use ca_base::{List, NoMemory};
use ca_linked::{Chip, InstanceId, InstanceList};
use std::alloc::Global;

/// The whole chains of a chip, each from its scan-in port to its scan-out port.
pub type Chains = List<InstanceList>;

/// The most chains that a chip may have.
pub const MOST_CHAINS: usize = 64;

// Appends a chain, if there is one.
fn push_chain(chains: &mut Chains, found: Option<InstanceList>) -> Result<(), NoMemory>
    ensures { OnOk result (chains.new ≡ chains.old ++ option_to_list found) }
{
    match found {
        None => Ok(()),
        Some(chain) => chains.push(chain),
    }
}

// The whole chains, in the order of their scan-in ports.
fn chains_of(alloc: Global, chip: &Chip, joints: &Joints) -> Result<Chains, NoMemory>
    requires { AreJoints chip.now joints.now }
    ensures { IfOk result (AreChains chip.now) }
{
    let mut chains = List::new(alloc);
    for p in 0..chip.ports() {
        push_chain(&mut chains, chain_at(alloc, chip, joints, p)?)?;
    }
    Ok(chains)
}

// Adds the instances of one of the chains.
fn add_chain(tally: &mut Tally, chains: &[InstanceList], k: usize) -> Result<(), NoMemory>
    requires { k < length chains.now }
    ensures { OnOk result (IsSomeAnd (slice_get chains.now k) (λ chain. Adds chain tally.old tally.new)) }
{
    tally.add_instances(&chains[k])
}

// How often each instance is on a chain.
fn marks_of(alloc: Global, chains: &[InstanceList]) -> Result<Tally, NoMemory>
    ensures { IfOk result (λ tally. Counts tally (all_of chains.now)) }
{
    let mut tally = Tally::new(alloc);
    for k in 0..chains.len() {
        add_chain(&mut tally, chains, k)?;
    }
    Ok(tally)
}

// The first scan instance that is on no whole chain.
fn first_off(alloc: Global, chip: &Chip, chains: &Chains) -> Result<Option<InstanceId>, NoMemory>
    requires { AreChains chip.now chains.now }
    ensures { IfOk result (IsFirstOffIn chip.now) }
{
    let marks = marks_of(alloc, chains.as_slice())?;
    for k in 0..chip.scan_count() {
        let u = chip.scan(k);
        if marks.get(u.0) == 0 {
            return Ok(Some(u));
        }
    }
    Ok(None)
}

/// The whole chains of a chip, in the order of their scan-in ports in the header. Each is a list of scan
/// instances, from the scan-in to the scan-out, and each scan instance is on one.
pub fn trace(alloc: Global, chip: &Chip) -> Result<Chains, ChainFault>
    ensures ok { IfOk result (AreAllChains chip.now) }
    ensures cause { IfErr result (IsChainCause chip.now) }
{
    let joints = joints_of(alloc, chip)?;
    let chains = chains_of(alloc, chip, &joints)?;
    if let Some(instance) = first_off(alloc, chip, &chains)? {
        return Err(ChainFault::ChainBroken { instance });
    }
    let count = chains.len();
    if MOST_CHAINS < count {
        return Err(ChainFault::TooManyChains { count });
    }
    Ok(chains)
}
