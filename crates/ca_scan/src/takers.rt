//! Which scan instance has its scan-in on a net.

ghost use Rattle.std.specs.Prelude.{◌≡◌, ◌<◌, ℕ, [], length, OnOk, IfOk};
ghost use Rattle.ca_linked.specs.Instances.{scans_of};
ghost use Rattle.ca_scan.specs.code.Kept.{taker_at, SetsTaker, AreTakersAmong};

use crate::pins::scan_net;
use ca_base::NoMemory;
use ca_linked::{Chip, ScanPin};
use std::alloc::Global;
use std::marker::Model;

/// For each net a scan instance that has its scan-in there, if one has. Contracts see a list.
#[derive(Drop)]
pub(crate) struct Takers {
    takers: Vec<Option<u32>>,
}

impl Model for Takers {
    ghost use Rattle.std.specs.Prelude.{List, Option, ℕ};

    ghost Value = { List (Option ℕ) };

    ghost view = { λ takers. takers.takers.items };
}

impl Takers {
    /// The taker of a net.
    pub(crate) fn get(&self, net: u32) -> Option<u32>
        ensures { result ≡ taker_at self.now net }
    {
        if (net as usize) < self.takers.len() {
            self.takers[net as usize]
        } else {
            None
        }
    }

    // Makes room for a net.
    fn reach(&mut self, net: u32) -> Result<(), NoMemory>
        ensures within { OnOk result (net < length self.new) }
        ensures kept { OnOk result ((n : ℕ) → taker_at self.new n ≡ taker_at self.old n) }
    {
        'room: while self.takers.len() <= net as usize {
            self.takers.push(None)?;
        }
        Ok(())
    }

    // Makes an instance the taker of a net.
    #[tactic(auto, using(crate::proofs::TallyLemmas::taker_set))]
    fn set(&mut self, net: u32, u: u32) -> Result<(), NoMemory>
        ensures { OnOk result (SetsTaker net u self.old self.new) }
    {
        self.reach(net)?;
        self.takers[net as usize] = Some(u);
        Ok(())
    }
}

/// The takers of a chip's nets.
#[tactic(auto, using(crate::proofs::JointLemmas::takers_none, crate::proofs::JointLemmas::takers_all))]
pub(crate) fn takers_of(alloc: Global, chip: &Chip) -> Result<Takers, NoMemory>
    ensures { IfOk result (AreTakersAmong chip.now (length (scans_of chip.now))) }
{
    let mut takers = Takers {
        takers: Vec::new(alloc),
    };
    for k in 0..chip.scan_count() {
        takers.set(scan_net(chip, k, ScanPin::Si), chip.scan(k).0)?;
    }
    Ok(takers)
}
