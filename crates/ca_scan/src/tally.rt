//! How often numbers were added.

ghost use Rattle.std.specs.Prelude.{◌≡◌, ◌<◌, ℕ, [], ◌∷◌, length, slice_index, OnOk};
ghost use Rattle.ca_scan.specs.code.Kept.{tally_at, Counts, Adds};

use ca_base::NoMemory;
use ca_linked::InstanceList;
use std::alloc::Global;
use std::marker::Model;

/// For each number how often it was added, up to three times. Contracts see a list.
#[derive(Drop)]
pub(crate) struct Tally {
    counts: Vec<u8>,
}

impl Model for Tally {
    ghost use Rattle.std.specs.Prelude.{List, ℕ};

    ghost Value = { List ℕ };

    ghost view = { λ tally. tally.counts.items };
}

impl Tally {
    /// Nothing was added.
    #[tactic(auto, using(crate::proofs::TallyLemmas::counts_none))]
    pub(crate) fn new(alloc: Global) -> Self
        ensures { Counts result [] }
    {
        Tally {
            counts: Vec::new(alloc),
        }
    }

    /// How often a number was added, up to three times.
    pub(crate) fn get(&self, number: u32) -> u8
        ensures { result ≡ tally_at self.now number }
    {
        if (number as usize) < self.counts.len() {
            self.counts[number as usize]
        } else {
            0
        }
    }

    // Makes room for a number.
    fn reach(&mut self, number: u32) -> Result<(), NoMemory>
        ensures within { OnOk result (number < length self.new) }
        ensures kept { OnOk result ((n : ℕ) → tally_at self.new n ≡ tally_at self.old n) }
    {
        'room: while self.counts.len() <= number as usize {
            self.counts.push(0)?;
        }
        Ok(())
    }

    /// Adds a number.
    pub(crate) fn add(&mut self, number: u32) -> Result<(), NoMemory>
        ensures { OnOk result (Adds (number ∷ []) self.old self.new) }
    {
        self.reach(number)?;
        let count = self.counts[number as usize];
        if count < 3 {
            self.counts[number as usize] = count + 1;
        }
        Ok(())
    }

    /// Adds the numbers of a list.
    #[tactic(auto, using(crate::proofs::TallyLemmas::adds_none))]
    pub(crate) fn add_all(&mut self, numbers: &[u32]) -> Result<(), NoMemory>
        ensures { OnOk result (Adds numbers.now self.old self.new) }
    {
        for k in 0..numbers.len() {
            self.add(numbers[k])?;
        }
        Ok(())
    }

    /// Adds the numbers of some instances.
    #[tactic(auto, using(crate::proofs::TallyLemmas::adds_none))]
    pub(crate) fn add_instances(&mut self, instances: &InstanceList) -> Result<(), NoMemory>
        ensures { OnOk result (Adds instances.now self.old self.new) }
    {
        for k in 0..instances.len() {
            self.add(instances.get(k).0)?;
        }
        Ok(())
    }
}
