//! The library instances that read each net.

ghost use Rattle.std.specs.Prelude.{◌≡◌, ◌<◌, ◌+◌, ◌++◌, [], ◌∷◌, length, replicate, slice_set, IfOk, OnOk};
ghost use Rattle.ca_linked.specs.Linked.{net_count};
ghost use Rattle.ca_linked.specs.Drivers.{IsDrafted};
ghost use Rattle.ca_linked.specs.code.Walk.{row_of};
ghost use Rattle.ca_linked.specs.code.Reading.{HaveReaders, ReadsAmong, AreReaders};

use crate::draft::Draft;
use crate::instances::{InstanceId, InstanceList};
use crate::parts::Body;
use ca_base::NoMemory;
use std::alloc::Global;
use std::marker::Model;

/// For each net the library instances that read it, in netlist order, one as often as it has pins there.
#[derive(Drop)]
pub(crate) struct Readers {
    rows: Vec<InstanceList>,
}

impl Model for Readers {
    ghost use Rattle.std.specs.Prelude.{List, ℕ};

    ghost Value = { List (List ℕ) };

    ghost view = { λ readers. readers.rows.items };
}

impl Readers {
    // No net is read.
    fn begin(alloc: Global, nets: usize) -> Result<Self, NoMemory>
        ensures { IfOk result (λ readers. readers ≡ replicate nets []) }
    {
        let mut rows = Vec::new(alloc);
        for _k in 0..nets {
            rows.push(InstanceList::new(alloc))?;
        }
        Ok(Readers { rows })
    }

    /// Those that read a net.
    pub(crate) fn get(&self, net: u32) -> &InstanceList
        requires { net < length self.now }
        ensures { result.now ≡ row_of self.now net }
    {
        &self.rows[net as usize]
    }

    // One more reads a net.
    fn add(&mut self, net: u32, u: u32) -> Result<(), NoMemory>
        requires { net < length self.old }
        ensures { OnOk result (self.new ≡ slice_set self.old net (row_of self.old net ++ u ∷ [])) }
    {
        Ok(self.rows[net as usize].push(InstanceId(u))?)
    }

    // The input pins of an instance, if it is one of the library.
    fn add_part(&mut self, draft: &Draft, u: usize) -> Result<(), NoMemory>
        requires drafted { IsDrafted draft.now }
        requires within { u < length draft.now.parts }
        requires so_far { HaveReaders draft.now (ReadsAmong draft.now u) self.old }
        ensures { OnOk result (HaveReaders draft.now (ReadsAmong draft.now (u + 1)) self.new) }
    {
        if let Body::Gate { inputs, .. } = &draft.part(u).body {
            for pin in 0..inputs.len() {
                self.add(inputs.get(pin), u as u32)?;
            }
        }
        Ok(())
    }
}

/// For each net the library instances that read it.
pub(crate) fn readers_of(alloc: Global, draft: &Draft) -> Result<Readers, NoMemory>
    requires { IsDrafted draft.now }
    ensures { IfOk result (AreReaders draft.now) }
{
    let mut readers = Readers::begin(alloc, draft.nets())?;
    for u in 0..draft.parts() {
        readers.add_part(draft, u)?;
    }
    Ok(readers)
}
