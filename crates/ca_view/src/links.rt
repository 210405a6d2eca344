//! The links between the nets of the core: for each net a list of nets.

ghost use Rattle.std.specs.Prelude.{◌≡◌, ◌<◌, [], ◌++◌, ◌∷◌, length, replicate, slice_set, OnOk, IfOk};
ghost use Rattle.std.specs.List.{All};
ghost use Rattle.ca_view.specs.NetLists.{linked_from};
ghost use Rattle.ca_view.specs.code.Links.{Grows, IsLinkToEach, IsLinkOfPins, LinksPins, turned};

use crate::pins::CorePins;
use ca_base::NoMemory;
use std::alloc::Global;
use std::marker::Model;

/// For each net the nets to which it is linked.
#[derive(Drop, Debug)]
pub(crate) struct LinkTable {
    lists: Vec<Vec<u32>>,
}

impl Model for LinkTable {
    ghost use Rattle.std.specs.Prelude.{ℕ, List};
    ghost use Rattle.ca_view.specs.NetLists.{AreWithin};
    ghost use Rattle.ca_view.specs.code.Pins.{items_of};

    ghost Value = { List (List ℕ) };

    ghost view = { λ table. items_of table.lists.items };

    ghost invariant = { λ table. AreWithin (items_of table.lists.items) };
}

impl LinkTable {
    ghost use Rattle.ca_view.specs.NetLists.{AreWithin};

    /// The nets to which a net is linked.
    pub(crate) fn from(&self, net: u32) -> &[u32]
        requires { net < length self.now }
        ensures same { result.now ≡ linked_from self.now net }
        ensures within { AreWithin self.now }
    {
        &self.lists[net as usize]
    }

    /// A table of `nets` nets without links.
    fn empty(alloc: Global, nets: usize) -> Result<Self, NoMemory>
        ensures { IfOk result (λ table. table ≡ replicate nets []) }
    {
        let mut lists = Vec::with_capacity(alloc, nets)?;
        for _net in 0..nets {
            lists.push(Vec::new(alloc))?;
        }
        Ok(LinkTable { lists })
    }

    /// The links from the input nets of each instance to its output nets.
    pub(crate) fn onward(alloc: Global, pins: &CorePins) -> Result<Self, NoMemory>
        ensures { IfOk result (LinksPins pins.now) }
    {
        let mut table = LinkTable::empty(alloc, pins.net_count())?;
        for instance in 0..pins.count() {
            table.add_instance(pins.inputs(instance), pins.outputs(instance))?;
        }
        Ok(table)
    }

    /// The links from the output nets of each instance to its input nets.
    pub(crate) fn back(alloc: Global, pins: &CorePins) -> Result<Self, NoMemory>
        ensures { IfOk result (LinksPins (turned pins.now)) }
    {
        let mut table = LinkTable::empty(alloc, pins.net_count())?;
        for instance in 0..pins.count() {
            table.add_instance(pins.outputs(instance), pins.inputs(instance))?;
        }
        Ok(table)
    }

    // Links each of the one nets to each of the others.
    fn add_instance(&mut self, froms: &[u32], tos: &[u32]) -> Result<(), NoMemory>
        requires froms { All (λ net. net < length self.old) froms.now }
        requires tos { All (λ net. net < length self.old) tos.now }
        ensures ok { OnOk result (Grows (IsLinkOfPins froms.now tos.now) self.old self.new) }
    {
        for from in froms {
            self.add_to_each(*from, tos)?;
        }
        Ok(())
    }

    // Links the net to each of the others.
    fn add_to_each(&mut self, from: u32, tos: &[u32]) -> Result<(), NoMemory>
        requires from { from < length self.old }
        requires tos { All (λ net. net < length self.old) tos.now }
        ensures ok { OnOk result (Grows (IsLinkToEach from tos.now) self.old self.new) }
    {
        for to in tos {
            self.add(from, *to)?;
        }
        Ok(())
    }

    // Links the net to the other.
    fn add(&mut self, from: u32, to: u32) -> Result<(), NoMemory>
        requires from { from < length self.old }
        requires to { to < length self.old }
        ensures ok { OnOk result (self.new ≡ slice_set self.old from (linked_from self.old from ++ to ∷ [])) }
    {
        self.lists[from as usize].push(to)?;
        Ok(())
    }
}
