//! The numbers of nets.

ghost use Rattle.std.specs.Prelude.{◌≡◌, ◌<◌, ◌≤◌, ◌+◌, ◌++◌, ◌^◌, [], ◌∷◌, length, slice_index, IfOk, OnOk};
ghost use Rattle.std.specs.Prelude.{OnErr};
ghost use Rattle.ca_wiring.specs.Numbers.{WireMarks, earliest_of, IsUsed, LeadsToEarliest, AreNumbered};

use ca_base::NoMemory;
use std::alloc::Global;
use std::marker::Model;

/// The nets, each by the earliest of its wires, and for each wire the number of its net.
#[derive(Drop)]
pub struct NetTable {
    nets: Vec<u32>,
    numbers: Vec<u32>,
}

impl Model for NetTable {
    ghost use Rattle.ca_wiring.specs.Numbers.{NetNumbers};

    ghost Value = { NetNumbers };

    ghost view = { λ table. record { nets = table.nets.items; numbers = table.numbers.items } };
}

impl NetTable {
    fn new(alloc: Global) -> Self
        ensures { result ≡ record { nets = []; numbers = [] } }
    {
        NetTable {
            nets: Vec::new(alloc),
            numbers: Vec::new(alloc),
        }
    }

    // The next wire is the earliest of a net.
    fn push_net(&mut self, w: u32) -> Result<(), NoMemory>
        requires { length self.old.nets < 2 ^ 32 }
        ensures { OnOk result (self.new ≡ record {
          nets = self.old.nets ++ w ∷ [];
          numbers = self.old.numbers ++ length self.old.nets ∷ [];
        }) }
    {
        self.numbers.push(self.nets.len() as u32)?;
        self.nets.push(w)?;
        Ok(())
    }

    // The next wire is on a net with this number, or on none.
    fn push_number(&mut self, number: u32) -> Result<(), NoMemory>
        ensures { OnOk result (self.new ≡ record {
          nets = self.old.nets;
          numbers = self.old.numbers ++ number ∷ [];
        }) }
    {
        self.numbers.push(number)?;
        Ok(())
    }

    /// The number of nets.
    pub fn nets(&self) -> usize
        ensures { result ≡ length self.now.nets }
    {
        self.nets.len()
    }

    /// The number of a wire's net.
    pub fn number(&self, w: u32) -> u32
        requires { w < length self.now.numbers }
        ensures { result ≡ slice_index self.now.numbers w }
    {
        self.numbers[w as usize]
    }

    // The next wire: it is on the net of an earlier one, the earliest of a net, or on none.
    fn push_wire(&mut self, earliest: &[u32], used: &[bool], w: u32) -> Result<(), NoMemory>
        requires marks { LeadsToEarliest (record { earliest = earliest.now; used = used.now }) }
        requires within { w < length earliest.now }
        requires so_far { AreNumbered (record { earliest = earliest.now; used = used.now }) w self.old }
        ensures { OnOk result (AreNumbered (record { earliest = earliest.now; used = used.now })
            (w + 1) self.new) }
    {
        let first = earliest[w as usize];
        if first < w {
            let number = self.number(first);
            self.push_number(number)?;
        } else if used[w as usize] {
            self.push_net(w)?;
        } else {
            self.push_number(0)?;
        }
        Ok(())
    }
}

/// Numbers the nets: the earliest wires that are used, in order.
pub fn number_nets(alloc: Global, earliest: &[u32], used: &[bool]) -> Result<NetTable, NoMemory>
    requires few { length earliest.now < 2 ^ 32 }
    requires marks { LeadsToEarliest (record { earliest = earliest.now; used = used.now }) }
    ensures { IfOk result (AreNumbered (record { earliest = earliest.now; used = used.now })
        (length earliest.now)) }
{
    let mut table = NetTable::new(alloc);
    for w in 0..earliest.len() {
        table.push_wire(earliest, used, w as u32)?;
    }
    Ok(table)
}
