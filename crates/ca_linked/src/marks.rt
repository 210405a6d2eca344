//! Marks of nets.

ghost use Rattle.std.specs.Prelude.{◌≡◌, ◌<◌, false, true, length, replicate, slice_set, IfOk};
ghost use Rattle.std.specs.List.{All};
ghost use Rattle.ca_linked.specs.Paths.{mark_at, Marks};

use ca_base::NoMemory;
use std::alloc::Global;
use std::marker::Model;

/// A mark for each net, or for each of other numbers. Contracts see a list.
#[derive(Drop)]
pub struct NetMarks {
    marks: Vec<bool>,
}

impl Model for NetMarks {
    ghost use Rattle.std.specs.Prelude.{List, Bool};

    ghost Value = { List Bool };

    ghost view = { λ marks. marks.marks.items };
}

impl NetMarks {
    /// No net is marked.
    pub fn new(alloc: Global, nets: usize) -> Result<Self, NoMemory>
        ensures { IfOk result (λ marks. marks ≡ replicate nets false) }
    {
        Ok(NetMarks {
            marks: vec![in alloc; false; nets]?,
        })
    }

    /// Whether a net is marked.
    pub fn get(&self, net: u32) -> bool
        requires { net < length self.now }
        ensures { result ≡ mark_at self.now net }
    {
        self.marks[net as usize]
    }

    /// Marks a net.
    pub fn mark(&mut self, net: u32)
        requires { net < length self.old }
        ensures { self.new ≡ slice_set self.old net true }
    {
        self.marks[net as usize] = true;
    }

    /// Marks the nets of a list.
    pub fn mark_all(&mut self, nets: &[u32])
        requires { All (λ net. net < length self.old) nets.now }
        ensures { Marks nets.now self.old self.new }
    {
        for k in 0..nets.len() {
            self.mark(nets[k]);
        }
    }
}
