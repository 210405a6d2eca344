//! Which instances are of the library.

ghost use Rattle.std.specs.Prelude.{◌≡◌, ◌<◌, length, IfOk};
ghost use Rattle.ca_flatten.specs.code.Kept.{mark_at, AreGateMarks};

use ca_base::NoMemory;
use ca_linked::{Chip, InstanceId};
use std::alloc::Global;
use std::marker::Model;

/// A mark for each instance that is of the library.
#[derive(Drop)]
pub(crate) struct Gates {
    marks: Vec<bool>,
}

impl Model for Gates {
    ghost use Rattle.std.specs.Prelude.{List, Bool};

    ghost Value = { List Bool };

    ghost view = { λ gates. gates.marks.items };
}

impl Gates {
    /// Whether an instance is of the library; else it is a scan instance.
    pub(crate) fn has(&self, u: InstanceId) -> bool
        requires { u.0 < length self.now }
        ensures { result ≡ mark_at self.now u.0 }
    {
        self.marks[u.0 as usize]
    }
}

/// The library instances of a chip. Also answers out of memory for a chip with 2^32 instances, for which
/// `wire` makes none.
pub(crate) fn gates_of(alloc: Global, chip: &Chip) -> Result<Gates, NoMemory>
    ensures { IfOk result (AreGateMarks chip.now) }
{
    let parts = chip.parts();
    if parts > u32::MAX as usize {
        return Err(NoMemory);
    }
    let mut marks = vec![in alloc; false; parts]?;
    for k in 0..chip.instances() {
        marks[chip.instance(k).0 as usize] = true;
    }
    Ok(Gates { marks })
}
