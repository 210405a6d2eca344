//! The ranks of instances as a table.

ghost use Rattle.std.specs.Prelude.{IfOk};
ghost use Rattle.ca_view.specs.Places.{AreRanks};

use ca_base::NoMemory;
use ca_linked::Chip;
use std::alloc::Global;

/// The rank of each instance: that of a library instance is one more than its place in the order.
pub(crate) fn ranks_of(alloc: Global, chip: &Chip) -> Result<Vec<usize>, NoMemory>
    ensures { IfOk result (λ ranks. AreRanks chip.now ranks.items) }
{
    chip.wired();
    let mut ranks = vec![in alloc; 0; chip.parts()]?;
    for k in 0..chip.instances() {
        let u = chip.instance(k);
        ranks[u.0 as usize] = chip.place(u) + 1;
    }
    Ok(ranks)
}
