//! The instances of a chip in an order in which each comes after those that drive it.

ghost use Rattle.std.specs.Prelude.{IfOk};
ghost use Rattle.ca_view.specs.Linked.{place_in};
ghost use Rattle.ca_examiner.specs.code.Order.{IsOrder};

use ca_base::NoMemory;
use ca_view::View;
use std::alloc::Global;

// The instance at each place of the order, if there is one.
pub(crate) fn order_of(alloc: Global, chip: &View<'_>) -> Result<Vec<Option<u32>>, NoMemory>
    ensures { IfOk result (λ order. IsOrder chip.now.core (place_in chip.now.ranks) order.items) }
{
    chip.linked();
    let mut order = vec![in alloc; None; chip.instances() + 1]?;
    for u in 0..chip.instances() {
        let place = chip.rank(u);
        if place > 0 {
            order[place] = Some(u as u32);
        }
    }
    Ok(order)
}
