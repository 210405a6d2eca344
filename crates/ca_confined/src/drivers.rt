//! The instance that drives each net.

ghost use Rattle.std.specs.Prelude.{◌≡◌, ◌<◌, ◌+◌, length, IfOk};
ghost use Rattle.ca_flat.specs.Chip.{count_of};
ghost use Rattle.ca_view.specs.Linked.{place_in};
ghost use Rattle.ca_confined.specs.code.Drivers.{AreDrivers, AreDriversTo};

use ca_base::NoMemory;
use ca_view::View;
use std::alloc::Global;

/// Of each net the place of the instance that drives it, 0 where it has none.
pub(crate) fn drivers_of(alloc: Global, chip: &View) -> Result<Vec<usize>, NoMemory>
    ensures { IfOk result (λ drivers. AreDrivers chip.now.core (place_in chip.now.ranks) drivers.items) }
{
    chip.linked();
    let mut drivers = vec![in alloc; 0usize; chip.nets()]?;
    for u in 0..chip.instances() {
        note_outputs(chip, u, &mut drivers);
    }
    Ok(drivers)
}

// Notes the place of an instance at each of its output nets.
fn note_outputs(chip: &View, u: usize, drivers: &mut [usize])
    requires known { u < count_of chip.now.core }
    requires so_far { AreDriversTo chip.now.core (place_in chip.now.ranks) u drivers.old }
    ensures { AreDriversTo chip.now.core (place_in chip.now.ranks) (u + 1) drivers.new }
{
    chip.linked();
    let place = chip.rank(u);
    if place == 0 {
        return;
    }
    let first = chip.inputs_at(u);
    for output in 0..chip.outputs_at(u) {
        drivers[chip.pin_net(u, first + output)] = place;
    }
}
