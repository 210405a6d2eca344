//! All instances in topological order.

ghost use Rattle.std.specs.Prelude.{◌≡◌, ◌<◌, ℕ, List, true, length};
ghost use Rattle.std.specs.List.{All};
ghost use Rattle.ca_net.specs.declared.trit.Trit.{Trit};
ghost use Rattle.ca_flat.specs.Chip.{Chip, IsChip};
ghost use Rattle.ca_lanes.specs.Planes.{net_count, is_loaded, firsts_in, lasts_in};
ghost use Rattle.ca_lanes.specs.Netlist.{IsOrder, IsInstanceReadable, AreInstancesOf};
ghost use Rattle.ca_lanes.specs.code.Sweep.{HasInputs, IsLoadedTo};

use crate::good_rows::GoodRows;
use crate::netlist::Instance;
use crate::planes::Planes;

// Evaluates all instances, each after those that drive its input pins.
pub(crate) fn sweep(planes: &mut Planes, instances: &[Instance], order: &[u32], goods: &[GoodRows])
    requires placed { All (IsInstanceReadable (net_count planes.old) goods.now) instances.now }
    requires order { All (λ u. u < length instances.now) order.now }
    ensures loaded { (chip : Chip) (rank : ℕ → ℕ) (pair : List Trit) (lane : ℕ) → IsChip chip rank
        → IsOrder chip order.now → AreInstancesOf chip instances.now goods.now
        → is_loaded planes.old lane ≡ true
        → HasInputs chip pair (firsts_in planes.old lane) (lasts_in planes.old lane)
        → IsLoadedTo chip pair order.now (length order.now)
        (firsts_in planes.new lane) (lasts_in planes.new lane) }
    ensures lanes { planes.new.loaded ≡ planes.old.loaded }
    ensures count { net_count planes.new ≡ net_count planes.old }
{
    for place in 0..order.len() {
        let instance = &instances[order[place] as usize];
        planes.evaluate(&goods[instance.cell as usize], &instance.pins);
    }
}
