//! Whether a chain of open nets leads from a defect to an observed output.

ghost use Rattle.std.specs.Prelude.{◌≡◌, ◌<◌, length};
ghost use Rattle.ca_guide.specs.code.Flood.{IsFloodTo};
ghost use Rattle.ca_view.specs.NetLists.{output_nets};
ghost use Rattle.ca_guide.specs.Seen.{open_area, Covers};

use crate::chip::Onward;
use crate::flood::flood;
use crate::number_set::NumberSet;
use crate::waves::{NetWaves, OpenNets};
use ca_view::View;

// Whether some observed output is reached from the instance over open nets. The nets that were reached are in
// the set.
pub(crate) fn reaches_output<V: NetWaves>(
    found: &mut NumberSet,
    chip: &View,
    waves: &V,
    instance: u32,
) -> bool
    requires instance { instance < length chip.now.lists.output_pins }
    requires room { found.old.bound ≡ length chip.now.lists.onward }
    requires covers { Covers chip.now.lists (V.seen waves.now) }
    ensures room { found.new.bound ≡ found.old.bound }
    ensures reaches { IsFloodTo result chip.now.lists.onward
        (open_area chip.now.lists (V.seen waves.now))
        (output_nets chip.now.lists instance) found.new.members }
{
    let links = Onward { chip };
    let nets = OpenNets { chip, waves };
    flood(found, &links, &nets, chip.output_pins(instance))
}
