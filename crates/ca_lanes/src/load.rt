//! The pairs are loaded: every net gets its plain two-frame value in the lane of each pair.

ghost use Rattle.std.specs.Prelude.{◌≡◌, ◌≤◌, ◌<◌, ◌+◌, ◌^◌, ℕ, Some, map, length, slice_get};
ghost use Rattle.std.specs.List.{All};

use crate::frame::set_frame;
use crate::good_rows::GoodRows;
use crate::inputs::pair_lanes;
use crate::netlist::Netlist;
use crate::plane::{LANES, Plane};
use crate::planes::Planes;
use crate::sweep::sweep;
use ca_pair::Pair;

impl Planes {
    ghost use Rattle.std.specs.Prelude.{List, Bool};
    ghost use Rattle.ca_flat.specs.Chip.{Chip, IsChip};
    ghost use Rattle.ca_flat.specs.Codes.{bit_trit};
    ghost use Rattle.ca_lanes.specs.Plane.{lane_of, is_lane};
    ghost use Rattle.ca_lanes.specs.Choice.{choice_at};
    ghost use Rattle.ca_lanes.specs.code.Set.{set_choice};
    ghost use Rattle.ca_lanes.specs.Planes.{net_count, is_loaded, firsts_in, lasts_in};
    ghost use Rattle.ca_lanes.specs.Netlist.{HasBits, IsReadable, IsNetlistOf};
    ghost use Rattle.ca_lanes.specs.Loaded.{IsLoaded};

    /// Loads the pairs, pair k into lane k, and no other lane. It takes no memory.
    pub fn load(&mut self, netlist: &Netlist, goods: &[GoodRows], pairs: &[Pair])
        requires netlist { IsReadable (net_count self.old) goods.now netlist.now }
        requires lanes { length pairs.now ≤ LANES }
        requires bits { All (HasBits (length netlist.now.inputs.items) (length netlist.now.inputs.items))
            pairs.now }

        ensures loaded { (chip : Chip) (rank : ℕ → ℕ) (lane : ℕ) (pair : List Bool) → IsChip chip rank
            → length chip.nets ≡ net_count self.old → IsNetlistOf chip netlist.now goods.now
            → slice_get pairs.now lane ≡ Some pair
            → IsLoaded chip (map bit_trit pair) (firsts_in self.new lane) (lasts_in self.new lane) }
        ensures lanes { (lane : ℕ) → is_loaded self.new lane ≡ is_lane (length pairs.now) lane }
        ensures room { net_count self.new ≡ net_count self.old }
    {
        let loaded = pair_lanes(pairs.len());
        self.set_frames(netlist, pairs, loaded);
        sweep(self, &netlist.instances, &netlist.order, goods);
    }

    // Sets all nets of both frames, before any instance is evaluated.
    fn set_frames(&mut self, netlist: &Netlist, pairs: &[Pair], loaded: Plane)
        requires inputs { All (λ net. net < net_count self.old) netlist.now.inputs.items }
        requires constants { All (λ constant. constant.net < net_count self.old)
            netlist.now.constants.items }
        requires few { length netlist.now.inputs.items + length netlist.now.inputs.items < 2 ^ 64 }
        requires lanes { length pairs.now ≤ LANES }
        requires bits { All (HasBits (length netlist.now.inputs.items) (length netlist.now.inputs.items))
            pairs.now }

        ensures first { (lane net : ℕ) → net < net_count self.old → choice_at (firsts_in self.new lane) net
            ≡ set_choice netlist.now.inputs.items netlist.now.constants.items pairs.now 0
            (lane_of loaded lane) lane net }
        ensures last { (lane net : ℕ) → net < net_count self.old → choice_at (lasts_in self.new lane) net
            ≡ set_choice netlist.now.inputs.items netlist.now.constants.items pairs.now
            (length netlist.now.inputs.items) (lane_of loaded lane) lane net }
        ensures loaded { self.new.loaded ≡ loaded }
        ensures room { net_count self.new ≡ net_count self.old }
    {
        let count = netlist.inputs.len();
        set_frame(
            &mut self.firsts,
            &netlist.inputs,
            &netlist.constants,
            pairs,
            0,
            loaded,
        );
        set_frame(
            &mut self.lasts,
            &netlist.inputs,
            &netlist.constants,
            pairs,
            count,
            loaded,
        );
        self.loaded = loaded;
    }
}
