//! The vectors that the pairs of a chip give at the pins of its instances, found vector by vector.

ghost use Rattle.std.specs.Prelude.{◌≡◌, ◌<◌, ◌≤◌, ◌^◌, length, None, IfOk};
ghost use Rattle.ca_flat.specs.Chip.{count_of};
ghost use Rattle.ca_view.specs.Linked.{place_in};
ghost use Rattle.ca_every_vector.specs.declared.vectors.TheConstants.{MOST_VECTOR_BITS};
ghost use Rattle.ca_every_vector.specs.code.Masks.{HaveFirsts, HaveLasts};

use crate::masks::{add_over, add_seen};
use crate::values::{load_firsts, load_lasts};
use crate::vectors::{FirstVector, LastVector};
use ca_base::NoMemory;
use ca_net::State;
use ca_sim::{NetWaves, Sim};
use ca_sweep::Sweep;
use ca_view::View;
use std::alloc::Global;

/// Finds for each instance the vectors that first vectors give.
pub(crate) fn find_firsts(chip: &View<'_>, sim: &mut Sim<'_>, values: &mut State, masks: &mut [u64])
    requires few { length chip.now.core.inputs ≤ MOST_VECTOR_BITS }
    requires sim { sim.old.seen.chip ≡ chip.now.core }
    requires nets { length values.old ≡ length chip.now.core.nets }
    requires room { length masks.old ≡ count_of chip.now.core }
    ensures firsts { HaveFirsts chip.now.core (place_in chip.now.ranks)
        (2 ^ length chip.now.core.inputs) masks.new }
    ensures room { length masks.new ≡ count_of chip.now.core }
{
    let inputs = chip.input_count();
    for number in 0..1usize << inputs {
        sim.exact();
        sim.load(&FirstVector { inputs, number });
        sim.exact();
        load_firsts(&*sim, values);
        add_over(chip, values, masks);
    }
}

/// Finds for each instance the vectors that last vectors give.
pub(crate) fn find_lasts(
    chip: &View<'_>,
    sim: &mut Sim<'_>,
    sweep: &mut Sweep<'_>,
    values: &mut State,
    masks: &mut [u64],
)
    requires few { length chip.now.core.inputs ≤ MOST_VECTOR_BITS }
    requires sim { sim.old.seen.chip ≡ chip.now.core }
    requires sweep { sweep.old.chip ≡ chip.now.core }
    requires places { sweep.old.places ≡ chip.now.ranks }
    requires nets { length values.old ≡ length chip.now.core.nets }
    requires room { length masks.old ≡ count_of chip.now.core }
    ensures lasts { HaveLasts chip.now.core (place_in chip.now.ranks)
        (2 ^ length chip.now.core.inputs) masks.new }
    ensures room { length masks.new ≡ count_of chip.now.core }
{
    let inputs = chip.input_count();
    for number in 0..1usize << inputs {
        sim.exact();
        sim.load(&LastVector { inputs, number });
        sim.exact();
        load_lasts(&*sim, values);
        sweep.load(&*sim);
        add_seen(chip, sweep, values, masks);
    }
}
