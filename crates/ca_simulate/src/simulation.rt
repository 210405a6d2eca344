//! The values of observed outputs under a pair.

ghost use Rattle.std.specs.Prelude.{◌≡◌, ◌<◌, length, None, IfOk, OnOk};
ghost use Rattle.ca_linked.specs.Linked.{inputs_of};
ghost use Rattle.ca_view.specs.Core.{core_of};
ghost use Rattle.ca_sim.specs.Seen.{IsExact};
ghost use Rattle.ca_request.specs.Asked.{IsLibraryDefect};
ghost use Rattle.ca_simulate.specs.Simulated.{pair_of, AreOutputEnds, AreSimulated};
ghost use Rattle.ca_simulate.specs.code.Lasts.{AreLasts, AreReady};

use crate::letters::Letters;
use ca_base::NoMemory;
use ca_flat::ChipDefect;
use ca_flatten::judge_size;
use ca_linked::Chip;
use ca_net::Trit;
use ca_request::Vectors;
use ca_sim::{NetWaves, Sim};
use ca_view::View;
use std::alloc::Global;

/// What the observed outputs settle to, in their order, without a defect and with one: X where runs differ or
/// end at X.
#[derive(Drop)]
pub struct OutputEnds {
    pub good: Vec<Trit>,
    pub faulty: Vec<Trit>,
}

/// What the observed outputs settle to under two vectors that have one letter for each chip input, without
/// the defect and with it. Without a defect both are the same. Also answers out of memory for a chip whose
/// flat network may have 2^32 nodes or devices, or that has 2^14 inputs.
pub fn simulate(
    alloc: Global,
    chip: &Chip,
    defect: Option<ChipDefect>,
    vectors: Vectors<'_>,
) -> Result<OutputEnds, NoMemory>
    requires defect { IsLibraryDefect chip.now defect }
    requires first { length vectors.first.now ≡ length (inputs_of chip.now) }
    requires last { length vectors.last.now ≡ length (inputs_of chip.now) }
    ensures { IfOk result (λ ends. AreSimulated (core_of chip.now) defect
        (pair_of vectors.entry.first.now vectors.entry.last.now) ends.good.items ends.faulty.items) }
{
    judge_size(alloc, chip)?;
    chip.wired();
    let view = View::new(alloc, chip)?;
    let ends = simulate_on(alloc, &view, defect, vectors);
    drop(view);
    ends
}

// What the observed outputs settle to, by a simulator over the view of a chip.
fn simulate_on(
    alloc: Global,
    view: &View<'_>,
    defect: Option<ChipDefect>,
    vectors: Vectors<'_>,
) -> Result<OutputEnds, NoMemory>
    requires chip { AreReady view.now }
    requires defect { IsLibraryDefect view.now.chip defect }
    requires first { length vectors.first.now ≡ length (inputs_of view.now.chip) }
    requires last { length vectors.last.now ≡ length (inputs_of view.now.chip) }
    ensures { IfOk result (λ ends. AreSimulated (core_of view.now.chip) defect
        (pair_of vectors.entry.first.now vectors.entry.last.now) ends.good.items ends.faulty.items) }
{
    let mut sim = Sim::reserve(alloc, view)?;
    sim.aim(defect);
    sim.load(&Letters { vectors });
    sim.exact();
    let ends = last_values(alloc, view, &sim);
    drop(sim);
    ends
}

// The last values of the waves at the observed outputs.
fn last_values<N: NetWaves>(alloc: Global, view: &View<'_>, sim: &N) -> Result<OutputEnds, NoMemory>
    requires { (N.seen sim.now).chip ≡ view.now.core }
    ensures { IfOk result (AreLasts view.now.core.outputs (N.seen sim.now)) }
{
    let mut good = Vec::new(alloc);
    let mut faulty = Vec::new(alloc);
    for o in 0..view.output_count() {
        let net = view.output(o);
        good.push(sim.good(net).last)?;
        faulty.push(sim.faulty(net).last)?;
    }
    Ok(OutputEnds { good, faulty })
}
