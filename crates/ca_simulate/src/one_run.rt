//! One run between two vectors, as a text names it.

ghost use Rattle.std.specs.Prelude.{◌≡◌, length, IfErr, IfOk};
ghost use Rattle.ca_linked.specs.Linked.{inputs_of};
ghost use Rattle.ca_view.specs.Core.{core_of};
ghost use Rattle.ca_request.specs.Asked.{IsLibraryDefect};
ghost use Rattle.ca_simulate.specs.Simulated.{pair_of};
ghost use Rattle.ca_simulate.specs.OneRun.{AreRunEnds};
ghost use Rattle.ca_simulate.specs.code.OneRun.{IsRunFault};

use crate::letters::Letters;
use ca_chip_replay::ChipRun;
use ca_flat::ChipDefect;
use ca_linked::Chip;
use ca_net::Trit;
use ca_order::OrderFault;
use ca_request::Vectors;
use ca_view::View;
use std::alloc::Global;

/// The values of the observed outputs, in their order, at the end of the run that a text names, good or with
/// the defect: a long phase under the first vector from unknown storage nodes, the events of the text, the
/// chip inputs set to the last vector in their order, and a long phase.
#[tactic(auto, using(crate::proofs::RunLemmas::is_chip_defect))]
pub fn replay(
    alloc: Global,
    chip: &Chip,
    defect: Option<ChipDefect>,
    vectors: Vectors<'_>,
    text: &[u8],
) -> Result<Vec<Trit>, OrderFault>
    requires defect { IsLibraryDefect chip.now defect }
    requires first { length vectors.first.now ≡ length (inputs_of chip.now) }
    requires last { length vectors.last.now ≡ length (inputs_of chip.now) }

    ensures ends { IfOk result (λ values. AreRunEnds (record {
      chip = core_of chip.now;
      given = defect;
      pair = pair_of vectors.entry.first.now vectors.entry.last.now;
    }) text.now values.items) }
    ensures cause { IfErr result (IsRunFault (record {
      chip = core_of chip.now;
      given = defect;
      pair = pair_of vectors.entry.first.now vectors.entry.last.now;
    }) text.now) }
{
    chip.wired();
    let view = View::new(alloc, chip)?;
    let letters = Letters { vectors };
    let run = ChipRun::new(alloc, &view, defect, &letters)?;
    let events = run.read(alloc, text)?;
    Ok(run.replay(alloc, events.as_slice())?)
}
