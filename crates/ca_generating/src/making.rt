//! What `make` asks for.
ghost use Rattle.std.specs.Prelude.{◌≤◌, IfErr, IfOk};
ghost use Rattle.ca_credit.specs.Good.{IsGood};
ghost use Rattle.ca_engine.specs.ChipTask.{task_of};
ghost use Rattle.ca_make.specs.declared.gate.TheConstants.{MOST_GATES};
ghost use Rattle.ca_generating.specs.Making.{IsMadeChip, IsMakeStage};

use ca_credit::Verdicts;
use ca_engine::generate_chip;
use ca_fault::Fault;
use ca_generate::{Aims, Generated, Watch};
use ca_linked::Chip;
use ca_make_laws::{library_is_read, netlist_is_read};
use ca_make_links::{chip_keeps_rules, made_chip};
use ca_on_chip::generation_fault;
use ca_pair::Pairs;
use std::alloc::Global;

/// How many branches each search has on a generated chip.
pub const MAKE_BUDGET: u32 = 64;

/// A generated chip, with the listed pairs, for each the place of the defect for which it was found, and a
/// verdict for each defect.
#[derive(Drop)]
pub struct MadeChip {
    pub chip: Chip,
    pub pairs: Pairs,
    pub aims: Aims,
    pub verdicts: Verdicts,
}

/// The tests of the generated chip of a number. The watch is notified after each defect's turn.
#[tactic(auto, using(crate::proofs::MakeLemmas::too_many))]
pub fn find_made<T: Watch>(alloc: Global, number: u32, watch: &mut T) -> Result<MadeChip, Fault>
    requires { number ≤ MOST_GATES }

    ensures chip { IfOk result (λ made. IsMadeChip number made.chip) }
    ensures good { IfOk result (λ made.
        IsGood (task_of made.chip MAKE_BUDGET) made.pairs made.aims made.verdicts) }
    ensures cause { IfErr result (IsMakeStage number) }
{
    let chip = linked(alloc, number)?;
    match generate_chip(alloc, &chip, MAKE_BUDGET, watch) {
        Ok(
            Generated {
                pairs,
                aims,
                verdicts,
            },
        ) => Ok(MadeChip {
            chip,
            pairs,
            aims,
            verdicts,
        }),
        Err(fault) => Err(generation_fault(fault)),
    }
}

// The generated chip of a number.
#[tactic(auto, using(crate::proofs::MakeLemmas::is_made))]
fn linked(alloc: Global, number: u32) -> Result<Chip, Fault>
    requires { number ≤ MOST_GATES }

    ensures chip { IfOk result (IsMadeChip number) }
    ensures cause { IfErr result (IsMakeStage number) }
{
    library_is_read();
    netlist_is_read();
    chip_keeps_rules();
    let chip = made_chip(alloc, number)?;
    chip.wired();
    Ok(chip)
}
