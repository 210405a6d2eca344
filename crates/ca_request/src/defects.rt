//! The instance and the defect of a chip that words name.

ghost use Rattle.std.specs.Prelude.{◌≡◌, ◌≢◌, IfErr, IfOk};
ghost use Rattle.ca_linked.specs.Linked.{IsLibrary};
ghost use Rattle.ca_linked.specs.Instances.{IsNamedGate};
ghost use Rattle.ca_request.specs.Vectors.{dash};
ghost use Rattle.ca_request.specs.Asked.{AreBothOrNeither, IsAskedDefect, IsLibraryDefect, IsDefectStage};
ghost use Rattle.ca_request.specs.Asked.{IsInstanceStage};

use ca_cell::parse_defect;
use ca_fault::Fault;
use ca_flat::ChipDefect;
use ca_flatten::cell_at;
use ca_lex::Text;
use ca_linked::{Chip, InstanceId};
use std::alloc::Global;

// The defect that a word names of an instance's cell.
fn defect_of(
    alloc: Global,
    chip: &Chip,
    u: InstanceId,
    instance: &str,
    defect: &str,
) -> Result<Option<ChipDefect>, Fault>
    requires some { instance.now ≢ dash }
    requires named { IsNamedGate chip.now instance.now u.0 }
    ensures asked { IfOk result (IsAskedDefect chip.now instance.now defect.now) }
    ensures is_defect { IfOk result (IsLibraryDefect chip.now) }
    ensures cause { IfErr result (IsDefectStage chip.now instance.now defect.now) }
{
    match parse_defect(cell_at(chip, u), defect.as_bytes()) {
        Some(defect) => Ok(Some(ChipDefect {
            instance: u.0,
            defect,
        })),
        None => Err(Fault::NoDefect {
            word: Text::from_bytes(alloc, defect.as_bytes())?,
        }),
    }
}

/// The library instance that a word names. It looks through all library instances.
pub fn find_named(alloc: Global, chip: &Chip, instance: &str) -> Result<InstanceId, Fault>
    ensures named { IfOk result (λ u. IsNamedGate chip.now instance.now u.0) }
    ensures cause { IfErr result (IsInstanceStage chip.now instance.now) }
{
    match chip.find_instance(instance.as_bytes()) {
        Some(u) => Ok(u),
        None => Err(Fault::NoInstance {
            word: Text::from_bytes(alloc, instance.as_bytes())?,
        }),
    }
}

/// The defect that the words ask for; none where both are a dash. The instance is judged before the defect.
/// It looks through all library instances.
#[tactic(auto, using(crate::proofs::DefectLemmas::unnamed))]
pub fn find_defect(
    alloc: Global,
    chip: &Chip,
    instance: &str,
    defect: &str,
) -> Result<Option<ChipDefect>, Fault>
    requires { AreBothOrNeither instance.now defect.now }
    ensures asked { IfOk result (IsAskedDefect chip.now instance.now defect.now) }
    ensures is_defect { IfOk result (IsLibraryDefect chip.now) }
    ensures cause { IfErr result (IsDefectStage chip.now instance.now defect.now) }
{
    if instance == "-" {
        return Ok(None);
    }
    match find_named(alloc, chip, instance) {
        Ok(u) => defect_of(alloc, chip, u, instance, defect),
        Err(fault) => Err(fault),
    }
}
