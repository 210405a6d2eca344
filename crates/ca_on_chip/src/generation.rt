//! The faults of test generation on a chip.
ghost use Rattle.std.specs.Prelude.{ℕ};
ghost use Rattle.ca_linked.specs.Linked.{LinkedChip};
ghost use Rattle.ca_generate.specs.GenerateFault.{IsCause};
ghost use Rattle.ca_engine.specs.ChipTask.{task_of};
ghost use Rattle.ca_on_chip.specs.OnChip.{IsTestsStage};

use ca_fault::Fault;
use ca_generate::GenerateFault;

/// The fault of test generation as one of a command.
pub fn generation_fault(fault: GenerateFault) -> Fault
    ensures { (budget : ℕ) (chip : LinkedChip) → IsCause (task_of chip budget) fault
        → IsTestsStage budget chip result }
{
    match fault {
        GenerateFault::TooManyPairs { pairs, aims } => Fault::TooManyPairs { pairs, aims },
        GenerateFault::NoMemory => Fault::NoMemory,
    }
}
