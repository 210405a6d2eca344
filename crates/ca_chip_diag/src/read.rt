//! The log of a linked chip.

ghost use Rattle.std.specs.Prelude.{◌≡◌, ◌<◌, ◌^◌, length, IfOk};
ghost use Rattle.std.specs.List.{All};
ghost use Rattle.ca_linked.specs.Linked.{outputs_of};
ghost use Rattle.ca_log.specs.LogText.{log_of, Reads, IsLog};
ghost use Rattle.ca_outputs.specs.Outputs.{output_names};

use ca_base::List;
use ca_linked::Chip;
use ca_log::{Log, LogFault, read_log};
use ca_net::Trit;
use ca_outputs::output_names;
use std::alloc::Global;

/// The log that a text is for a linked chip, under whose listed pairs these values are expected; or its first
/// bad record. Also answers out of memory for 2^32 outputs or records.
#[tactic(auto, using(crate::proofs::FitLemmas::values_named))]
pub fn read_chip_log(
    alloc: Global,
    chip: &Chip,
    expected: &[List<Trit>],
    bytes: &[u8],
) -> Result<Log, LogFault>
    requires few { length expected.now < 2 ^ 32 }
    requires values { All (λ values. length values ≡ length (outputs_of chip.now)) expected.now }
    ensures exact { Reads result (log_of (output_names chip.now) expected.now bytes.now) }
    ensures log { IfOk result (IsLog (output_names chip.now) expected.now) }
{
    let names = output_names(alloc, chip)?;
    let log = read_log(alloc, &names, expected, bytes);
    drop(names);
    log
}
