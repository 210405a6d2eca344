//! The report of verdicts on bridges.

ghost use Rattle.std.specs.Prelude.{◌≡◌, IfOk};
ghost use Rattle.ca_bridge_report.specs.BridgeReport.{AreReported, bridges_report};

use crate::rows::rows_of;
use ca_base::NoMemory;
use ca_bridge_verdicts::BridgeVerdicts;
use ca_cluster::BridgeList;
use ca_lex::Text;
use ca_linked::Chip;
use ca_outputs::output_names;
use ca_report::write_bridges;
use std::alloc::Global;

/// The report: for each of these bridges its instance, its cell, its name and its verdict.
pub fn write_bridges_report(
    alloc: Global,
    chip: &Chip,
    bridges: &BridgeList,
    verdicts: &BridgeVerdicts,
) -> Result<Text, NoMemory>
    requires { AreReported chip.now bridges.now verdicts.now }
    ensures exact { IfOk result (λ text. text ≡ bridges_report chip.now bridges.now verdicts.now) }
{
    let outputs = output_names(alloc, chip)?;
    let rows = rows_of(alloc, chip, bridges, verdicts)?;
    write_bridges(alloc, &outputs, &rows)
}
