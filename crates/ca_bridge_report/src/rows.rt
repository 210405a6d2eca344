//! The rows of the report.

ghost use Rattle.std.specs.Prelude.{◌≡◌, ◌<◌, length, slice_get, Some, IfOk};
ghost use Rattle.ca_cluster.specs.Bridges.{IsKnown};
ghost use Rattle.ca_targets.specs.Targets.{AreKnown};
ghost use Rattle.ca_chip_report.specs.ChipReport.{instance_name, cell_name};
ghost use Rattle.ca_bridge_report.specs.BridgeReport.{reported_of, bridge_row, bridge_rows};

use ca_base::{List, NoMemory};
use ca_bridge_verdicts::{BridgeVerdict, BridgeVerdicts};
use ca_cluster::{Bridge, BridgeList, bridge_name};
use ca_lex::Text;
use ca_linked::Chip;
use ca_report::{ReportRow, Verdict};
use std::alloc::Global;

// The verdict in a report.
fn reported_of(verdict: &BridgeVerdict) -> Verdict
    ensures { result ≡ reported_of verdict.now }
{
    match verdict {
        BridgeVerdict::Credited { pair, output } => Verdict::Credited {
            pair: *pair,
            output: *output,
        },
        BridgeVerdict::Unexposable => Verdict::Unexposable,
        BridgeVerdict::Untestable => Verdict::Untestable,
        BridgeVerdict::Aborted { .. } => Verdict::Aborted,
        BridgeVerdict::Port => Verdict::Port,
        BridgeVerdict::Wide { .. } => Verdict::Wide,
    }
}

// The name of a bridge's instance, as the netlist spells it.
#[tactic(auto, using(crate::proofs::RowLemmas::known_within, ca_chip_report::proofs::RowLemmas::name_reported))]
fn instance_of(chip: &Chip, bridge: Bridge) -> &[u8]
    requires { IsKnown chip.now bridge }
    ensures { instance_name (slice_get chip.now.parts bridge.instance.0) ≡ result.now }
{
    chip.instance_name(bridge.instance).as_bytes()
}

// The name of its cell, in upper case.
#[tactic(auto, using(crate::proofs::RowLemmas::known_within, ca_chip_report::proofs::RowLemmas::cell_reported))]
fn cell_of(chip: &Chip, bridge: Bridge) -> &[u8]
    requires { IsKnown chip.now bridge }
    ensures { cell_name (slice_get chip.now.parts bridge.instance.0) ≡ result.now }
{
    chip.cell_name(bridge.instance).as_bytes()
}

/// The verdict at a place.
pub(crate) fn verdict_at(verdicts: &BridgeVerdicts, k: usize) -> &BridgeVerdict
    requires { k < length verdicts.now }
    ensures { slice_get verdicts.now k ≡ Some result.now }
{
    &verdicts.as_slice()[k]
}

// The row of a bridge.
fn row_of(
    alloc: Global,
    chip: &Chip,
    bridge: Bridge,
    verdict: &BridgeVerdict,
) -> Result<ReportRow, NoMemory>
    requires { IsKnown chip.now bridge }
    ensures { IfOk result (λ row. row ≡ bridge_row chip.now bridge verdict.now) }
{
    Ok(ReportRow {
        instance: Text::from_bytes(alloc, instance_of(chip, bridge))?,
        cell: Text::from_bytes(alloc, cell_of(chip, bridge))?,
        defect: bridge_name(alloc, chip, bridge)?,
        verdict: reported_of(verdict),
    })
}

/// The rows of these bridges, in order.
pub(crate) fn rows_of(
    alloc: Global,
    chip: &Chip,
    bridges: &BridgeList,
    verdicts: &BridgeVerdicts,
) -> Result<List<ReportRow>, NoMemory>
    requires known { AreKnown chip.now bridges.now }
    requires one_each { length verdicts.now ≡ length bridges.now }
    ensures { IfOk result (λ rows. rows ≡ bridge_rows chip.now bridges.now verdicts.now) }
{
    let mut rows = List::new(alloc);
    for k in 0..bridges.len() {
        rows.push(row_of(alloc, chip, bridges.get(k), verdict_at(verdicts, k))?)?;
    }
    Ok(rows)
}
