//! How many bridges have which verdict.

ghost use Rattle.std.specs.Prelude.{◌≡◌, IfOk};
ghost use Rattle.ca_bridge_report.specs.Summary.{is_bridge_kind, bridge_count, bridge_summary_of};
ghost use Rattle.ca_bridge_report.specs.Summary.{bridge_summary_line, bridges_line};

use crate::rows::verdict_at;
use ca_base::NoMemory;
use ca_bridge_verdicts::{BridgeVerdict, BridgeVerdicts};
use ca_chip_report::{add_count, one_if};
use ca_lex::Text;
use std::alloc::Global;

// A kind of verdict.
#[derive(Clone, Copy)]
enum BridgeKind {
    Credited,
    Unexposable,
    Untestable,
    Aborted,
    Port,
    Wide,
}

// Whether a verdict is of a kind.
fn is_bridge_kind(verdict: &BridgeVerdict, kind: BridgeKind) -> bool
    ensures { result ≡ is_bridge_kind kind verdict.now }
{
    match (kind, verdict) {
        (BridgeKind::Credited, BridgeVerdict::Credited { .. }) => true,
        (BridgeKind::Unexposable, BridgeVerdict::Unexposable) => true,
        (BridgeKind::Untestable, BridgeVerdict::Untestable) => true,
        (BridgeKind::Aborted, BridgeVerdict::Aborted { .. }) => true,
        (BridgeKind::Port, BridgeVerdict::Port) => true,
        (BridgeKind::Wide, BridgeVerdict::Wide { .. }) => true,
        _ => false,
    }
}

// The number of verdicts of a kind.
fn bridge_count(verdicts: &BridgeVerdicts, kind: BridgeKind) -> usize
    ensures { result ≡ bridge_count kind verdicts.now }
{
    let mut count = 0;
    for k in 0..verdicts.len() {
        count += one_if(is_bridge_kind(verdict_at(verdicts, k), kind));
    }
    count
}

// How many bridges there are, how many have each verdict, and how many pairs are listed.
#[derive(Clone, Copy)]
struct BridgeSummary {
    bridges: usize,
    credited: usize,
    unexposable: usize,
    untestable: usize,
    aborted: usize,
    port: usize,
    wide: usize,
    pairs: usize,
}

// The numbers of these verdicts and of `pairs` pairs.
fn bridge_summary_of(verdicts: &BridgeVerdicts, pairs: usize) -> BridgeSummary
    ensures { result ≡ bridge_summary_of verdicts.now pairs }
{
    BridgeSummary {
        bridges: verdicts.len(),
        credited: bridge_count(verdicts, BridgeKind::Credited),
        unexposable: bridge_count(verdicts, BridgeKind::Unexposable),
        untestable: bridge_count(verdicts, BridgeKind::Untestable),
        aborted: bridge_count(verdicts, BridgeKind::Aborted),
        port: bridge_count(verdicts, BridgeKind::Port),
        wide: bridge_count(verdicts, BridgeKind::Wide),
        pairs,
    }
}

// The line of these numbers.
fn bridge_summary_line(alloc: Global, summary: BridgeSummary) -> Result<Text, NoMemory>
    ensures { IfOk result (λ text. text ≡ bridge_summary_line summary) }
{
    let mut text = Text::new(alloc);
    add_count(&mut text, b"bridges ", summary.bridges)?;
    add_count(&mut text, b", credited ", summary.credited)?;
    add_count(&mut text, b", unexposable ", summary.unexposable)?;
    add_count(&mut text, b", untestable ", summary.untestable)?;
    add_count(&mut text, b", aborted ", summary.aborted)?;
    add_count(&mut text, b", port ", summary.port)?;
    add_count(&mut text, b", wide ", summary.wide)?;
    add_count(&mut text, b", pairs ", summary.pairs)?;
    text.append(b"\n")?;
    Ok(text)
}

/// The line that says how many bridges there are, how many of them have each verdict, and how many pairs are
/// listed. It looks at each verdict once for each of the six kinds.
pub fn bridges_line(
    alloc: Global,
    verdicts: &BridgeVerdicts,
    pairs: usize,
) -> Result<Text, NoMemory>
    ensures { IfOk result (λ text. text ≡ bridges_line verdicts.now pairs) }
{
    bridge_summary_line(alloc, bridge_summary_of(verdicts, pairs))
}
