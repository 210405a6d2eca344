//! Test generation for the bridges of an instance, with the texts that report it.

ghost use Rattle.std.specs.Prelude.{◌≡◌, length, IfOk};
ghost use Rattle.std.specs.List.{All};
ghost use Rattle.ca_flat.specs.Pair.{bit_count};
ghost use Rattle.ca_linked.specs.Linked.{IsLibrary};
ghost use Rattle.ca_view.specs.Core.{core_of};
ghost use Rattle.ca_scan.specs.ChainFault.{AreAllChains};
ghost use Rattle.ca_atpg.specs.Atpg.{IsStil};
ghost use Rattle.ca_cluster.specs.Bridges.{AreBridgesOf};
ghost use Rattle.ca_targets.specs.Targets.{AreKnown};
ghost use Rattle.ca_bridge_verdicts.specs.Promise.{AreGoodVerdicts};
ghost use Rattle.ca_bridge_report.specs.BridgeReport.{bridges_report};

use ca_atpg::stil_over;
use ca_base::NoMemory;
use ca_bridge_report::{good_bridges_are_reported, write_bridges_report};
use ca_bridges::{Judged, judge};
use ca_cluster::{BridgeList, bridges};
use ca_generate::Watch;
use ca_lex::Text;
use ca_linked::{Chip, InstanceId};
use ca_pair::Pairs;
use ca_rows::ChipRows;
use ca_scan::Chains;
use ca_view::View;
use std::alloc::Global;

/// The bridges of an instance, the pairs that were found for them with their aims and the verdicts, and the
/// texts of the patterns and of the report.
#[derive(Drop)]
pub struct BridgeTests {
    pub bridges: BridgeList,
    pub judged: Judged,
    pub stil: Text,
    pub report: Text,
}

// The text of these pairs over a chip's view.
fn stil_on(alloc: Global, chains: &Chains, view: &View<'_>, pairs: &Pairs) -> Result<Text, NoMemory>
    requires chains { AreAllChains view.now.chip chains.now }
    requires whole { All (λ pair. length pair ≡ bit_count (core_of view.now.chip)) pairs.now }
    ensures { IfOk result (IsStil view.now.chip chains.now pairs.now) }
{
    let rows = ChipRows::new(alloc, view.chip())?;
    let stil = stil_over(alloc, chains, view, &rows, pairs);
    drop(rows);
    stil
}

// The text of these pairs of a chip.
fn stil_of(alloc: Global, chip: &Chip, chains: &Chains, pairs: &Pairs) -> Result<Text, NoMemory>
    requires chains { AreAllChains chip.now chains.now }
    requires whole { All (λ pair. length pair ≡ bit_count (core_of chip.now)) pairs.now }
    ensures { IfOk result (IsStil chip.now chains.now pairs.now) }
{
    let view = View::new(alloc, chip)?;
    let stil = stil_on(alloc, chains, &view, pairs);
    drop(view);
    stil
}

// The texts of the patterns and of the report.
#[derive(Drop)]
struct Texts {
    stil: Text,
    report: Text,
}

// The texts of bridges that were judged.
fn texts_of(
    alloc: Global,
    chip: &Chip,
    chains: &Chains,
    list: &BridgeList,
    budget: u32,
    judged: &Judged,
) -> Result<Texts, NoMemory>
    requires chains { AreAllChains chip.now chains.now }
    requires known { AreKnown chip.now list.now }
    requires good { AreGoodVerdicts chip.now budget list.now
        judged.now.pairs judged.now.aims judged.now.verdicts }
    requires whole { All (λ pair. length pair ≡ bit_count (core_of chip.now)) judged.now.pairs }

    ensures stil { IfOk result (λ texts. IsStil chip.now chains.now judged.now.pairs texts.stil) }
    ensures report { IfOk result (λ texts.
        texts.report ≡ bridges_report chip.now list.now judged.now.verdicts) }
{
    good_bridges_are_reported();
    let stil = stil_of(alloc, chip, chains, &judged.pairs)?;
    let report = write_bridges_report(alloc, chip, list, &judged.verdicts)?;
    Ok(Texts { stil, report })
}

// What was found, with its texts.
fn with_texts(bridges: BridgeList, judged: Judged, texts: Texts) -> BridgeTests
    ensures bridges { result.bridges ≡ bridges }
    ensures judged { result.judged ≡ judged }
    ensures stil { result.stil ≡ texts.stil }
    ensures report { result.report ≡ texts.report }
{
    let Texts { stil, report } = texts;
    BridgeTests {
        bridges,
        judged,
        stil,
        report,
    }
}

/// Searches for pairs that show the bridges of a library instance, with at most `budget` branches for each,
/// and writes the texts. The watch is notified after the turn of each bridge for which there is a search.
/// Also answers out of memory as `judge` of `ca_bridges` does.
pub fn bridge_tests<T: Watch>(
    alloc: Global,
    chip: &Chip,
    chains: &Chains,
    u: InstanceId,
    budget: u32,
    watch: &mut T,
) -> Result<BridgeTests, NoMemory>
    requires library { IsLibrary chip.now u.0 }
    requires chains { AreAllChains chip.now chains.now }

    ensures bridges { IfOk result (λ made. AreBridgesOf chip.now u.0 made.bridges) }
    ensures good { IfOk result (λ made. AreGoodVerdicts chip.now budget made.bridges
        made.judged.pairs made.judged.aims made.judged.verdicts) }
    ensures stil { IfOk result (λ made. IsStil chip.now chains.now made.judged.pairs made.stil) }
    ensures report { IfOk result (λ made.
        made.report ≡ bridges_report chip.now made.bridges made.judged.verdicts) }
{
    let list = bridges(alloc, chip, u)?;
    let judged = judge(alloc, chip, &list, budget, watch)?;
    let texts = texts_of(alloc, chip, chains, &list, budget, &judged)?;
    Ok(with_texts(list, judged, texts))
}
