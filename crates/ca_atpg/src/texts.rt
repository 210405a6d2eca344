//! The texts that report test generation.

ghost use Rattle.std.specs.Prelude.{◌≡◌, length, IfOk};
ghost use Rattle.std.specs.List.{All};
ghost use Rattle.ca_linked.specs.Linked.{outputs_of};
ghost use Rattle.ca_view.specs.Core.{core_of};
ghost use Rattle.ca_scan.specs.ChainFault.{AreAllChains};
ghost use Rattle.ca_flat.specs.Pair.{bit_count};
ghost use Rattle.ca_expected.specs.Expected.{AreExpected};
ghost use Rattle.ca_chip_report.specs.ChipReport.{IsVerdictWithin};
ghost use Rattle.ca_engine.specs.ChipTask.{task_of};
ghost use Rattle.ca_atpg.specs.Atpg.{IsStil, report_of, summary_text};

use ca_base::NoMemory;
use ca_chip_report::{summary_line, summary_of, write_chip_report};
use ca_chip_stil::write_chip_stil;
use ca_credit::Verdicts;
use ca_engine::chip_defects;
use ca_expected::Expected;
use ca_lex::Text;
use ca_linked::Chip;
use ca_pair::Pairs;
use ca_scan::Chains;
use ca_view::View;
use std::alloc::Global;

/// The text of the patterns.
pub(crate) fn stil_of(
    alloc: Global,
    chip: &Chip,
    chains: &Chains,
    pairs: &Pairs,
    expected: &Expected,
) -> Result<Text, NoMemory>
    requires chains { AreAllChains chip.now chains.now }
    requires whole { All (λ pair. length pair ≡ bit_count (core_of chip.now)) pairs.now }
    requires expected { AreExpected (core_of chip.now) pairs.now expected.now }
    ensures { IfOk result (IsStil chip.now chains.now pairs.now) }
{
    write_chip_stil(alloc, chip, chains, pairs.as_slice(), expected.as_slice())
}

/// The text of the report.
#[tactic(auto, using(crate::proofs::AtpgLemmas::are_reported, crate::proofs::AtpgLemmas::is_report))]
pub(crate) fn report_of(
    alloc: Global,
    view: &View<'_>,
    verdicts: &Verdicts,
) -> Result<Text, NoMemory>
    requires one_each { length verdicts.now ≡ length (task_of view.now.chip 0).defects }
    requires outputs { All (IsVerdictWithin (length (outputs_of view.now.chip))) verdicts.now }
    ensures { IfOk result (λ text. text ≡ report_of view.now.chip verdicts.now) }
{
    view.viewed();
    let defects = chip_defects(alloc, view)?;
    write_chip_report(alloc, view.chip(), defects.as_slice(), verdicts)
}

/// The line that says how many defects have which verdict, and how many pairs there are.
pub fn summary_text(alloc: Global, verdicts: &Verdicts, pairs: usize) -> Result<Text, NoMemory>
    ensures { IfOk result (λ text. text ≡ summary_text verdicts.now pairs) }
{
    summary_line(alloc, &summary_of(verdicts, pairs))
}
