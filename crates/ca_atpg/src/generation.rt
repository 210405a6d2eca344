//! Test generation on a linked chip.

ghost use Rattle.ca_judge.specs.Attempt.{IsTriedOn};
ghost use Rattle.ca_sweep.specs.Seen.{IsForChip};
ghost use Rattle.std.specs.Prelude.{◌≡◌, length, IfOk, IfErr};
ghost use Rattle.std.specs.List.{All};
ghost use Rattle.ca_flat.specs.Pair.{bit_count};
ghost use Rattle.ca_scan.specs.ChainFault.{AreAllChains};
ghost use Rattle.ca_credit.specs.Good.{IsGood};
ghost use Rattle.ca_generate.specs.GenerateFault.{IsCause};
ghost use Rattle.ca_view.specs.Core.{core_of};
ghost use Rattle.ca_engine.specs.ChipTask.{task_of};
ghost use Rattle.ca_expected.specs.Expected.{AreExpected};
ghost use Rattle.ca_atpg.specs.Atpg.{IsStil, report_of};

use crate::texts::{report_of, stil_of};
use ca_base::NoMemory;
use ca_credit::Verdicts;
use ca_engine::{ChipBench, NoAttempts, generate_over, reserve_finder};
use ca_expected::{Expected, expected};
use ca_flat::ExposableDefects;
use ca_generate::{Aims, GenerateFault, Generated, Watch};
use ca_judge::Attempts;
use ca_lex::Text;
use ca_linked::Chip;
use ca_pair::Pairs;
use ca_rows::ChipRows;
use ca_scan::Chains;
use ca_sweep::FlipFinder;
use ca_view::View;
use std::alloc::Global;

/// The listed pairs, for each the place of the defect for which it was found, a verdict for each defect, and
/// the texts of the patterns and of the report.
#[derive(Drop)]
pub struct Tested {
    pub pairs: Pairs,
    pub aims: Aims,
    pub verdicts: Verdicts,
    pub stil: Text,
    pub report: Text,
}

// What the good chip ends with under each pair, by rows, a choice and a finder of any type: so the bench that
// is dropped here has few parts to the prover.
fn values_by<R: ExposableDefects, P: Attempts + Drop, F: FlipFinder + Drop>(
    alloc: Global,
    view: &View<'_>,
    rows: &R,
    choice: P,
    finder: F,
    pairs: &Pairs,
) -> Result<Expected, NoMemory>
    requires rows { R.chip rows.now ≡ view.now.core }
    requires choice { IsTriedOn view.now.core view.now.ranks (P.tried choice) }
    requires finder { IsForChip view.now.core view.now.ranks (F.loaded finder) }
    requires whole { All (λ pair. length pair ≡ bit_count (core_of view.now.chip)) pairs.now }

    ensures { IfOk result (AreExpected (core_of view.now.chip) pairs.now) }
{
    view.viewed();
    let mut bench = ChipBench::reserve(alloc, view, rows, choice, finder, 0)?;
    let values = expected(alloc, &mut bench, pairs.as_slice());
    drop(bench);
    values
}

// The same with a finder.
fn values_for(
    alloc: Global,
    view: &View<'_>,
    rows: &ChipRows<'_>,
    pairs: &Pairs,
) -> Result<Expected, NoMemory>
    requires rows { rows.now.chip ≡ view.now.chip }
    requires whole { All (λ pair. length pair ≡ bit_count (core_of view.now.chip)) pairs.now }

    ensures { IfOk result (AreExpected (core_of view.now.chip) pairs.now) }
{
    view.viewed();
    let finder = reserve_finder(alloc, view)?;
    values_by(alloc, view, rows, NoAttempts::new(view), finder, pairs)
}

/// The text of these pairs, with what the good chip ends with under each, over its view and rows.
pub fn stil_over(
    alloc: Global,
    chains: &Chains,
    view: &View<'_>,
    rows: &ChipRows<'_>,
    pairs: &Pairs,
) -> Result<Text, NoMemory>
    requires chains { AreAllChains view.now.chip chains.now }
    requires rows { rows.now.chip ≡ view.now.chip }
    requires whole { All (λ pair. length pair ≡ bit_count (core_of view.now.chip)) pairs.now }

    ensures { IfOk result (IsStil view.now.chip chains.now pairs.now) }
{
    let values = values_for(alloc, view, rows, pairs)?;
    stil_of(alloc, view.chip(), chains, pairs, &values)
}

/// Searches for pairs that show the defects of a linked chip, with at most `budget` branches for each, and
/// writes the texts. The watch is notified after each defect's turn. Also answers out of memory for a chip
/// with 2^14 chip inputs, with 2^32 defects or whose flat network may have 2^32 nodes or devices.
pub fn atpg<T: Watch>(
    alloc: Global,
    chip: &Chip,
    chains: &Chains,
    budget: u32,
    watch: &mut T,
) -> Result<Tested, GenerateFault>
    requires chains { AreAllChains chip.now chains.now }

    ensures good { IfOk result
        (λ made. IsGood (task_of chip.now budget) made.pairs made.aims made.verdicts) }
    ensures stil { IfOk result (λ made. IsStil chip.now chains.now made.pairs made.stil) }
    ensures report { IfOk result (λ made. made.report ≡ report_of chip.now made.verdicts) }
    ensures cause { IfErr result (IsCause (task_of chip.now budget)) }
{
    let view = View::new(alloc, chip)?;
    let rows = ChipRows::new(alloc, chip)?;
    let made = generate_over(alloc, &view, &rows, budget, watch);
    let tested = tested_by(alloc, chains, &view, &rows, budget, made);
    drop(rows);
    drop(view);
    tested
}

// What was generated, with its texts, or why nothing was.
fn tested_by(
    alloc: Global,
    chains: &Chains,
    view: &View<'_>,
    rows: &ChipRows<'_>,
    budget: u32,
    made: Result<Generated, GenerateFault>,
) -> Result<Tested, GenerateFault>
    requires chains { AreAllChains view.now.chip chains.now }
    requires rows { rows.now.chip ≡ view.now.chip }
    requires good { IfOk made (λ made. IsGood (task_of view.now.chip budget)
        made.pairs made.aims made.verdicts) }
    requires cause { IfErr made (IsCause (task_of view.now.chip budget)) }

    ensures good { IfOk result
        (λ made. IsGood (task_of view.now.chip budget) made.pairs made.aims made.verdicts) }
    ensures stil { IfOk result (λ made. IsStil view.now.chip chains.now made.pairs made.stil) }
    ensures report { IfOk result (λ made. made.report ≡ report_of view.now.chip made.verdicts) }
    ensures cause { IfErr result (IsCause (task_of view.now.chip budget)) }
{
    let made = made?;
    let texts = texts_of(alloc, chains, view, rows, budget, &made)?;
    Ok(with_texts(made, texts))
}

// The texts of the patterns and of the report.
#[derive(Drop)]
struct Texts {
    stil: Text,
    report: Text,
}

// The texts of what was generated.
#[tactic(auto, using(crate::proofs::AtpgLemmas::task_pairs_fit, crate::proofs::AtpgLemmas::verdicts_within, crate::proofs::AtpgLemmas::one_verdict_each))]
fn texts_of(
    alloc: Global,
    chains: &Chains,
    view: &View<'_>,
    rows: &ChipRows<'_>,
    budget: u32,
    made: &Generated,
) -> Result<Texts, NoMemory>
    requires chains { AreAllChains view.now.chip chains.now }
    requires rows { rows.now.chip ≡ view.now.chip }
    requires good { IsGood (task_of view.now.chip budget) made.now.pairs made.now.aims made.now.verdicts }

    ensures stil { IfOk result (λ texts. IsStil view.now.chip chains.now made.now.pairs texts.stil) }
    ensures report { IfOk result (λ texts. texts.report ≡ report_of view.now.chip made.now.verdicts) }
{
    let stil = stil_over(alloc, chains, view, rows, &made.pairs)?;
    let report = report_of(alloc, view, &made.verdicts)?;
    Ok(Texts { stil, report })
}

// What was generated, with its texts.
fn with_texts(made: Generated, texts: Texts) -> Tested
    ensures pairs { result.pairs ≡ made.pairs }
    ensures aims { result.aims ≡ made.aims }
    ensures verdicts { result.verdicts ≡ made.verdicts }
    ensures stil { result.stil ≡ texts.stil }
    ensures report { result.report ≡ texts.report }
{
    let Generated {
        pairs,
        aims,
        verdicts,
    } = made;
    let Texts { stil, report } = texts;
    Tested {
        pairs,
        aims,
        verdicts,
        stil,
        report,
    }
}
