//! What `grade` asks for.
ghost use Rattle.std.specs.Prelude.{◌≡◌, Some, IfErr, IfOk, OnOk};
ghost use Rattle.ca_store.specs.Store.{Nothing};
ghost use Rattle.ca_scan.specs.ChainFault.{AreAllChains};
ghost use Rattle.ca_view.specs.Core.{core_of};
ghost use Rattle.ca_chip_stil.specs.ChipStil.{AreOfChip};
ghost use Rattle.ca_expected.specs.Expected.{AreExpected};
ghost use Rattle.ca_engine.specs.ChipTask.{task_of};
ghost use Rattle.ca_grade.specs.Graded.{AreGraded};
ghost use Rattle.ca_chip_grade.specs.Texts.{grades_text};
ghost use Rattle.ca_load.specs.Files.{OnlyReads};
ghost use Rattle.ca_load.specs.Chips.{IsChipOf};
ghost use Rattle.ca_load.specs.Texts.{names_of, OfInputs};
ghost use Rattle.ca_patterns.specs.Patterns.{AreFew, IsLoadedCause};
ghost use Rattle.ca_patterns.specs.code.Stages.{IsValueStage};
ghost use Rattle.ca_grading.specs.Grading.{AreGradesByFile};

use ca_chip_grade::{grade_chip, grade_report};
use ca_fault::Fault;
use ca_generate::Watch;
use ca_grade::Grades;
use ca_lex::Text;
use ca_linked::Chip;
use ca_pair::Pairs;
use ca_patterns::{PatternedChip, load_patterns, value_fault};
use ca_scan::Chains;
use ca_stil_pairs::StilFile;
use ca_store::Store;
use ca_words::GradeWords;
use std::alloc::Global;

/// A chip with its scan chains, the pairs that a file of patterns lists, the grades of the chip's defects by
/// them, and the report.
#[derive(Drop)]
pub struct GradedChip {
    pub chip: Chip,
    pub chains: Chains,
    pub pairs: Pairs,
    pub grades: Grades,
    pub report: Text,
}

/// The grades of the defects of the chip that the words name in their files, by the pairs in the file of
/// patterns. That file is read last, and no pair is credited before all of its expected values were found to
/// be right. The watch is notified after each block of pairs.
#[tactic(auto, using(ca_patterns::proofs::PatternLemmas::at_wrong, crate::proofs::GradeLemmas::are_grades))]
pub fn find_grades<S: Store, T: Watch>(
    alloc: Global,
    request: &GradeWords<'_>,
    store: &mut S,
    watch: &mut T,
) -> Result<GradedChip, Fault>
    requires closed { S.opened store.old ≡ Nothing }

    ensures chip { IfOk result (λ found. OfInputs (S.files store.old) (names_of request.now.files)
        (λ inputs. IsChipOf inputs found.chip)) }
    ensures chains { IfOk result (λ found. AreAllChains found.chip found.chains) }
    ensures grades { IfOk result (λ found. AreGradesByFile (S.files store.old) request.now.stil.now
        found.chip found.chains found.pairs found.grades) }
    ensures report { IfOk result (λ found. found.report ≡ grades_text found.chip found.grades) }
    ensures cause { IfErr result (IsLoadedCause (names_of request.now.files) request.now.stil.now
        (S.files store.old) (S.faults store.old) (S.faults store.new)) }
    ensures store { OnlyReads result (S.files store.old) (S.faults store.old)
        (S.files store.new) (S.faults store.new) (S.opened store.new) }
{
    let PatternedChip { chip, chains, file } = load_patterns(
        alloc,
        &request.files,
        request.stil,
        store,
    )?;
    let made = grades_by(alloc, &chip, &chains, &file, watch)?;
    let StilFile { pairs, .. } = file;
    let MadeGrades { grades, report } = made;
    Ok(GradedChip {
        chip,
        chains,
        pairs,
        grades,
        report,
    })
}

// Grades and their report.
#[derive(Drop)]
struct MadeGrades {
    grades: Grades,
    report: Text,
}

// The grades of a chip's defects by its patterns, with the report.
#[tactic(auto, using(crate::proofs::GradeLemmas::few_numbers, ca_patterns::proofs::PatternLemmas::is_small, ca_patterns::proofs::PatternLemmas::at_value))]
fn grades_by<T: Watch>(
    alloc: Global,
    chip: &Chip,
    chains: &Chains,
    file: &StilFile,
    watch: &mut T,
) -> Result<MadeGrades, Fault>
    requires of { AreOfChip chip.now chains.now file.now.pairs file.now.expected }
    requires few { AreFew file.now }

    ensures graded { IfOk result (λ made. AreGraded (task_of chip.now 0) file.now.pairs made.grades) }
    ensures expected { IfOk result (λ made.
        AreExpected (core_of chip.now) file.now.pairs file.now.expected) }
    ensures report { IfOk result (λ made. made.report ≡ grades_text chip.now made.grades) }
    ensures cause { IfErr result (IsValueStage chip.now file.now) }
{
    let StilFile { pairs, expected } = file;
    match grade_chip(
        alloc,
        chip,
        chains,
        pairs.as_slice(),
        expected.as_slice(),
        watch,
    ) {
        Ok(grades) => with_report(alloc, chip, pairs, grades),
        Err(fault) => Err(value_fault(fault)),
    }
}

// Grades with their report.
fn with_report(
    alloc: Global,
    chip: &Chip,
    pairs: &Pairs,
    grades: Grades,
) -> Result<MadeGrades, Fault>
    requires { AreGraded (task_of chip.now 0) pairs.now grades }

    ensures grades { IfOk result (λ made. made.grades ≡ grades) }
    ensures report { IfOk result (λ made. made.report ≡ grades_text chip.now grades) }
    ensures cause { IfErr result (λ fault. fault ≡ Fault.NoMemory) }
{
    let report = grade_report(alloc, chip, pairs, &grades)?;
    Ok(MadeGrades { grades, report })
}
