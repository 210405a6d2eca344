//! What the check of a certificate answers, and the line that tells it.
ghost use Rattle.std.specs.Prelude.{◌≡◌, length, IfOk};
ghost use Rattle.std.specs.List.{All};
ghost use Rattle.ca_linked.specs.Linked.{inputs_of};
ghost use Rattle.ca_view.specs.Core.{core_of};
ghost use Rattle.ca_claim.specs.Stands.{IsAnswer};
ghost use Rattle.ca_claim.specs.Laws.{IsYesTrue};
ghost use Rattle.ca_chip_cert.specs.Listed.{listed_defects};
ghost use Rattle.ca_chip_stil.specs.ChipStil.{AreOfChip};
ghost use Rattle.ca_verifying.specs.Verifying.{HasOneEach, answer_line};

use ca_base::NoMemory;
use ca_chip_cert::check_chip;
use ca_claim::{Answer, Certificate};
use ca_lex::Text;
use ca_linked::Chip;
use ca_scan::Chains;
use ca_stil_pairs::StilFile;
use itoa::Buffer;
use std::alloc::Global;

/// An answer, and its line.
#[derive(Drop)]
pub(crate) struct ReportedAnswer {
    pub(crate) answer: Answer,
    pub(crate) line: Text,
}

// The line that tells the answer.
fn answer_line(alloc: Global, answer: Answer) -> Result<Text, NoMemory>
    ensures { IfOk result (λ text. text ≡ answer_line answer) }
{
    let mut text = Text::new(alloc);
    match answer {
        Answer::Yes => text.append(b"yes\n")?,
        Answer::No { defect } => {
            text.append(b"no ")?;
            text.append(Buffer::new().format(defect).as_bytes())?;
            text.push(b'\n')?;
        }
    }
    Ok(text)
}

/// What the check answers on a certificate of a chip, for the pairs of a file of patterns.
#[tactic(auto, using(crate::proofs::VerifyLemmas::core_bits))]
pub(crate) fn answer_on(
    alloc: Global,
    chip: &Chip,
    chains: &Chains,
    file: &StilFile,
    certificate: &Certificate,
) -> Result<ReportedAnswer, NoMemory>
    requires of { AreOfChip chip.now chains.now file.now.pairs file.now.expected }
    requires one_each { HasOneEach chip.now certificate.now }

    ensures answer { IfOk result (λ reported. IsAnswer (core_of chip.now) (listed_defects chip.now)
        file.now.pairs certificate.now.budget certificate.now.claims reported.answer) }
    ensures proves { IfOk result (λ reported. IsYesTrue (core_of chip.now) (listed_defects chip.now)
        file.now.pairs certificate.now.budget certificate.now.claims reported.answer) }
    ensures line { IfOk result (λ reported. reported.line ≡ answer_line reported.answer) }
{
    let answer = check_chip(alloc, chip, &file.pairs, certificate)?;
    let line = answer_line(alloc, answer)?;
    Ok(ReportedAnswer { answer, line })
}
