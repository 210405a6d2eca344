//! The texts that report a diagnosis.

ghost use Rattle.std.specs.Prelude.{◌≡◌, ◌<◌, length, IfOk, OnOk};
ghost use Rattle.std.specs.List.{All};
ghost use Rattle.ca_engine.specs.ChipTask.{task_of};
ghost use Rattle.ca_chip_diag.specs.Texts.{candidates_text, diagnosis_line};
ghost use Rattle.ca_chip_report.specs.Summary.{with_count};

use crate::write::write_candidates;
use ca_base::NoMemory;
use ca_diag::Candidate;
use ca_engine::chip_defects;
use ca_lex::Text;
use ca_linked::Chip;
use ca_view::View;
use itoa::Buffer;
use std::alloc::Global;

/// The text of the candidates, and the line that says how many there are.
#[derive(Drop)]
pub struct Texts {
    pub candidates: Text,
    pub line: Text,
}

// The text with a label and a number after it.
fn add_count(text: &mut Text, label: &[u8], count: usize) -> Result<(), NoMemory>
    ensures { OnOk result (text.new ≡ with_count text.old label.now count) }
{
    text.append(label)?;
    text.append(Buffer::new().format(count).as_bytes())
}

// The line of this many candidates, defects and records.
fn line_of(
    alloc: Global,
    candidates: usize,
    defects: usize,
    records: usize,
) -> Result<Text, NoMemory>
    ensures { IfOk result (λ line. line ≡ diagnosis_line candidates defects records) }
{
    let mut line = Text::new(alloc);
    add_count(&mut line, b"candidates ", candidates)?;
    add_count(&mut line, b", defects ", defects)?;
    add_count(&mut line, b", records ", records)?;
    line.append(b"\n")?;
    Ok(line)
}

// The texts over the chip's view.
#[tactic(auto, using(crate::proofs::TextLemmas::gates, crate::proofs::TextLemmas::of_task))]
fn texts_over(
    alloc: Global,
    view: &View<'_>,
    candidates: &[Candidate],
    records: usize,
) -> Result<Texts, NoMemory>
    requires { All (λ one. one.defect < length (task_of view.now.chip 0).defects) candidates.now }
    ensures candidates { IfOk result (λ texts. texts.candidates
        ≡ candidates_text view.now.chip (task_of view.now.chip 0).defects candidates.now) }
    ensures line { IfOk result (λ texts. texts.line
        ≡ diagnosis_line (length candidates.now) (length (task_of view.now.chip 0).defects) records) }
{
    view.viewed();
    let defects = chip_defects(alloc, view)?;
    let line = line_of(alloc, candidates.len(), defects.len(), records)?;
    let text = write_candidates(alloc, view.chip(), defects.as_slice(), candidates)?;
    Ok(Texts {
        candidates: text,
        line,
    })
}

/// The texts of the candidates of a linked chip, which a log of this many records leaves.
pub fn texts_of(
    alloc: Global,
    chip: &Chip,
    candidates: &[Candidate],
    records: usize,
) -> Result<Texts, NoMemory>
    requires { All (λ one. one.defect < length (task_of chip.now 0).defects) candidates.now }
    ensures candidates { IfOk result (λ texts. texts.candidates
        ≡ candidates_text chip.now (task_of chip.now 0).defects candidates.now) }
    ensures line { IfOk result (λ texts. texts.line
        ≡ diagnosis_line (length candidates.now) (length (task_of chip.now 0).defects) records) }
{
    let view = View::new(alloc, chip)?;
    let texts = texts_over(alloc, &view, candidates, records);
    drop(view);
    texts
}
