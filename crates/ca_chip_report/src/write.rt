//! The report of a linked chip.

ghost use Rattle.std.specs.Prelude.{◌≡◌, IfOk};
ghost use Rattle.ca_outputs.specs.Outputs.{output_names};
ghost use Rattle.ca_report.specs.Report.{report_text};
ghost use Rattle.ca_chip_report.specs.ChipReport.{report_rows, AreReported};

use crate::rows::{ChipRows, Found};
use ca_base::NoMemory;
use ca_credit::Verdicts;
use ca_flat::ChipDefect;
use ca_lex::Text;
use ca_linked::Chip;
use ca_outputs::output_names;
use ca_report::write_report;
use std::alloc::Global;

/// The report of a chip: for each of these defects its instance, its cell, its name and its verdict.
pub fn write_chip_report(
    alloc: Global,
    chip: &Chip,
    defects: &[ChipDefect],
    verdicts: &Verdicts,
) -> Result<Text, NoMemory>
    requires { AreReported chip.now defects.now verdicts.now }
    ensures exact { IfOk result (λ text. text ≡ report_text (output_names chip.now)
        (report_rows chip.now defects.now verdicts.now)) }
{
    let outputs = output_names(alloc, chip)?;
    let rows = ChipRows {
        chip,
        defects,
        found: Found::Verdicts(verdicts),
    };
    write_report(alloc, &outputs, &rows)
}
