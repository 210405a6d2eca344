//! Verdicts as a report.

ghost use Rattle.std.specs.Prelude.{◌≡◌, ◌++◌, ◌∷◌, ◌<◌, ℕ, List, [], length, map, decimal, slice_get};
ghost use Rattle.std.specs.Prelude.{IsSomeAnd, Some, IfOk, OnOk};
ghost use Rattle.std.specs.List.{All};
ghost use Rattle.csv.specs.Records.{fields_of};
ghost use Rattle.csv.specs.Writing.{default_writer, row_text};
ghost use Rattle.ca_csv.specs.Streams.{HasWritten};
ghost use Rattle.ca_report.specs.Report.{header_of, word_of, pair_field, output_field, record_of, text_of};
ghost use Rattle.ca_report.specs.Report.{IsVerdictOf, IsRowOf, report_text, bridges_text};

use crate::rows::ReportRows;
use crate::verdict::Verdict;
use ca_base::NoMemory;
use ca_csv::{append, finish, writer_of};
use ca_lex::{Names, Text};
use csv::ByteRecord;
use itoa::Buffer;
use std::alloc::Global;

fn word_of(verdict: Verdict) -> &'static [u8]
    ensures { result.now ≡ word_of verdict }
{
    match verdict {
        Verdict::Credited { .. } => b"credited",
        Verdict::Unexposable => b"unexposable",
        Verdict::Untestable => b"untestable",
        Verdict::Aborted => b"aborted",
        Verdict::Uncredited => b"uncredited",
        Verdict::Port => b"port",
        Verdict::Wide => b"wide",
    }
}

// Makes a record the header of a report of what a word says.
fn fill_header(fields: &mut ByteRecord, what: &[u8]) -> Result<(), NoMemory>
    ensures { OnOk result (fields_of fields.new ≡ header_of what.now) }
{
    fields.clear();
    fields.push_field(b"instance")?;
    fields.push_field(b"cell")?;
    fields.push_field(what)?;
    fields.push_field(b"verdict")?;
    fields.push_field(b"pair")?;
    fields.push_field(b"output")?;
    Ok(())
}

// The name of the output that is credited.
fn output_of(outputs: &Names, verdict: Verdict) -> &[u8]
    requires { IsVerdictOf (length outputs.now) verdict }
    ensures { result.now ≡ output_field outputs.now verdict }
{
    match verdict {
        Verdict::Credited { output, .. } => outputs.get(output as usize).as_bytes(),
        Verdict::Unexposable
        | Verdict::Untestable
        | Verdict::Aborted
        | Verdict::Uncredited
        | Verdict::Port
        | Verdict::Wide => &[],
    }
}

// The number of the pair that is credited, in decimal.
fn pair_of(buffer: &mut Buffer, verdict: Verdict) -> &[u8]
    ensures { result.now ≡ pair_field verdict }
{
    match verdict {
        Verdict::Credited { pair, .. } => buffer.format(pair).as_bytes(),
        Verdict::Unexposable
        | Verdict::Untestable
        | Verdict::Aborted
        | Verdict::Uncredited
        | Verdict::Port
        | Verdict::Wide => &[],
    }
}

// Makes a record that of a defect.
fn fill_record<R: ReportRows>(
    fields: &mut ByteRecord,
    outputs: &Names,
    rows: &R,
    k: usize,
    defect: &[u8],
) -> Result<(), NoMemory>
    requires within { IsSomeAnd (slice_get (R.rows rows.now) k) (IsRowOf (length outputs.now)) }
    requires defect { IsSomeAnd (slice_get (R.rows rows.now) k) (λ row. row.defect ≡ defect.now) }
    ensures { OnOk result (IsSomeAnd (slice_get (R.rows rows.now) k) (λ row.
        fields_of fields.new ≡ record_of outputs.now row)) }
{
    let mut buffer = Buffer::new();
    let verdict = rows.verdict(k);
    fields.clear();
    fields.push_field(rows.instance(k))?;
    fields.push_field(rows.cell(k))?;
    fields.push_field(defect)?;
    fields.push_field(word_of(verdict))?;
    fields.push_field(pair_of(&mut buffer, verdict))?;
    fields.push_field(output_of(outputs, verdict))?;
    Ok(())
}

// The report of what a word says.
fn write_with<R: ReportRows>(
    alloc: Global,
    what: &[u8],
    outputs: &Names,
    rows: &R,
) -> Result<Text, NoMemory>
    requires { All (IsRowOf (length outputs.now)) (R.rows rows.now) }
    ensures ok { IfOk result (λ text. text ≡ text_of what.now outputs.now (R.rows rows.now)) }
{
    let mut writer = writer_of(alloc);
    let mut fields = ByteRecord::new(alloc);
    fill_header(&mut fields, what)?;
    append(&mut writer, &fields)?;
    for k in 0..rows.len() {
        let defect = rows.defect(alloc, k)?;
        fill_record(&mut fields, outputs, rows, k, defect.as_bytes())?;
        append(&mut writer, &fields)?;
    }
    Ok(Text::from_vec(finish(writer)?))
}

/// The report of a chip's defects; `outputs` are the names of the observed outputs.
pub fn write_report<R: ReportRows>(
    alloc: Global,
    outputs: &Names,
    rows: &R,
) -> Result<Text, NoMemory>
    requires { All (IsRowOf (length outputs.now)) (R.rows rows.now) }
    ensures ok { IfOk result (λ text. text ≡ report_text outputs.now (R.rows rows.now)) }
{
    write_with(alloc, b"defect", outputs, rows)
}

/// The report of pin bridges, each a row with the bridge's name in place of a defect's.
pub fn write_bridges<R: ReportRows>(
    alloc: Global,
    outputs: &Names,
    rows: &R,
) -> Result<Text, NoMemory>
    requires { All (IsRowOf (length outputs.now)) (R.rows rows.now) }
    ensures ok { IfOk result (λ text. text ≡ bridges_text outputs.now (R.rows rows.now)) }
{
    write_with(alloc, b"bridge", outputs, rows)
}
