//! Candidates as a text.

ghost use Rattle.std.specs.Prelude.{◌≡◌, ◌<◌, length, slice_get, Some, IfOk, OnOk};
ghost use Rattle.std.specs.List.{All};
ghost use Rattle.csv.specs.Records.{fields_of};
ghost use Rattle.ca_chip_report.specs.ChipReport.{IsGateDefect};
ghost use Rattle.ca_chip_diag.specs.Texts.{header, defect_name, record_of, record_at, candidates_text};

use ca_base::NoMemory;
use ca_chip_report::{cell_of, instance_of, name_of};
use ca_csv::{append, finish, writer_of};
use ca_diag::Candidate;
use ca_flat::ChipDefect;
use ca_lex::Text;
use ca_linked::Chip;
use csv::ByteRecord;
use itoa::Buffer;
use std::alloc::Global;

// Makes a record the header.
fn fill_header(fields: &mut ByteRecord) -> Result<(), NoMemory>
    ensures { OnOk result (fields_of fields.new ≡ header) }
{
    fields.clear();
    fields.push_field(b"instance")?;
    fields.push_field(b"cell")?;
    fields.push_field(b"defect")?;
    fields.push_field(b"explained")?;
    Ok(())
}

// Makes a record that of a defect of this name.
fn fill_record(
    fields: &mut ByteRecord,
    chip: &Chip,
    defect: ChipDefect,
    name: &[u8],
    explained: u32,
) -> Result<(), NoMemory>
    requires gate { IsGateDefect chip.now defect }
    requires name { name.now ≡ defect_name chip.now defect }
    ensures { OnOk result (fields_of fields.new ≡ record_of chip.now defect explained) }
{
    let mut buffer = Buffer::new();
    fields.clear();
    fields.push_field(instance_of(chip, defect))?;
    fields.push_field(cell_of(chip, defect))?;
    fields.push_field(name)?;
    fields.push_field(buffer.format(explained).as_bytes())?;
    Ok(())
}

// The defect at a place.
fn defect_at(defects: &[ChipDefect], k: usize) -> ChipDefect
    requires { k < length defects.now }
    ensures { slice_get defects.now k ≡ Some result }
{
    defects[k]
}

// The candidate at a place.
fn candidate_at(candidates: &[Candidate], k: usize) -> Candidate
    requires { k < length candidates.now }
    ensures { slice_get candidates.now k ≡ Some result }
{
    candidates[k]
}

// Makes a record that of a candidate.
fn fill(
    alloc: Global,
    fields: &mut ByteRecord,
    chip: &Chip,
    defects: &[ChipDefect],
    one: Candidate,
) -> Result<(), NoMemory>
    requires gates { All (IsGateDefect chip.now) defects.now }
    requires within { one.defect < length defects.now }
    ensures { OnOk result (fields_of fields.new ≡ record_at chip.now defects.now one) }
{
    let defect = defect_at(defects, one.defect as usize);
    let name = name_of(alloc, chip, defect)?;
    let filled = fill_record(fields, chip, defect, name.as_bytes(), one.explained);
    drop(name);
    filled
}

/// The text of the candidates of a linked chip, whose defects these are: a header, and for each candidate its
/// instance, its cell, its defect, and how many records it explains.
pub fn write_candidates(
    alloc: Global,
    chip: &Chip,
    defects: &[ChipDefect],
    candidates: &[Candidate],
) -> Result<Text, NoMemory>
    requires gates { All (IsGateDefect chip.now) defects.now }
    requires within { All (λ one. one.defect < length defects.now) candidates.now }
    ensures { IfOk result (λ text. text ≡ candidates_text chip.now defects.now candidates.now) }
{
    let mut writer = writer_of(alloc);
    let mut fields = ByteRecord::new(alloc);
    fill_header(&mut fields)?;
    append(&mut writer, &fields)?;
    for k in 0..candidates.len() {
        fill(
            alloc,
            &mut fields,
            chip,
            defects,
            candidate_at(candidates, k),
        )?;
        append(&mut writer, &fields)?;
    }
    Ok(Text::from_vec(finish(writer)?))
}
