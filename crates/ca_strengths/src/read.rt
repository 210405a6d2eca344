//! The strength table that a text is.

ghost use Rattle.std.specs.Prelude.{◌≡◌, [], ℕ, List, IfOk};
ghost use Rattle.csv.specs.Records.{fields_of};
ghost use Rattle.ca_csv.specs.Streams.{HasLeft};
ghost use Rattle.ca_strengths.specs.StrengthText.{with_fields, ratios_from, strengths_with, strengths_of};
ghost use Rattle.ca_strengths.specs.StrengthText.{Reads, IsAscending};
ghost use Rattle.ca_strengths.specs.code.Reading.{Joins};

use crate::fault::StrengthFault;
use crate::ratios::{is_header, may_follow, ratio_in, table_with};
use ca_base::{List, NoMemory};
use ca_cell::{Ratio, StrengthTable};
use ca_csv::{next, reader_of};
use csv::{ByteRecord, Reader};
use std::alloc::Global;

// Adds the ratio that a record is, and answers whether it is one that may follow the others.
#[tactic(auto, using(crate::proofs::ReadLemmas::no_ratio_joins, crate::proofs::ReadLemmas::may_not, crate::proofs::ReadLemmas::may))]
fn add(ratios: &mut List<Ratio>, fields: &ByteRecord) -> Result<bool, NoMemory>
    ensures { IfOk result (λ joins. Joins joins (with_fields ratios.old (fields_of fields.now)) ratios.new) }
{
    let Some(ratio) = ratio_in(fields) else {
        return Ok(false);
    };
    if !may_follow(ratios.as_slice(), ratio) {
        return Ok(false);
    }
    ratios.push(ratio)?;
    Ok(true)
}

// Reads the records after those that were read, and adds their ratios to none.
fn read_records(
    reader: &mut Reader<&[u8]>,
    fields: &mut ByteRecord,
    ratios: &mut List<Ratio>,
) -> Result<StrengthTable, StrengthFault>
    requires none { ratios.old ≡ [] }
    ensures { (records : List (List (List ℕ))) → HasLeft reader.old records
        → Reads result (strengths_with records) }
{
    if !next(reader, fields)? {
        return Err(StrengthFault::BadStrengthRow { row: 1 });
    }
    if !is_header(fields) {
        return Err(StrengthFault::BadStrengthRow { row: 1 });
    }
    for row in 2..usize::MAX {
        if !next(reader, fields)? {
            return whole(ratios, row);
        }
        if !add(ratios, fields)? {
            return Err(StrengthFault::BadStrengthRow { row });
        }
    }
    // No text has that many records.
    Err(StrengthFault::NoMemory)
}

// The table of the ratios, where none is missing in the record of this number.
#[tactic(auto, using(crate::proofs::ReadLemmas::all_read, crate::proofs::ReadLemmas::one_missing))]
fn whole(ratios: &List<Ratio>, row: usize) -> Result<StrengthTable, StrengthFault>
    ensures { Reads result (ratios_from row ratios.now []) }
{
    match table_with(ratios.as_slice()) {
        Some(table) => Ok(table),
        None => Err(StrengthFault::BadStrengthRow { row }),
    }
}

/// The strength table that a text is, or its first record that breaks the form.
pub fn read_strengths(alloc: Global, bytes: &[u8]) -> Result<StrengthTable, StrengthFault>
    ensures exact { Reads result (strengths_of bytes.now) }
    ensures ascending { IfOk result IsAscending }
{
    let mut reader = reader_of(alloc, bytes);
    let mut fields = ByteRecord::new(alloc);
    let mut ratios = List::new(alloc);
    let read = read_records(&mut reader, &mut fields, &mut ratios);
    drop(ratios);
    drop(fields);
    drop(reader);
    read
}
