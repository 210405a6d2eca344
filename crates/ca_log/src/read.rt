//! The log that a text is.

ghost use Rattle.std.specs.Prelude.{◌≡◌, ◌<◌, ◌^◌, [], ℕ, List, length, IfOk};
ghost use Rattle.std.specs.List.{All};
ghost use Rattle.csv.specs.Records.{fields_of};
ghost use Rattle.ca_csv.specs.Streams.{HasLeft};
ghost use Rattle.ca_log.specs.LogText.{may_join, with_fields, log_with, log_of, Reads, IsLog};
ghost use Rattle.ca_log.specs.code.Into.{Joins, ReadsInto};

use crate::fault::LogFault;
use crate::fields::{is_expected, is_header, place_in};
use crate::lookup::Lookup;
use crate::record::{Log, LogRecord};
use crate::record_set::RecordSet;
use ca_base::{List, NoMemory};
use ca_csv::{next, reader_of};
use ca_lex::Names;
use ca_net::Trit;
use csv::{ByteRecord, Reader};
use std::alloc::Global;

// Whether the place may join those that are logged.
fn may_join(log: &RecordSet, expected: &[List<Trit>], here: LogRecord) -> bool
    requires listed { here.pair < length expected.now }
    requires observed { All (λ values. here.output < length values) expected.now }
    ensures { result ≡ may_join expected.now log.now here }
{
    is_expected(expected, here) && !log.has(here)
}

// Adds the place that a record names, and answers whether it names one that may join the others.
#[tactic(auto, using(crate::proofs::FieldLemmas::listed_in, crate::proofs::FieldLemmas::observed_in, crate::proofs::LogLemmas::no_place_joins, crate::proofs::LogLemmas::may_not, crate::proofs::LogLemmas::may, crate::proofs::LogLemmas::is_new))]
fn add(
    log: &mut RecordSet,
    lookup: &Lookup<'_>,
    expected: &[List<Trit>],
    fields: &ByteRecord,
) -> Result<bool, NoMemory>
    requires few { length expected.now < 2 ^ 32 }
    requires values { All (λ values. length values ≡ length lookup.now) expected.now }
    ensures { IfOk result (λ joins. Joins joins
        (with_fields lookup.now expected.now log.old (fields_of fields.now)) log.new) }
{
    let Some(here) = place_in(lookup, expected.len(), fields) else {
        return Ok(false);
    };
    if !may_join(log, expected, here) {
        return Ok(false);
    }
    log.add(here)?;
    Ok(true)
}

// Reads the records after those that were read, and adds their places to a log of none.
fn read_records(
    reader: &mut Reader<&[u8]>,
    fields: &mut ByteRecord,
    lookup: &Lookup<'_>,
    expected: &[List<Trit>],
    log: &mut RecordSet,
) -> Result<(), LogFault>
    requires few { length expected.now < 2 ^ 32 }
    requires values { All (λ values. length values ≡ length lookup.now) expected.now }
    requires none { log.old ≡ [] }
    ensures { (records : List (List (List ℕ))) → HasLeft reader.old records
        → ReadsInto result log.new (log_with lookup.now expected.now records) }
{
    if !next(reader, fields)? {
        return Err(LogFault::BadLogRow { row: 1 });
    }
    if !is_header(fields) {
        return Err(LogFault::BadLogRow { row: 1 });
    }
    for row in 2..usize::MAX {
        if !next(reader, fields)? {
            return Ok(());
        }
        if !add(log, lookup, expected, fields)? {
            return Err(LogFault::BadLogRow { row });
        }
    }
    // No text has that many records.
    Err(LogFault::NoMemory)
}

// The log of the records after those that were read.
fn log_after(
    alloc: Global,
    reader: &mut Reader<&[u8]>,
    lookup: &Lookup<'_>,
    expected: &[List<Trit>],
) -> Result<Log, LogFault>
    requires few { length expected.now < 2 ^ 32 }
    requires values { All (λ values. length values ≡ length lookup.now) expected.now }
    ensures reads { (records : List (List (List ℕ))) → HasLeft reader.old records
        → Reads result (log_with lookup.now expected.now records) }
    ensures few { IfOk result (λ log. length log < 2 ^ 32) }
{
    let mut log = RecordSet::new(alloc);
    let mut fields = ByteRecord::new(alloc);
    let read = read_records(reader, &mut fields, lookup, expected, &mut log);
    drop(fields);
    let list = log.list(alloc);
    drop(log);
    read?;
    Ok(list?)
}

/// The log that a text is, or its first bad record. `names` are those of the observed outputs, and `expected`
/// has for each pair the values that the good chip ends with there, X where it ends with none. Also answers
/// out of memory for 2^32 outputs or records.
pub fn read_log(
    alloc: Global,
    names: &Names,
    expected: &[List<Trit>],
    bytes: &[u8],
) -> Result<Log, LogFault>
    requires few { length expected.now < 2 ^ 32 }
    requires values { All (λ values. length values ≡ length names.now) expected.now }
    ensures exact { Reads result (log_of names.now expected.now bytes.now) }
    ensures log { IfOk result (IsLog names.now expected.now) }
{
    if names.len() > u32::MAX as usize {
        return Err(LogFault::NoMemory);
    }
    let lookup = Lookup::of(alloc, names)?;
    let mut reader = reader_of(alloc, bytes);
    let log = log_after(alloc, &mut reader, &lookup, expected);
    drop(reader);
    drop(lookup);
    log
}
