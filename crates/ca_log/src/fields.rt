//! The fields of a record, and the place that they name.

ghost use Rattle.std.specs.Prelude.{◌≡◌, ◌<◌, ◌^◌, length};
ghost use Rattle.std.specs.List.{All};
ghost use Rattle.std.specs.Str.{bytes_eq};
ghost use Rattle.csv.specs.Records.{fields_of};
ghost use Rattle.ca_log.specs.LogText.{is_header, is_definite, is_expected, place_with, place_in};

use crate::lookup::Lookup;
use crate::number::number_below;
use crate::record::LogRecord;
use ca_base::List;
use ca_csv::two_fields;
use ca_net::Trit;
use csv::ByteRecord;

// Whether a field is this word.
fn is(field: &[u8], word: &[u8]) -> bool
    ensures { result ≡ bytes_eq field.now word.now }
{
    field == word
}

/// Whether the fields are those of the header.
#[tactic(auto, using(crate::proofs::FieldLemmas::header_of_two, crate::proofs::FieldLemmas::no_header_of_others))]
pub(crate) fn is_header(fields: &ByteRecord) -> bool
    ensures { result ≡ is_header (fields_of fields.now) }
{
    match two_fields(fields) {
        Some((pair, output)) => is(pair, b"pair") && is(output, b"output"),
        None => false,
    }
}

// The place of a pair's number and an output's name.
fn place_with(lookup: &Lookup<'_>, pairs: usize, pair: &[u8], output: &[u8]) -> Option<LogRecord>
    requires { pairs < 2 ^ 32 }
    ensures { result ≡ place_with pairs lookup.now pair.now output.now }
{
    let pair = number_below(pairs, pair)?;
    let output = lookup.find(output)?;
    Some(LogRecord { pair, output })
}

/// The place that a record names, if it names one.
#[tactic(auto, using(crate::proofs::FieldLemmas::two_place, crate::proofs::FieldLemmas::no_place))]
pub(crate) fn place_in(lookup: &Lookup<'_>, pairs: usize, fields: &ByteRecord) -> Option<LogRecord>
    requires { pairs < 2 ^ 32 }
    ensures { result ≡ place_in pairs lookup.now (fields_of fields.now) }
{
    match two_fields(fields) {
        Some((pair, output)) => place_with(lookup, pairs, pair, output),
        None => None,
    }
}

fn is_definite(value: Trit) -> bool
    ensures { result ≡ is_definite value }
{
    match value {
        Trit::Zero | Trit::One => true,
        Trit::X => false,
    }
}

/// Whether a value is expected at the place.
pub(crate) fn is_expected(expected: &[List<Trit>], here: LogRecord) -> bool
    requires listed { here.pair < length expected.now }
    requires observed { All (λ values. here.output < length values) expected.now }
    ensures { result ≡ is_expected expected.now here }
{
    let values = &expected[here.pair as usize];
    is_definite(values.get(here.output as usize))
}
