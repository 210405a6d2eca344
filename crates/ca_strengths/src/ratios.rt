//! The fields of a record, and the ratio that they are.

ghost use Rattle.std.specs.Prelude.{◌≡◌, [], ℕ, length};
ghost use Rattle.std.specs.List.{list_all};
ghost use Rattle.std.specs.Str.{bytes_eq};
ghost use Rattle.csv.specs.Records.{fields_of};
ghost use Rattle.ca_strengths.specs.StrengthText.{is_header, ratio_with, ratio_in, is_above, may_follow};
ghost use Rattle.ca_strengths.specs.StrengthText.{table_with};

use crate::number::{MOST_NUMBER, number_up_to};
use ca_cell::{Ratio, StrengthTable};
use ca_csv::two_fields;
use csv::ByteRecord;

// Whether a field is this word.
fn is(field: &[u8], word: &[u8]) -> bool
    ensures { result ≡ bytes_eq field.now word.now }
{
    field == word
}

/// Whether the fields are those of the header.
#[tactic(auto, using(crate::proofs::RatioLemmas::header_of_two, crate::proofs::RatioLemmas::no_header_of_others))]
pub(crate) fn is_header(fields: &ByteRecord) -> bool
    ensures { result ≡ is_header (fields_of fields.now) }
{
    match two_fields(fields) {
        Some((width, length)) => is(width, b"width") && is(length, b"length"),
        None => false,
    }
}

// The ratio of a width and a length.
fn ratio_with(width: &[u8], length: &[u8]) -> Option<Ratio>
    ensures { result ≡ ratio_with width.now length.now }
{
    let width = number_up_to(MOST_NUMBER, width)?;
    let length = number_up_to(MOST_NUMBER, length)?;
    Some(Ratio { width, length })
}

/// The ratio that a record is, if it is one.
#[tactic(auto, using(crate::proofs::RatioLemmas::two_ratio, crate::proofs::RatioLemmas::no_ratio))]
pub(crate) fn ratio_in(fields: &ByteRecord) -> Option<Ratio>
    ensures { result ≡ ratio_in (fields_of fields.now) }
{
    match two_fields(fields) {
        Some((width, length)) => ratio_with(width, length),
        None => None,
    }
}

// Whether a ratio is greater than another one.
#[tactic(auto, using(crate::proofs::RatioLemmas::product_fits))]
fn is_above(ratio: Ratio, other: Ratio) -> bool
    ensures { result ≡ is_above ratio other }
{
    u64::from(other.width) * u64::from(ratio.length)
        < u64::from(ratio.width) * u64::from(other.length)
}

// Whether a ratio is greater than each of these.
fn is_above_all(ratios: &[Ratio], ratio: Ratio) -> bool
    ensures { result ≡ list_all (is_above ratio) ratios.now }
{
    ratios.iter().all(|other| is_above(ratio, *other))
}

/// Whether a ratio may follow those before it.
pub(crate) fn may_follow(ratios: &[Ratio], ratio: Ratio) -> bool
    ensures { result ≡ may_follow ratios.now ratio }
{
    ratios.len() < 5 && is_above_all(ratios, ratio)
}

/// The table of five ratios.
pub(crate) fn table_with(ratios: &[Ratio]) -> Option<StrengthTable>
    ensures { result ≡ table_with ratios.now }
{
    let [first, second, third, fourth, fifth] = ratios else {
        return None;
    };
    Some(StrengthTable {
        first: *first,
        second: *second,
        third: *third,
        fourth: *fourth,
        fifth: *fifth,
    })
}
