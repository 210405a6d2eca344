//! The fields of a record by place.
ghost use Rattle.std.specs.Prelude.{◌≡◌, ◌<◌, length, Some, MatchOption};
ghost use Rattle.csv.specs.Records.{fields_of, field_at};
ghost use Rattle.ca_csv.specs.Fields.{AreNotTwo, AreTwo};

use csv::ByteRecord;

/// The field at a place, counted from 0.
#[tactic(auto, using(crate::proofs::CsvLemmas::field_within))]
pub fn field(fields: &ByteRecord, i: usize) -> &[u8]
    requires { i < length (fields_of fields.now) }
    ensures { field_at (fields_of fields.now) i ≡ Some result.now }
{
    let Some(field) = fields.get(i) else {
        unreachable!()
    };
    field
}

/// The fields of a record of two, and none of any other.
#[tactic(auto, using(crate::proofs::FieldLemmas::are_two, crate::proofs::CsvLemmas::field_within))]
pub fn two_fields(fields: &ByteRecord) -> Option<(&[u8], &[u8])>
    ensures { MatchOption result (AreNotTwo (fields_of fields.now))
        (λ two. AreTwo (fields_of fields.now) two.0.now two.1.now) }
{
    if fields.len() != 2 {
        return None;
    }
    let Some(one) = fields.get(0) else {
        unreachable!()
    };
    let Some(other) = fields.get(1) else {
        unreachable!()
    };
    Some((one, other))
}
