//! The fields of a record, and what a row may be.
ghost use Rattle.std.specs.Prelude.{◌≡◌, ◌∷◌, ◌++◌, [], ◌<◌, length, map, IfOk, codes, Option, Some, None};
ghost use Rattle.std.specs.List.{list_any, list_all};
ghost use Rattle.std.specs.Str.{bytes_eq};
ghost use Rattle.csv.specs.Records.{fields_of, field_at};
ghost use Rattle.ca_lex.specs.Words.{upper_case};
ghost use Rattle.ca_scan.specs.Table.{same_texts, is_header, row_of, is_text, is_empty, is_distinct};
ghost use Rattle.ca_scan.specs.Table.{are_pins, pins_of, is_row, row_with};

use ca_base::NoMemory;
use ca_csv::field;
use ca_lex::{Names, Text, fold};
use ca_wiring::ScanRow;
use csv::ByteRecord;
use std::alloc::Global;

/// The fields of a record.
#[tactic(auto, using(crate::proofs::TableLemmas::take_field, crate::proofs::TableLemmas::take_fields))]
pub(crate) fn fields_in(alloc: Global, fields: &ByteRecord) -> Result<Names, NoMemory>
    ensures { IfOk result (λ names. names ≡ fields_of fields.now) }
{
    let mut names = Names::new(alloc);
    for i in 0..fields.len() {
        names.push(Text::from_bytes(alloc, field(fields, i))?)?;
    }
    Ok(names)
}

// Whether a field is this word.
fn is(field: &Text, word: &[u8]) -> bool
    ensures { result ≡ bytes_eq field.now word.now }
{
    field.as_bytes() == word
}

// Whether these are the same texts.
#[tactic(auto, unfolding(crate::specs::Table::same_texts))]
fn same_texts(fields: &[Text], words: &[&[u8]]) -> bool
    ensures { result ≡ same_texts fields.now (map (λ word. word.now) words.now) }
{
    let mut rest = fields;
    let mut left = words;
    'fields: while let [field, more @ ..] = rest {
        let [word, others @ ..] = left else {
            return false;
        };
        if !is(field, word) {
            return false;
        }
        rest = more;
        left = others;
    }
    left.is_empty()
}

/// Whether the fields are those of the header.
pub(crate) fn is_header(fields: &[Text]) -> bool
    ensures { result ≡ is_header fields.now }
{
    let words = [
        b"cell".as_slice(),
        b"d".as_slice(),
        b"q".as_slice(),
        b"qn".as_slice(),
        b"si".as_slice(),
        b"so".as_slice(),
        b"se".as_slice(),
        b"ck".as_slice(),
        b"hold".as_slice(),
    ];
    same_texts(fields, &words)
}

// Whether a field has bytes 33 to 126 alone.
fn is_text(field: &[u8]) -> bool
    ensures { result ≡ is_text field.now }
{
    let mut rest = field;
    'bytes: while let [byte, more @ ..] = rest {
        if *byte < 33 || 126 < *byte {
            return false;
        }
        rest = more;
    }
    true
}

/// Whether all fields have bytes 33 to 126 alone.
pub(crate) fn are_texts(fields: &[Text]) -> bool
    ensures { result ≡ list_all is_text fields.now }
{
    let mut rest = fields;
    'fields: while let [field, more @ ..] = rest {
        if !is_text(field.as_bytes()) {
            return false;
        }
        rest = more;
    }
    true
}

// Whether a text is one of these.
fn is_in(text: &[u8], texts: &[&[u8]]) -> bool
    ensures { result ≡ list_any (bytes_eq text.now) (map (λ other. other.now) texts.now) }
{
    let mut rest = texts;
    'texts: while let [other, more @ ..] = rest {
        if text == *other {
            return true;
        }
        rest = more;
    }
    false
}

// Whether a text is empty.
fn is_empty(text: &[u8]) -> bool
    ensures { result ≡ is_empty text.now }
{
    text.len() == 0
}

// Whether one of these is empty.
fn has_empty(texts: &[&[u8]]) -> bool
    ensures { result ≡ list_any is_empty (map (λ text. text.now) texts.now) }
{
    let mut rest = texts;
    'texts: while let [text, more @ ..] = rest {
        if is_empty(text) {
            return true;
        }
        rest = more;
    }
    false
}

// Whether these are distinct.
#[tactic(auto, unfolding(crate::specs::Table::is_distinct))]
fn is_distinct(texts: &[&[u8]]) -> bool
    ensures { result ≡ is_distinct (map (λ text. text.now) texts.now) }
{
    let mut rest = texts;
    'texts: while let [text, more @ ..] = rest {
        if is_in(text, more) {
            return false;
        }
        rest = more;
    }
    true
}

/// Whether nothing but `qn` is empty, and the pins are distinct.
pub(crate) fn is_row(row: &ScanRow) -> bool
    ensures { result ≡ is_row row.now }
{
    let pins = [
        row.d.as_bytes(),
        row.q.as_bytes(),
        row.si.as_bytes(),
        row.so.as_bytes(),
        row.se.as_bytes(),
        row.ck.as_bytes(),
        row.hold.as_bytes(),
    ];
    let qn = row.qn.as_bytes();
    !is_empty(row.cell.as_bytes())
        && (!has_empty(&pins) && is_distinct(&pins))
        && (is_empty(qn) || !is_in(qn, &pins))
}

// Three fields in upper case.
fn three(
    alloc: Global,
    first: &[u8],
    second: &[u8],
    third: &[u8],
) -> Result<(Text, Text, Text), NoMemory>
    ensures { IfOk result (λ folded. folded
        ≡ (upper_case first.now, upper_case second.now, upper_case third.now)) }
{
    let first = fold(alloc, first)?;
    let second = fold(alloc, second)?;
    let third = fold(alloc, third)?;
    Ok((first, second, third))
}

// The row of these fields, three by three, since each value that exists when memory runs out is dropped in
// one more place.
#[tactic(auto, unfolding(crate::specs::Table::row_of))]
fn row_of(
    alloc: Global,
    cell: &[u8],
    d: &[u8],
    q: &[u8],
    qn: &[u8],
    si: &[u8],
    so: &[u8],
    se: &[u8],
    ck: &[u8],
    hold: &[u8],
) -> Result<ScanRow, NoMemory>
    ensures { IfOk result (λ row. row ≡ row_of cell.now d.now q.now qn.now si.now so.now se.now ck.now
        hold.now) }
{
    let (cell, d, q) = three(alloc, cell, d, q)?;
    let (qn, si, so) = three(alloc, qn, si, so)?;
    let (se, ck, hold) = three(alloc, se, ck, hold)?;
    Ok(ScanRow {
        cell,
        d,
        q,
        qn,
        si,
        so,
        se,
        ck,
        hold,
    })
}

/// The row of nine fields.
#[tactic(auto, unfolding(crate::specs::Table::row_with))]
pub(crate) fn row_with(alloc: Global, fields: &[Text]) -> Result<Option<ScanRow>, NoMemory>
    ensures { IfOk result (λ row. row ≡ row_with fields.now) }
{
    let [cell, d, q, qn, si, so, se, ck, hold] = fields else {
        return Ok(None);
    };
    let row = row_of(
        alloc,
        cell.as_bytes(),
        d.as_bytes(),
        q.as_bytes(),
        qn.as_bytes(),
        si.as_bytes(),
        so.as_bytes(),
        se.as_bytes(),
        ck.as_bytes(),
        hold.as_bytes(),
    )?;
    Ok(Some(row))
}
