//! Scan tables.

ghost use Rattle.std.specs.Prelude.{◌≡◌, ◌++◌, ◌∷◌, [], ℕ, List, false, IfOk, OnOk};
ghost use Rattle.ca_csv.specs.Streams.{HasLeft};
ghost use Rattle.ca_names.specs.Names.{has_name};
ghost use Rattle.ca_scan.specs.Table.{cells_of, may_join, with_fields, rows_of, table_of, Reads};
ghost use Rattle.ca_scan.specs.code.Table.{Joins};
ghost use Rattle.ca_scan.specs.code.Into.{ReadsInto};

use crate::fault::ScanFault;
use crate::fields::{are_texts, fields_in, is_header, is_row, row_with};
use ca_base::{List, NoMemory};
use ca_csv::{next, reader_of};
use ca_lex::{Names, Text};
use ca_names::NameSet;
use ca_wiring::{ScanRow, ScanTable};
use csv::{ByteRecord, Reader};
use std::alloc::Global;

// Whether a row of these fields may join those of other cells.
fn may_join(cells: &NameSet, fields: &[Text], row: &ScanRow) -> bool
    ensures { result ≡ may_join cells.now fields.now row.now }
{
    are_texts(fields) && is_row(row) && !cells.has(row.cell.as_bytes())
}

// Adds a row whose cell is a new one.
#[tactic(auto, using(crate::proofs::TableLemmas::one_cell_more, crate::proofs::TableLemmas::new_name))]
fn push(
    alloc: Global,
    rows: &mut ScanTable,
    cells: &mut NameSet,
    row: ScanRow,
) -> Result<(), NoMemory>
    requires kept { cells.old ≡ cells_of rows.old }
    requires is_new { has_name row.cell cells.old ≡ false }
    ensures added { OnOk result (rows.new ≡ rows.old ++ row ∷ []) }
    ensures kept { OnOk result (cells.new ≡ cells_of rows.new) }
{
    cells.add(alloc, row.cell.as_bytes())?;
    rows.push(row)
}

// Adds the row that these fields make, and answers whether they make one that may join the others.
#[tactic(auto, using(crate::proofs::TableLemmas::no_row, crate::proofs::TableLemmas::may_not, crate::proofs::TableLemmas::may, crate::proofs::TableLemmas::is_new))]
fn add(
    alloc: Global,
    rows: &mut ScanTable,
    cells: &mut NameSet,
    fields: &Names,
) -> Result<bool, NoMemory>
    requires { cells.old ≡ cells_of rows.old }
    ensures joins { IfOk result (λ joins. Joins joins (with_fields rows.old fields.now) rows.new) }
    ensures kept { IfOk result (λ joins. cells.new ≡ cells_of rows.new) }
{
    let fields = fields.as_slice();
    let Some(row) = row_with(alloc, fields)? else {
        return Ok(false);
    };
    if !may_join(cells, fields, &row) {
        return Ok(false);
    }
    push(alloc, rows, cells, row)?;
    Ok(true)
}

// Reads the records after those that were read, and adds their rows to a table of none.
fn read_rows(
    alloc: Global,
    reader: &mut Reader<&[u8]>,
    record: &mut ByteRecord,
    rows: &mut ScanTable,
    cells: &mut NameSet,
) -> Result<(), ScanFault>
    requires rows { rows.old ≡ [] }
    requires cells { cells.old ≡ [] }
    ensures { (records : List (List (List ℕ))) → HasLeft reader.old records
        → ReadsInto result rows.new (rows_of records) }
{
    if !next(reader, record)? {
        return Err(ScanFault::BadScanRow { row: 1 });
    }
    let header = fields_in(alloc, record)?;
    let is_it = is_header(header.as_slice());
    drop(header);
    if !is_it {
        return Err(ScanFault::BadScanRow { row: 1 });
    }
    for row in 2..usize::MAX {
        if !next(reader, record)? {
            return Ok(());
        }
        let fields = fields_in(alloc, record)?;
        let joins = add(alloc, rows, cells, &fields);
        drop(fields);
        if !joins? {
            return Err(ScanFault::BadScanRow { row });
        }
    }
    // No text has that many records.
    Err(ScanFault::NoMemory)
}

// The scan table of the records after those that were read. Each large value is dropped in one place here and
// below: more places are slow to prove.
fn table_after(
    alloc: Global,
    reader: &mut Reader<&[u8]>,
    record: &mut ByteRecord,
) -> Result<ScanTable, ScanFault>
    ensures { (records : List (List (List ℕ))) → HasLeft reader.old records
        → Reads result (rows_of records) }
{
    let mut rows = List::new(alloc);
    let mut cells = NameSet::new(alloc);
    let read = read_rows(alloc, reader, record, &mut rows, &mut cells);
    drop(cells);
    read?;
    Ok(rows)
}

/// The scan table that a text is, or its first record that breaks the form.
pub fn read_table(alloc: Global, bytes: &[u8]) -> Result<ScanTable, ScanFault>
    ensures exact { Reads result (table_of bytes.now) }
{
    let mut reader = reader_of(alloc, bytes);
    let mut record = ByteRecord::new(alloc);
    let table = table_after(alloc, &mut reader, &mut record);
    drop(record);
    drop(reader);
    table
}
