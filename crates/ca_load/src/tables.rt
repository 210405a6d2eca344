//! The table of scan cells, which a chip may have or not.
ghost use Rattle.std.specs.Prelude.{◌≡◌, [], map, Some, IfErr, IfOk, OnOk, option_map, unwrap_or};
ghost use Rattle.std.specs.List.{IsDistinct};
ghost use Rattle.std.specs.Option.{option_copied};
ghost use Rattle.std.specs.Str.{bytes_eq};
ghost use Rattle.ca_store.specs.Store.{Nothing};
ghost use Rattle.ca_load.specs.Files.{OfFile, OnlyReads};
ghost use Rattle.ca_load.specs.Texts.{IsTableOf, IsTableAt};
ghost use Rattle.ca_load.specs.Causes.{IsTableCause, IsScanCause};
ghost use Rattle.ca_load.specs.code.Stages.{IsTableStage};

use crate::files::read_input;
use ca_base::List;
use ca_fault::Fault;
use ca_lex::Text;
use ca_scan::{ScanFault, ScanTable, read_table};
use ca_store::Store;
use std::alloc::Global;

/// The greatest number of bytes of a table of scan cells: 1 MiB.
pub const MAX_SCAN: usize = 1_048_576;

/// The table in the file of this name, if there is a name, and else the table of no scan cells. A fault of
/// the file takes over the name as it was typed.
pub(crate) fn open_table<S: Store>(
    alloc: Global,
    name: Option<&str>,
    typed: Text,
    store: &mut S,
) -> Result<ScanTable, Fault>
    requires closed { S.opened store.old ≡ Nothing }
    requires typed { typed ≡ unwrap_or (option_copied name) [] }

    ensures ok { IfOk result (IsTableAt (S.files store.old) (option_copied name.entry)) }
    ensures distinct { IfOk result (λ table. IsDistinct bytes_eq (map (λ row. row.cell) table)) }
    ensures cause { IfErr result (IsScanCause (option_copied name.entry) (S.files store.old)
        (S.faults store.old) (S.faults store.new)) }
    ensures store { OnlyReads result (S.files store.old) (S.faults store.old)
        (S.files store.new) (S.faults store.new) (S.opened store.new) }
{
    match name {
        Some(name) => read_rows(alloc, name, typed, store),
        None => Ok(List::new(alloc)),
    }
}

// The table in the file of this name.
fn read_rows<S: Store>(
    alloc: Global,
    name: &str,
    typed: Text,
    store: &mut S,
) -> Result<ScanTable, Fault>
    requires closed { S.opened store.old ≡ Nothing }
    requires typed { typed ≡ name.now }

    ensures ok { IfOk result (λ table. OfFile (S.files store.old) name.now MAX_SCAN (IsTableOf table)) }
    ensures distinct { IfOk result (λ table. IsDistinct bytes_eq (map (λ row. row.cell) table)) }
    ensures cause { IfErr result (IsTableCause name.now (S.files store.old)
        (S.faults store.old) (S.faults store.new)) }
    ensures store { OnlyReads result (S.files store.old) (S.faults store.old)
        (S.files store.new) (S.faults store.new) (S.opened store.new) }
{
    let bytes = read_input(alloc, name, typed, MAX_SCAN, store)?;
    table_in(alloc, bytes.as_bytes())
}

// The table that the bytes read as.
#[tactic(auto, using(crate::proofs::RowLemmas::table_differs))]
fn table_in(alloc: Global, bytes: &[u8]) -> Result<ScanTable, Fault>
    ensures reads { IfOk result (λ table. IsTableOf table bytes.now) }
    ensures distinct { IfOk result (λ table. IsDistinct bytes_eq (map (λ row. row.cell) table)) }
    ensures cause { IfErr result (IsTableStage bytes.now) }
{
    match read_table(alloc, bytes) {
        Ok(table) => Ok(table),
        Err(ScanFault::BadScanRow { row }) => Err(Fault::Scan { row }),
        Err(ScanFault::NoMemory) => Err(Fault::NoMemory),
    }
}
