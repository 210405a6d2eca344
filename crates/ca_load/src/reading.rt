//! The files of a command on a chip, read in their order.
ghost use Rattle.std.specs.Prelude.{◌≡◌, map, Some, IfErr, IfOk, OnOk};
ghost use Rattle.std.specs.List.{IsDistinct};
ghost use Rattle.std.specs.Str.{bytes_eq};
ghost use Rattle.ca_store.specs.Store.{Nothing};
ghost use Rattle.ca_cell.specs.Library.{raw_of};
ghost use Rattle.ca_verilog.specs.IsNetlist.{IsNetlist};
ghost use Rattle.ca_load.specs.Files.{OnlyReads};
ghost use Rattle.ca_load.specs.Texts.{names_of};
ghost use Rattle.ca_load.specs.code.Texts.{AreRead};
ghost use Rattle.ca_load.specs.Causes.{IsInputCause};
ghost use Rattle.ca_load.specs.code.Stages.{inputs_of, AreTyped};

use crate::cells::{TypedCells, open_library, typed_cells};
use crate::loading::FileNames;
use crate::netlists::open_netlist;
use crate::tables::open_table;
use ca_base::NoMemory;
use ca_cell::Library;
use ca_fault::Fault;
use ca_lex::Text;
use ca_scan::ScanTable;
use ca_store::Store;
use ca_verilog::RawNetlist;
use std::alloc::Global;

/// What the files of a command on a chip read as.
#[derive(Drop)]
pub(crate) struct Read {
    pub library: Library,
    pub netlist: RawNetlist,
    pub scan: ScanTable,
}

/// What faults say of the files. It is in memory of its own before the first file is opened, so that no
/// fault of a file is reported as out of memory.
#[derive(Drop)]
pub(crate) struct TypedNames {
    pub cells: TypedCells,
    pub netlist: Text,
    pub scan: Text,
}

// The names that faults of the files report.
fn typed_names(alloc: Global, names: &FileNames<'_>) -> Result<TypedNames, NoMemory>
    ensures { IfOk result (AreTyped (names_of names.now)) }
{
    let scan = match names.scan {
        Some(name) => Text::from_bytes(alloc, name.as_bytes())?,
        None => Text::new(alloc),
    };
    Ok(TypedNames {
        cells: typed_cells(alloc, &names.cells)?,
        netlist: Text::from_bytes(alloc, names.netlist.as_bytes())?,
        scan,
    })
}

/// The cell netlist, read and judged whole; then the gate netlist; and then the table of scan cells.
#[tactic(auto, using(crate::proofs::ReadLemmas::at_netlist, crate::proofs::ReadLemmas::at_scan, crate::proofs::ReadLemmas::are_read, crate::proofs::ReadLemmas::reported_since))]
pub(crate) fn read_all<S: Store>(
    alloc: Global,
    names: &FileNames<'_>,
    store: &mut S,
) -> Result<Read, Fault>
    requires closed { S.opened store.old ≡ Nothing }

    ensures ok { IfOk result (λ read. AreRead (S.files store.old) (names_of names.now) (inputs_of read)) }
    ensures rules { IfOk result (λ read. IsNetlist read.netlist) }
    ensures distinct { IfOk result (λ read. IsDistinct bytes_eq (map (λ row. row.cell) read.scan)) }
    ensures cause { IfErr result (IsInputCause (names_of names.now) (S.files store.old)
        (S.faults store.old) (S.faults store.new)) }
    ensures store { OnlyReads result (S.files store.old) (S.faults store.old)
        (S.files store.new) (S.faults store.new) (S.opened store.new) }
{
    let typed = typed_names(alloc, names)?;
    let library = open_library(alloc, &names.cells, typed.cells, store)?;
    let netlist = open_netlist(alloc, names.netlist, typed.netlist, store)?;
    let scan = open_table(alloc, names.scan, typed.scan, store)?;
    Ok(Read {
        library,
        netlist,
        scan,
    })
}
