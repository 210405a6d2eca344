//! The chip of the files that a command names.
ghost use Rattle.std.specs.Prelude.{◌≡◌, Some, IfErr, IfOk, OnOk};
ghost use Rattle.ca_store.specs.Store.{Nothing};
ghost use Rattle.ca_scan.specs.ChainFault.{AreAllChains};
ghost use Rattle.ca_load.specs.Files.{OnlyReads};
ghost use Rattle.ca_load.specs.Texts.{names_of, OfInputs};
ghost use Rattle.ca_load.specs.Chips.{IsChipOf};
ghost use Rattle.ca_load.specs.Causes.{IsLoadCause};

use crate::cells::CellNames;
use crate::linking::link_all;
use crate::reading::read_all;
use ca_fault::Fault;
use ca_linked::Chip;
use ca_scan::Chains;
use ca_store::Store;
use std::alloc::Global;

/// The names of the files of a command on a chip. One without scan cells may have no file for their table.
#[derive(Clone, Copy)]
pub struct FileNames<'a> {
    pub cells: CellNames<'a>,
    pub netlist: &'a str,
    pub scan: Option<&'a str>,
}

/// A linked chip, with its scan chains in the order of their scan-in ports.
#[derive(Drop)]
pub struct Loaded {
    pub chip: Chip,
    pub chains: Chains,
}

/// The chip that the files give. The library is read and judged whole, then the netlist, then the table of
/// scan cells; only then is the netlist linked, and last its chains are traced. Names that faults of files
/// report are in memory before the first file is opened.
#[tactic(auto, using(crate::proofs::LinkLemmas::of_read, crate::proofs::LinkLemmas::at_inputs))]
pub fn load<S: Store>(alloc: Global, names: &FileNames<'_>, store: &mut S) -> Result<Loaded, Fault>
    requires closed { S.opened store.old ≡ Nothing }

    ensures ok { IfOk result (λ loaded. OfInputs (S.files store.old) (names_of names.now)
        (λ inputs. IsChipOf inputs loaded.chip)) }
    ensures chains { IfOk result (λ loaded. AreAllChains loaded.chip loaded.chains) }
    ensures cause { IfErr result (IsLoadCause (names_of names.now) (S.files store.old)
        (S.faults store.old) (S.faults store.new)) }
    ensures store { OnlyReads result (S.files store.old) (S.faults store.old)
        (S.files store.new) (S.faults store.new) (S.opened store.new) }
{
    let read = read_all(alloc, names, store)?;
    link_all(alloc, read)
}
