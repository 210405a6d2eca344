//! The strength table under which a cell netlist is read, whose file may be named or not.
ghost use Rattle.std.specs.Prelude.{◌≡◌, [], Some, IfErr, IfOk, OnOk, unwrap_or};
ghost use Rattle.std.specs.Option.{option_copied};
ghost use Rattle.ca_store.specs.Store.{Nothing};
ghost use Rattle.ca_load.specs.Files.{OfFile, OnlyReads};
ghost use Rattle.ca_load.specs.Causes.{IsNamedTableCause, IsStrengthsCause};
ghost use Rattle.ca_load.specs.code.Texts.{IsTableText, IsStrengthsAt};
ghost use Rattle.ca_load.specs.code.Stages.{IsRatiosStage};

use crate::files::read_input;
use ca_cell::StrengthTable;
use ca_fault::Fault;
use ca_lex::Text;
use ca_store::Store;
use ca_strengths::{StrengthFault, read_strengths};
use std::alloc::Global;

/// The greatest number of bytes of a strength table: 1 MiB.
pub const MAX_STRENGTHS: usize = 1_048_576;

/// The table in the file of this name, if there is a name, and else the default one. A fault of the file
/// takes over the name as it was typed.
#[tactic(auto, using(crate::proofs::TableLemmas::default_at))]
pub(crate) fn open_strengths<S: Store>(
    alloc: Global,
    name: Option<&str>,
    typed: Text,
    store: &mut S,
) -> Result<StrengthTable, Fault>
    requires closed { S.opened store.old ≡ Nothing }
    requires typed { typed ≡ unwrap_or (option_copied name) [] }

    ensures ok { IfOk result (IsStrengthsAt (S.files store.old) (option_copied name.entry)) }
    ensures cause { IfErr result (IsStrengthsCause (option_copied name.entry) (S.files store.old)
        (S.faults store.old) (S.faults store.new)) }
    ensures store { OnlyReads result (S.files store.old) (S.faults store.old)
        (S.files store.new) (S.faults store.new) (S.opened store.new) }
{
    match name {
        Some(name) => read_ratios(alloc, name, typed, store),
        None => Ok(StrengthTable::default_table()),
    }
}

// The table in the file of this name.
fn read_ratios<S: Store>(
    alloc: Global,
    name: &str,
    typed: Text,
    store: &mut S,
) -> Result<StrengthTable, Fault>
    requires closed { S.opened store.old ≡ Nothing }
    requires typed { typed ≡ name.now }

    ensures ok { IfOk result (λ table.
        OfFile (S.files store.old) name.now MAX_STRENGTHS (IsTableText table)) }
    ensures cause { IfErr result (IsNamedTableCause name.now (S.files store.old)
        (S.faults store.old) (S.faults store.new)) }
    ensures store { OnlyReads result (S.files store.old) (S.faults store.old)
        (S.files store.new) (S.faults store.new) (S.opened store.new) }
{
    let bytes = read_input(alloc, name, typed, MAX_STRENGTHS, store)?;
    strengths_in(alloc, bytes.as_bytes())
}

// The table that the bytes read as.
fn strengths_in(alloc: Global, bytes: &[u8]) -> Result<StrengthTable, Fault>
    ensures reads { IfOk result (λ table. IsTableText table bytes.now) }
    ensures cause { IfErr result (IsRatiosStage bytes.now) }
{
    match read_strengths(alloc, bytes) {
        Ok(table) => Ok(table),
        Err(StrengthFault::BadStrengthRow { row }) => Err(Fault::Strengths { row }),
        Err(StrengthFault::NoMemory) => Err(Fault::NoMemory),
    }
}
