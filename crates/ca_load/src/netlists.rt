//! The netlist in the file of a gate netlist.
ghost use Rattle.std.specs.Prelude.{◌≡◌, Some, IfErr, IfOk, OnOk};
ghost use Rattle.ca_store.specs.Store.{Nothing};
ghost use Rattle.ca_verilog.specs.IsNetlist.{IsNetlist};
ghost use Rattle.ca_load.specs.Files.{OfFile, OnlyReads};
ghost use Rattle.ca_load.specs.Texts.{IsNetlistOf};
ghost use Rattle.ca_load.specs.Causes.{IsNetlistCause};
ghost use Rattle.ca_load.specs.code.Stages.{IsNetlistStage};

use crate::files::read_input;
use ca_fault::{Fault, LimitKind};
use ca_lex::Text;
use ca_store::Store;
use ca_verilog::{RawNetlist, VerilogFault, read_netlist};
use std::alloc::Global;

/// The greatest number of bytes of a gate netlist: 64 MiB.
pub const MAX_NETLIST: usize = 67_108_864;

/// The netlist in the file of this name. A fault of the file takes over the name as it was typed.
pub(crate) fn open_netlist<S: Store>(
    alloc: Global,
    name: &str,
    typed: Text,
    store: &mut S,
) -> Result<RawNetlist, Fault>
    requires closed { S.opened store.old ≡ Nothing }
    requires typed { typed ≡ name.now }

    ensures ok { IfOk result (λ netlist.
        OfFile (S.files store.old) name.now MAX_NETLIST (IsNetlistOf netlist)) }
    ensures rules { IfOk result IsNetlist }
    ensures cause { IfErr result (IsNetlistCause name.now (S.files store.old)
        (S.faults store.old) (S.faults store.new)) }
    ensures store { OnlyReads result (S.files store.old) (S.faults store.old)
        (S.files store.new) (S.faults store.new) (S.opened store.new) }
{
    let bytes = read_input(alloc, name, typed, MAX_NETLIST, store)?;
    netlist_in(alloc, bytes.as_bytes())
}

// The netlist that the bytes read as.
fn netlist_in(alloc: Global, bytes: &[u8]) -> Result<RawNetlist, Fault>
    ensures reads { IfOk result (λ netlist. IsNetlistOf netlist bytes.now) }
    ensures rules { IfOk result IsNetlist }
    ensures cause { IfErr result (IsNetlistStage bytes.now) }
{
    match read_netlist(alloc, bytes) {
        Ok(netlist) => Ok(netlist),
        Err(VerilogFault::At { line, kind }) => Err(Fault::Netlist { line, kind }),
        Err(VerilogFault::TooManyNets { count }) => Err(Fault::Limit {
            kind: LimitKind::Nets,
            count,
        }),
        Err(VerilogFault::NoMemory) => Err(Fault::NoMemory),
    }
}
