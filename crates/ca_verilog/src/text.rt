//! The netlist of a text.
ghost use Rattle.std.specs.Prelude.{◌≡◌, IfOk};
ghost use Rattle.ca_lex.specs.Reading.{Gives};
ghost use Rattle.ca_lex.specs.code.Reading.{Steps};
ghost use Rattle.ca_token.specs.Scan.{scan_of};
ghost use Rattle.ca_verilog.specs.IsNetlist.{IsNetlist};
ghost use Rattle.ca_verilog.specs.Text.{reads_scan, is_end, ended, netlist_of};
ghost use Rattle.ca_verilog.specs.VerilogFault.{fault_reported};
ghost use Rattle.ca_verilog.specs.code.Views.{reading_seen};

use crate::fault::{VerilogFault, VerilogKind, kind_of};
use crate::netlist::limited;
use crate::raw::RawNetlist;
use crate::reading::Reading;
use crate::table::Place;
use ca_token::{Next, line_at, next_token};
use std::alloc::Global;

impl Place {
    // Whether the reading is after `endmodule`.
    fn is_end(self) -> bool
        ensures { result ≡ is_end self }
    {
        matches!(self, Place::End)
    }
}

// Reads the tokens of a text.
fn read_tokens(alloc: Global, bytes: &[u8], reading: &mut Reading) -> Result<(), VerilogFault>
    ensures { Steps fault_reported (reading_seen reading.new) result
        (reads_scan bytes.now (reading_seen reading.old) (scan_of bytes.now)) }
{
    let mut place = 0;
    'tokens: loop {
        match next_token(bytes, place) {
            Next::Token(token) => {
                if let Err(refusal) = reading.token(alloc, bytes, token) {
                    return Err(refusal.at(line_at(bytes, token.start)));
                }
                place = token.end;
            }
            Next::Flaw(flaw) => {
                return Err(VerilogFault::At {
                    line: line_at(bytes, flaw.place),
                    kind: kind_of(flaw.kind),
                });
            }
            Next::End => return Ok(()),
        }
    }
}

// Reads a whole text.
fn read_text(alloc: Global, bytes: &[u8], reading: &mut Reading) -> Result<(), VerilogFault>
    ensures { Steps fault_reported (reading_seen reading.new) result
        (ended bytes.now (reads_scan bytes.now (reading_seen reading.old) (scan_of bytes.now))) }
{
    read_tokens(alloc, bytes, reading)?;
    if !reading.place.is_end() {
        return Err(VerilogFault::At {
            line: line_at(bytes, bytes.len().saturating_sub(1)),
            kind: VerilogKind::Syntax,
        });
    }
    Ok(())
}

/// The most instances of a netlist.
pub const MOST_INSTANCES: usize = 1_073_741_823;

/// The netlist that a text reads as. More than 2^30 - 1 instances are answered as though there were no memory
/// for them.
pub fn read_netlist(alloc: Global, bytes: &[u8]) -> Result<RawNetlist, VerilogFault>
    ensures exact { Gives fault_reported (λ netlist. netlist) result (netlist_of bytes.now) }
    ensures kept { IfOk result IsNetlist }
{
    let mut reading = Reading::new(alloc);
    read_text(alloc, bytes, &mut reading)?;
    if MOST_INSTANCES < reading.instances.as_slice().len() {
        return Err(VerilogFault::NoMemory);
    }
    limited(alloc, &reading)
}
