//! The names of declared bits.

ghost use Rattle.std.specs.Prelude.{◌≡◌, ◌<◌, ◌^◌, IfOk};
ghost use Rattle.ca_verilog.specs.IsNetlist.{bit_count};
ghost use Rattle.ca_fault_place.specs.Names.{constant_after, wire_name};

use ca_base::NoMemory;
use ca_draft::{bit_name, range_width};
use ca_lex::Text;
use ca_verilog::RawBus;
use std::alloc::Global;

// The constant whose wire is the first after those of declared bits, and the one after it.
fn constant_after(more: u32) -> &'static [u8]
    ensures { result.now ≡ constant_after more }
{
    if more == 0 { b"1'b0" } else { b"1'b1" }
}

/// The name of a wire: that of a declared bit, or a constant.
pub(crate) fn wire_name(alloc: Global, buses: &[RawBus], wire: u32) -> Result<Text, NoMemory>
    requires { bit_count buses.now < 2 ^ 32 }
    ensures { IfOk result (λ name. name ≡ wire_name buses.now wire) }
{
    let mut left = wire;
    for k in 0..buses.len() {
        let width = range_width(buses[k].range);
        if left < width {
            return bit_name(alloc, &buses[k], left);
        }
        left -= width;
    }
    Text::from_bytes(alloc, constant_after(left))
}
