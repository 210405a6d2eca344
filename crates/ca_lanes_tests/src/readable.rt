//! Whether what the planes read is within bounds.

ghost use Rattle.std.specs.Prelude.{◌≡◌, ◌+◌, ◌^◌, ◌<◌, ◌≤◌, ◌↔◌, length, IsTrue};
ghost use Rattle.std.specs.List.{All};
ghost use Rattle.ca_lanes.specs.Netlist.{ArePinsOf, IsInstanceReadable, IsReadable, HasBits};
ghost use Rattle.ca_lanes.specs.Screened.{IsRowIn, IsScreenable};

use ca_cell::{Row, Rows};
use ca_lanes::{Constant, GoodRows, Instance, Netlist};
use ca_pair::Pair;

// Whether all numbers are below the bound.
fn are_below(numbers: &[u32], bound: usize) -> bool
    ensures { IsTrue result ↔ All (λ number. number < bound) numbers.now }
{
    numbers.iter().all(|number| (*number as usize) < bound)
}

// Whether the constants are on nets.
fn are_on_nets(constants: &[Constant], nets: usize) -> bool
    ensures { IsTrue result ↔ All (λ constant. constant.net < nets) constants.now }
{
    constants
        .iter()
        .all(|constant| (constant.net as usize) < nets)
}

// Whether the instance of a cell with one output has a net for each pin.
fn has_pins(nets: usize, rows: &GoodRows, pins: &[u32]) -> bool
    ensures { IsTrue result → ArePinsOf nets rows.now.inputs rows.now.outputs pins.now }
{
    rows.outputs() == 1
        && pins.len() >= 1
        && pins.len() - 1 == rows.inputs()
        && are_below(pins, nets)
}

// Whether the instance's cell is there, and the instance has a net for each pin.
fn is_placed(nets: usize, goods: &[GoodRows], instance: &Instance) -> bool
    ensures { IsTrue result → IsInstanceReadable nets goods.now instance.now }
{
    let cell = instance.cell as usize;
    cell < goods.len() && has_pins(nets, &goods[cell], &instance.pins)
}

// Whether all instances are so.
fn are_placed(nets: usize, goods: &[GoodRows], instances: &[Instance]) -> bool
    ensures { IsTrue result → All (IsInstanceReadable nets goods.now) instances.now }
{
    instances
        .iter()
        .all(|instance| is_placed(nets, goods, instance))
}

// Whether the planes may read the netlist.
pub(crate) fn is_readable(nets: usize, goods: &[GoodRows], netlist: &Netlist) -> bool
    ensures { IsTrue result → IsReadable nets goods.now netlist.now }
{
    are_below(&netlist.inputs, nets)
        && are_on_nets(&netlist.constants, nets)
        && are_placed(nets, goods, &netlist.instances)
        && are_below(&netlist.order, netlist.instances.len())
        && netlist.inputs.len() < 32_768
}

// Whether the pair has two bits for each input.
fn has_bits(pair: &Pair, inputs: usize) -> bool
    ensures { IsTrue result → HasBits inputs inputs pair.now }
{
    pair.len() / 2 >= inputs
}

// Whether each pair has so.
pub(crate) fn have_bits(pairs: &[Pair], inputs: usize) -> bool
    ensures { IsTrue result → All (HasBits inputs inputs) pairs.now }
{
    pairs.iter().all(|pair| has_bits(pair, inputs))
}

// Whether the row is of `count` vectors.
fn is_within(row: Row, count: usize) -> bool
    ensures { IsTrue result → IsRowIn count row }
{
    (row.first as usize) < count && (row.last as usize) < count
}

// Whether the rows are so.
fn are_within(rows: &[Row], count: usize) -> bool
    ensures { IsTrue result → All (IsRowIn count) rows.now }
{
    rows.iter().all(|row| is_within(*row, count))
}

// Whether two pins may be screened for the rows.
pub(crate) fn is_screenable(nets: usize, pins: &[u32], rows: &Rows) -> bool
    ensures { IsTrue result → IsScreenable nets pins.now rows.now }
{
    pins.len() == 2 && are_below(pins, nets) && are_within(rows.as_slice(), 4)
}
