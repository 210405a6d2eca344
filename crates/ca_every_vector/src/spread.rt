//! What flips of an instance's outputs change.
ghost use Rattle.std.specs.Prelude.{◌≡◌, ◌<◌, ◌^◌, length, IsTrue, IfOk, OnOk, ◌+◌};
ghost use Rattle.std.specs.List.{Contains, All};
ghost use Rattle.ca_view.specs.Linked.{IsPlaced, place_in};
ghost use Rattle.ca_view.specs.Places.{cell_number};
ghost use Rattle.ca_sweep.specs.Tables.{AreTables};
ghost use Rattle.ca_every_vector.specs.code.Spread.{AreSpread, IsPutAt, AreInside, AreReadersInside};
ghost use Rattle.ca_flat.specs.Chip.{cell_at, outputs_at, inputs_at};
ghost use Rattle.ca_static.specs.LastTable.{IsLastTable};
ghost use Rattle.ca_every_vector.specs.code.Spread.{IsChangedInside};

use crate::given::{is_inside, number_at};
use crate::lists::{at, entry};
use ca_base::NoMemory;
use ca_net::Trit;
use ca_static::LastTable;
use ca_view::View;

// Gives a net a value, and lists it if it had another one.
pub(crate) fn put(
    others: &mut [Trit],
    changed: &mut Vec<u32>,
    net: usize,
    value: Trit,
) -> Result<(), NoMemory>
    requires known { net < length others.old }
    requires few { net < 2 ^ 32 }
    ensures { OnOk result (IsPutAt net value others.old changed.old.items others.new changed.new.items) }
{
    if at(others, net) == value {
        return Ok(());
    }
    others[net] = value;
    Ok(changed.push(net as u32)?)
}

// Gives the output nets of a listed instance the last values of an entry of its cell's table.
fn write(
    chip: &View<'_>,
    table: &LastTable,
    number: usize,
    others: &mut [Trit],
    changed: &mut Vec<u32>,
    touched: &[u32],
    w: usize,
    u: usize,
    values: &[Trit],
) -> Result<(), NoMemory>
    requires placed { IsPlaced chip.now.core (place_in chip.now.ranks) w }
    requires spread { AreSpread chip.now.core (place_in chip.now.ranks) u values.now others.old
        changed.old.items touched.now }
    requires touched { Contains touched.now w }
    requires table { IsLastTable (cell_at chip.now.core w) table.now }
    requires number { number < length table.now }
    ensures { OnOk result (AreSpread chip.now.core (place_in chip.now.ranks) u values.now others.new
        changed.new.items touched.now) }
{
    chip.linked();
    let _ = (u, values.len());
    let first = chip.inputs_at(w);
    for output in 0..chip.outputs_at(w) {
        let net = chip.pin_net(w, first + output);
        put(others, changed, net, table.last(number, output))?;
    }
    Ok(())
}

// Evaluates an instance with the others, if the values of its input nets are known. Whether they are.
fn evaluate(
    chip: &View<'_>,
    tables: &[Option<LastTable>],
    values: &[Trit],
    others: &mut [Trit],
    changed: &mut Vec<u32>,
    touched: &mut Vec<u32>,
    w: usize,
    u: usize,
) -> Result<bool, NoMemory>
    requires placed { IsPlaced chip.now.core (place_in chip.now.ranks) w }
    requires tables { AreTables chip.now.core (place_in chip.now.ranks) (cell_number chip.now.chip)
        tables.now }
    requires nets { length values.now ≡ length chip.now.core.nets }
    requires spread { AreSpread chip.now.core (place_in chip.now.ranks) u values.now others.old
        changed.old.items touched.old.items }
    ensures { IfOk result (λ known. AreSpread chip.now.core (place_in chip.now.ranks) u values.now
        others.new changed.new.items touched.new.items) }
{
    chip.linked();
    if number_at(chip, values, w).is_none() {
        return Ok(false);
    }
    let number = match number_at(chip, others, w) {
        Some(number) => number,
        None => return Ok(false),
    };
    match &tables[chip.number(w)] {
        Some(table) => {
            touched.push(w as u32)?;
            write(chip, table, number, others, changed, touched, w, u, values)?;
            Ok(true)
        }
        None => Ok(false),
    }
}

// Evaluates the instances that read a net.
pub(crate) fn spread_from(
    chip: &View<'_>,
    tables: &[Option<LastTable>],
    values: &[Trit],
    others: &mut [Trit],
    changed: &mut Vec<u32>,
    touched: &mut Vec<u32>,
    net: usize,
    u: usize,
) -> Result<bool, NoMemory>
    requires known { net < length chip.now.core.nets }
    requires tables { AreTables chip.now.core (place_in chip.now.ranks) (cell_number chip.now.chip)
        tables.now }
    requires nets { length values.now ≡ length chip.now.core.nets }
    requires spread { AreSpread chip.now.core (place_in chip.now.ranks) u values.now others.old
        changed.old.items touched.old.items }
    ensures { IfOk result (λ known. AreSpread chip.now.core (place_in chip.now.ranks) u values.now
        others.new changed.new.items touched.new.items) }
{
    chip.linked();
    for k in 0..chip.reader_count(net) {
        let w = chip.reader(net, k);
        if chip.rank(w) == 0 {
            return Ok(false);
        }
        if !evaluate(chip, tables, values, others, changed, touched, w, u)? {
            return Ok(false);
        }
    }
    Ok(true)
}

// Whether the listed instances are given by their cells, where the values of their input nets are known.
pub(crate) fn are_touched_inside(
    chip: &View<'_>,
    tables: &[Option<LastTable>],
    values: &[Trit],
    others: &[Trit],
    touched: &[u32],
) -> bool
    requires tables { AreTables chip.now.core (place_in chip.now.ranks) (cell_number chip.now.chip)
        tables.now }
    requires nets { length values.now ≡ length chip.now.core.nets }
    requires other_nets { length others.now ≡ length chip.now.core.nets }
    requires placed { All (IsPlaced chip.now.core (place_in chip.now.ranks)) touched.now }
    ensures { IsTrue result → AreInside chip.now.core values.now others.now touched.now }
{
    for place in 0..touched.len() {
        let w = entry(touched, place);
        if !is_inside(chip, tables, values, others, w) {
            return false;
        }
    }
    true
}

// Whether the instances that read a net are.
fn are_readers_inside(
    chip: &View<'_>,
    tables: &[Option<LastTable>],
    values: &[Trit],
    others: &[Trit],
    net: usize,
) -> bool
    requires known { net < length chip.now.core.nets }
    requires tables { AreTables chip.now.core (place_in chip.now.ranks) (cell_number chip.now.chip)
        tables.now }
    requires nets { length values.now ≡ length chip.now.core.nets }
    requires other_nets { length others.now ≡ length chip.now.core.nets }
    ensures { IsTrue result → AreReadersInside chip.now.core values.now others.now net }
{
    chip.linked();
    for k in 0..chip.reader_count(net) {
        let w = chip.reader(net, k);
        if chip.rank(w) == 0 {
            return false;
        }
        if !is_inside(chip, tables, values, others, w) {
            return false;
        }
    }
    true
}

// Whether all that read a listed net are given so, and no such net is observed.
pub(crate) fn are_changed_inside(
    chip: &View<'_>,
    tables: &[Option<LastTable>],
    values: &[Trit],
    others: &[Trit],
    changed: &[u32],
) -> bool
    requires tables { AreTables chip.now.core (place_in chip.now.ranks) (cell_number chip.now.chip)
        tables.now }
    requires nets { length values.now ≡ length chip.now.core.nets }
    requires other_nets { length others.now ≡ length chip.now.core.nets }
    requires known { All (λ net. net < length chip.now.core.nets) changed.now }
    ensures { IsTrue result
        → All (IsChangedInside chip.now.core chip.now.lists values.now others.now) changed.now }
{
    chip.linked();
    for place in 0..changed.len() {
        let net = entry(changed, place);
        if chip.is_observed(net as u32) {
            return false;
        }
        if !are_readers_inside(chip, tables, values, others, net) {
            return false;
        }
    }
    true
}
