//! The table of the vectors that the pairs of a chip give at the pins of its instances.

ghost use Rattle.std.specs.Prelude.{◌≡◌, ◌<◌, ◌≤◌, ◌^◌, ◌↔◌, length, IfOk, IsTrue, None, Some};
ghost use Rattle.std.specs.List.{All};
ghost use Rattle.ca_net.specs.Circuit.{IsWellFormed};
ghost use Rattle.ca_flat.specs.Chip.{IsDefectIn};
ghost use Rattle.ca_flat.specs.Flat.{flat};
ghost use Rattle.ca_flat.specs.Rows.{ListsExposingRows};
ghost use Rattle.ca_flat.specs.Detection.{IsUntestable};
ghost use Rattle.ca_view.specs.Linked.{place_in};
ghost use Rattle.ca_every_vector.specs.declared.vectors.TheConstants.{MOST_VECTOR_BITS};
ghost use Rattle.ca_every_vector.specs.Possible.{Has};
ghost use Rattle.ca_every_vector.specs.code.Masks.{HaveFirsts, HaveLasts, IsRowOut};

use crate::find::{find_firsts, find_lasts};
use crate::fixed::fixed_values;
use crate::inside::find_inside;
use crate::laws::{impossible_is_untestable, outside_is_untestable};
use crate::sure::sure_instances;
use crate::vectors::MOST_VECTOR_BITS;
use crate::wanted::find_wanted;
use ca_base::NoMemory;
use ca_cell::Rows;
use ca_flat::ChipDefect;
use ca_net::State;
use ca_sim::Sim;
use ca_sweep::{Sweep, order_of, tables_of};
use ca_view::View;
use std::alloc::Global;
use std::marker::Model;

/// For each instance of a chip the vectors of its input pins that some pair of the chip may give first, and
/// those that one may give last where a flip of its outputs may be seen: two words of 64 bits for each
/// instance. Of a chip whose vectors have more than `MOST_VECTOR_BITS` bits the last ones alone are known, of
/// instances whose outputs hang on so few chip inputs: for each instance it has a word and two marks then.
#[derive(Drop)]
pub struct EveryVector<'a> {
    chip: &'a View<'a>,
    firsts: Vec<u64>,
    lasts: Vec<u64>,
    tried: Vec<bool>,
    sure: Vec<bool>,
}

impl<'a> Model for EveryVector<'a> {
    ghost use Rattle.ca_flat.specs.Chip.{Chip};
    ghost use Rattle.ca_view.specs.Linked.{place_in};
    ghost use Rattle.ca_every_vector.specs.code.Masks.{IsTable};
    ghost use Rattle.ca_every_vector.specs.code.Inside.{AreBoth, IsInsideTable};

    ghost Value = { Chip };

    ghost view = { λ table. table.chip.now.core };

    ghost invariant = { λ table. AreBoth
        (IsTable table.chip.now.core (place_in table.chip.now.ranks) table.firsts.items table.lasts.items)
        (IsInsideTable table.chip.now.core table.lasts.items table.tried.items table.sure.items) };
}

impl<'a> EveryVector<'a> {
    /// Tries all vectors of a chip, or of the regions of one whose vectors have too many bits.
    pub fn new(alloc: Global, chip: &'a View<'a>) -> Result<Self, NoMemory>
        ensures { IfOk result (λ table. table ≡ chip.now.core) }
    {
        if chip.input_count() > MOST_VECTOR_BITS {
            return by_regions(alloc, chip);
        }
        if chip.output_count() > u32::MAX as usize {
            return Ok(EveryVector {
                chip,
                firsts: Vec::new(alloc),
                lasts: Vec::new(alloc),
                tried: Vec::new(alloc),
                sure: Vec::new(alloc),
            });
        }
        let firsts = first_masks(alloc, chip)?;
        let lasts = last_masks(alloc, chip)?;
        Ok(EveryVector {
            chip,
            firsts,
            lasts,
            tried: Vec::new(alloc),
            sure: Vec::new(alloc),
        })
    }

    /// Tries all vectors of the regions of some instances of a chip: those of which some last vectors are
    /// wanted, a word with a bit for each. Regions have more inputs here. They are looked at as long as not
    /// too many instances are evaluated in all.
    pub fn of_wanted(alloc: Global, chip: &'a View<'a>, wanted: &[u64]) -> Result<Self, NoMemory>
        ensures { IfOk result (λ table. table ≡ chip.now.core) }
    {
        by_wanted(alloc, chip, wanted)
    }

    /// Whether the rows of a defect show that no pair of the chip detects it: none of them is possible, or
    /// none has a last vector that matters.
    pub fn is_untestable(&self, defect: ChipDefect, rows: &Rows) -> bool
        requires defect { IsDefectIn self.now defect }
        requires rows { ListsExposingRows self.now defect rows.now }
        requires good_is { IsWellFormed (flat self.now None) }
        requires faulty_is { IsWellFormed (flat self.now (Some defect)) }
        ensures { IsTrue result → IsUntestable self.now defect }
    {
        self.is_impossible(defect, rows) || self.is_outside(defect, rows)
    }

    // Whether none of the rows is possible.
    fn is_impossible(&self, defect: ChipDefect, rows: &Rows) -> bool
        requires defect { IsDefectIn self.now defect }
        requires rows { ListsExposingRows self.now defect rows.now }
        requires good_is { IsWellFormed (flat self.now None) }
        requires faulty_is { IsWellFormed (flat self.now (Some defect)) }
        ensures { IsTrue result → IsUntestable self.now defect }
    {
        impossible_is_untestable();
        self.chip.linked();
        let u = defect.instance as usize;
        if u >= self.firsts.len() || u >= self.lasts.len() || self.chip.rank(u) == 0 {
            return false;
        }
        are_all_out(rows, self.firsts[u], self.lasts[u])
    }

    // Whether none of the rows has a last vector under which a flip leaves what is known.
    fn is_outside(&self, defect: ChipDefect, rows: &Rows) -> bool
        requires defect { IsDefectIn self.now defect }
        requires rows { ListsExposingRows self.now defect rows.now }
        requires good_is { IsWellFormed (flat self.now None) }
        requires faulty_is { IsWellFormed (flat self.now (Some defect)) }
        ensures { IsTrue result → IsUntestable self.now defect }
    {
        outside_is_untestable();
        self.chip.linked();
        let u = defect.instance as usize;
        if u >= self.lasts.len() || !is_marked(&self.tried, u) || !is_marked(&self.sure, u) {
            return false;
        }
        are_lasts_out(rows, self.lasts[u])
    }
}

// The table of a chip, of the wanted last vectors of some instances alone.
fn by_wanted<'a>(
    alloc: Global,
    chip: &'a View<'a>,
    wanted: &[u64],
) -> Result<EveryVector<'a>, NoMemory>
    ensures { IfOk result (λ table. table ≡ chip.now.core) }
{
    let tables = tables_of(alloc, chip)?;
    let order = order_of(alloc, chip)?;
    let fixed = fixed_values(alloc, chip)?;
    let sure = sure_instances(alloc, chip, &tables, order.as_slice(), fixed.as_slice())?;
    let found = find_wanted(
        alloc,
        chip,
        tables.as_slice(),
        order.as_slice(),
        fixed.as_slice(),
        wanted,
    )?;
    Ok(EveryVector {
        chip,
        firsts: Vec::new(alloc),
        lasts: found.masks,
        tried: found.tried,
        sure,
    })
}

// The table of a chip whose regions are tried.
fn by_regions<'a>(alloc: Global, chip: &'a View<'a>) -> Result<EveryVector<'a>, NoMemory>
    ensures { IfOk result (λ table. table ≡ chip.now.core) }
{
    let tables = tables_of(alloc, chip)?;
    let order = order_of(alloc, chip)?;
    let fixed = fixed_values(alloc, chip)?;
    let sure = sure_instances(alloc, chip, &tables, order.as_slice(), fixed.as_slice())?;
    let inside = find_inside(
        alloc,
        chip,
        tables.as_slice(),
        order.as_slice(),
        fixed.as_slice(),
    )?;
    Ok(EveryVector {
        chip,
        firsts: Vec::new(alloc),
        lasts: inside.masks,
        tried: inside.tried,
        sure,
    })
}

// Whether an instance is marked.
fn is_marked(marks: &[bool], u: usize) -> bool
    ensures { IsTrue result → is_marked marks.now u ≡ true }
{
    u < marks.len() && marks[u]
}

ghost use Rattle.std.specs.Prelude.{true};
ghost use Rattle.ca_sweep.specs.Tables.{is_marked};
ghost use Rattle.ca_every_vector.specs.code.Inside.{IsLastOut};

// Whether each row has its last vector out of the mask.
fn are_lasts_out(rows: &Rows, lasts: u64) -> bool
    ensures { IsTrue result → All (IsLastOut lasts) rows.now }
{
    for place in 0..rows.len() {
        if has(lasts, rows.get(place).last) {
            return false;
        }
    }
    true
}

// For each instance the vectors that come first at its input pins.
fn first_masks(alloc: Global, chip: &View<'_>) -> Result<Vec<u64>, NoMemory>
    requires few { length chip.now.core.inputs ≤ MOST_VECTOR_BITS }
    ensures { IfOk result (λ masks. HaveFirsts chip.now.core (place_in chip.now.ranks)
        (2 ^ length chip.now.core.inputs) masks.items) }
{
    let mut masks = vec![in alloc; 0u64; chip.instances()]?;
    let mut values = State::unknown(alloc, chip.nets())?;
    let mut sim = Sim::reserve(alloc, chip)?;
    find_firsts(chip, &mut sim, &mut values, &mut masks);
    Ok(masks)
}

// For each instance the vectors that come last at its input pins where a flip of its outputs may be seen.
fn last_masks(alloc: Global, chip: &View<'_>) -> Result<Vec<u64>, NoMemory>
    requires few { length chip.now.core.inputs ≤ MOST_VECTOR_BITS }
    requires few_outputs { length chip.now.core.outputs < 2 ^ 32 }
    ensures { IfOk result (λ masks. HaveLasts chip.now.core (place_in chip.now.ranks)
        (2 ^ length chip.now.core.inputs) masks.items) }
{
    let mut masks = vec![in alloc; 0u64; chip.instances()]?;
    let mut values = State::unknown(alloc, chip.nets())?;
    let outputs = output_nets(alloc, chip)?;
    let mut sim = Sim::reserve(alloc, chip)?;
    let mut sweep = Sweep::reserve(alloc, chip, outputs)?;
    find_lasts(chip, &mut sim, &mut sweep, &mut values, &mut masks);
    Ok(masks)
}

// The nets of the observed outputs, in their order.
fn output_nets(alloc: Global, chip: &View<'_>) -> Result<Vec<u32>, NoMemory>
    ensures { IfOk result (λ nets. nets.items ≡ chip.now.core.outputs) }
{
    chip.linked();
    let mut nets = Vec::new(alloc);
    for output in 0..chip.output_count() {
        nets.push(chip.output(output) as u32)?;
    }
    Ok(nets)
}

// Whether the mask has the number.
fn has(mask: u64, number: u8) -> bool
    ensures { IsTrue result ↔ Has mask number }
{
    number < 64 && (mask >> number) & 1 == 1
}

// Whether each row has its first vector out of the one mask or its last out of the other.
fn are_all_out(rows: &Rows, firsts: u64, lasts: u64) -> bool
    ensures { IsTrue result → All (IsRowOut firsts lasts) rows.now }
{
    for place in 0..rows.len() {
        let row = rows.get(place);
        if has(firsts, row.first) && has(lasts, row.last) {
            return false;
        }
    }
    true
}
