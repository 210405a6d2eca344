//! The last vectors that matter at the instances of a chip's regions.

ghost use Rattle.std.specs.Prelude.{◌≡◌, ◌<◌, length, IfOk, OnOk};
ghost use Rattle.std.specs.List.{All};
ghost use Rattle.ca_flat.specs.Chip.{count_of};
ghost use Rattle.ca_view.specs.Linked.{IsPlaced, place_in};
ghost use Rattle.ca_view.specs.Places.{cell_number};
ghost use Rattle.ca_sweep.specs.Tables.{AreTables, AreMarks};
ghost use Rattle.ca_every_vector.specs.code.Inside.{AreTriedMarks, IsKept};
ghost use Rattle.ca_every_vector.specs.code.Fixed.{AreFixed};
ghost use Rattle.ca_every_vector.specs.code.Region.{IsRegion, IsTried};

use crate::lists::entry;
use crate::regions::{Region, Regions, region_of};
use crate::tried::try_region;
use crate::vectors::MOST_VECTOR_BITS;
use ca_base::NoMemory;
use ca_net::Trit;
use ca_static::LastTable;
use ca_view::View;
use std::alloc::Global;

/// For each instance the vectors that may come last at its input pins where a flip of its outputs leaves what
/// is known, and whether all vectors were tried for it; and for each net the value that a constant gives it.
/// The rest is room: values of nets, those with flips, the nets that change and the instances that are
/// evaluated for one.
#[derive(Drop)]
pub(crate) struct Inside {
    pub(crate) masks: Vec<u64>,
    pub(crate) tried: Vec<bool>,
    fixed: Vec<Trit>,
    values: Vec<Trit>,
    others: Vec<Trit>,
    changed: Vec<u32>,
    touched: Vec<u32>,
}

// The most instances of regions, for each instance of the chip.
const MOST_TIMES: usize = 16;

// Takes memory. Nothing was tried.
fn reserve(alloc: Global, chip: &View<'_>, fixed: &[Trit]) -> Result<Inside, NoMemory>
    requires { AreFixed chip.now.core fixed.now }
    ensures { IfOk result (IsKept chip.now.core) }
{
    Ok(Inside {
        masks: vec![in alloc; 0u64; chip.instances()]?,
        tried: vec![in alloc; false; chip.instances()]?,
        fixed: fixed.to_vec(alloc)?,
        values: fixed.to_vec(alloc)?,
        others: fixed.to_vec(alloc)?,
        changed: Vec::new(alloc),
        touched: Vec::new(alloc),
    })
}

/// Marks these instances.
pub(crate) fn mark(parts: &[u32], masks: &[u64], tried: &mut [bool], chip: &View<'_>)
    requires placed { All (IsPlaced chip.now.core (place_in chip.now.ranks)) parts.now }
    requires parts { All (IsTried chip.now.core masks.now) parts.now }
    requires tried { AreMarks chip.now.core (IsTried chip.now.core masks.now) tried.old }
    ensures { AreMarks chip.now.core (IsTried chip.now.core masks.now) tried.new }
{
    let _ = (masks.len(), chip.instances());
    for place in 0..parts.len() {
        tried[entry(parts, place)] = true;
    }
}

// Tries a region.
fn add_region(
    chip: &View<'_>,
    tables: &[Option<LastTable>],
    region: &Region,
    inside: &mut Inside,
) -> Result<(), NoMemory>
    requires region { IsRegion chip.now.core (place_in chip.now.ranks) region.now }
    requires tables { AreTables chip.now.core (place_in chip.now.ranks) (cell_number chip.now.chip)
        tables.now }
    requires kept { IsKept chip.now.core inside.old }
    ensures { OnOk result (IsKept chip.now.core inside.new) }
{
    try_region(
        chip,
        tables,
        region,
        inside.fixed.as_slice(),
        &mut inside.values,
        &mut inside.others,
        &mut inside.changed,
        &mut inside.touched,
        &mut inside.masks,
    )?;
    mark(
        region.fresh.as_slice(),
        inside.masks.as_slice(),
        &mut inside.tried,
        chip,
    );
    Ok(())
}

// Tries the region of the instance at a place of the order, if it is in none yet and as long as instances are
// left. Answers how many are left then.
fn try_next(
    alloc: Global,
    chip: &View<'_>,
    tables: &[Option<LastTable>],
    order: &[Option<usize>],
    regions: &mut Regions<'_>,
    place: usize,
    left: usize,
    inside: &mut Inside,
) -> Result<usize, NoMemory>
    requires tables { AreTables chip.now.core (place_in chip.now.ranks) (cell_number chip.now.chip)
        tables.now }
    requires place { place < length order.now }
    requires kept { IsKept chip.now.core inside.old }
    ensures { IfOk result (λ left. IsKept chip.now.core inside.new) }
{
    chip.linked();
    let u = match order[place] {
        Some(u) => u,
        None => return Ok(left),
    };
    if left == 0 || u >= chip.instances() || u >= inside.tried.len() || inside.tried[u] {
        return Ok(left);
    }
    let inputs = match regions.find(u as u32)? {
        Some(inputs) => inputs,
        None => return Ok(left),
    };
    let tried = inside.tried.as_slice();
    let region = region_of(alloc, chip, order, &inputs, regions.found(), tried)?;
    add_region(chip, tables, &region, inside)?;
    Ok(left.saturating_sub(region.parts.len()))
}

/// Tries all regions of a chip, that of the first instance first, as long as they aren't too many.
pub(crate) fn find_inside(
    alloc: Global,
    chip: &View<'_>,
    tables: &[Option<LastTable>],
    order: &[Option<usize>],
    fixed: &[Trit],
) -> Result<Inside, NoMemory>
    requires tables { AreTables chip.now.core (place_in chip.now.ranks) (cell_number chip.now.chip)
        tables.now }
    requires fixed { AreFixed chip.now.core fixed.now }
    ensures { IfOk result (IsKept chip.now.core) }
{
    let mut inside = reserve(alloc, chip, fixed)?;
    let mut regions = Regions::new(alloc, chip, order, MOST_VECTOR_BITS)?;
    let mut left = chip.instances().saturating_mul(MOST_TIMES);
    for place in 0..order.len() {
        left = try_next(
            alloc,
            chip,
            tables,
            order,
            &mut regions,
            place,
            left,
            &mut inside,
        )?;
    }
    Ok(inside)
}
