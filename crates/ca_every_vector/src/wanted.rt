//! The last vectors that matter at some instances of a chip, of each of which some are wanted.

ghost use Rattle.std.specs.Prelude.{◌≡◌, length, IfOk, OnOk};
ghost use Rattle.std.specs.List.{All};
ghost use Rattle.ca_planes.specs.Trits.{trit_in};
ghost use Rattle.ca_flat.specs.Chip.{count_of};
ghost use Rattle.ca_view.specs.Linked.{IsPlaced, place_in};
ghost use Rattle.ca_view.specs.Places.{cell_number};
ghost use Rattle.ca_sweep.specs.Tables.{AreTables};
ghost use Rattle.ca_every_vector.specs.code.Fixed.{AreFixed};
ghost use Rattle.ca_every_vector.specs.code.Inside.{AreTriedMarks};
ghost use Rattle.ca_every_vector.specs.code.Lanes.{AreFixedLanes, InEach};
ghost use Rattle.ca_every_vector.specs.code.Region.{IsRegion};
ghost use Rattle.ca_every_vector.specs.code.Wide.{IsKeptWide};

use crate::inside::mark;
use crate::lane_tried::{block_count, try_lanes};
use crate::lists::{at, entry};
use crate::regions::{Region, Regions, region_of};
use crate::vectors::{FEW_REGION_BITS, MOST_REGION_BITS};
use ca_base::NoMemory;
use ca_net::Trit;
use ca_planes::{ALL_LANES, Block, Trits};
use ca_static::LastTable;
use ca_view::View;
use std::alloc::Global;

/// For each instance the vectors that may come last at its input pins where a flip of its outputs leaves what
/// is known, and those that aren't wanted; whether all vectors were tried for it; and whether it was looked
/// at. The rest is room: the values that constants give nets, values of nets in 64 lanes, those with flips,
/// the nets that change, the instances that are evaluated for one, and the lanes of vectors.
#[derive(Drop)]
pub(crate) struct Wide {
    pub(crate) masks: Vec<u64>,
    pub(crate) tried: Vec<bool>,
    looked: Vec<bool>,
    fixed: Block,
    values: Block,
    others: Block,
    changed: Vec<u32>,
    touched: Vec<u32>,
    room: Vec<u64>,
}

// The most evaluations of an instance for 64 vectors, of all regions together.
const MOST_EVALUATIONS: usize = 2_097_152;

// A value in all lanes.
fn in_all(value: Trit) -> Trits
    ensures { InEach (λ lane. trit_in result lane ≡ value) }
{
    match value {
        Trit::Zero => Trits {
            zero: ALL_LANES,
            one: 0,
        },
        Trit::One => Trits {
            zero: 0,
            one: ALL_LANES,
        },
        Trit::X => Trits::unknown(),
    }
}

// The values that constants give nets, in all lanes.
fn fixed_lanes(alloc: Global, chip: &View<'_>, fixed: &[Trit]) -> Result<Block, NoMemory>
    requires { AreFixed chip.now.core fixed.now }
    ensures { IfOk result (AreFixedLanes chip.now.core) }
{
    let _ = chip.nets();
    let mut block = Block::reserve(alloc, fixed.len())?;
    for net in 0..fixed.len() {
        block.set(net, in_all(at(fixed, net)));
    }
    Ok(block)
}

// Takes memory. Nothing was tried.
fn reserve(alloc: Global, chip: &View<'_>, fixed: &[Trit]) -> Result<Wide, NoMemory>
    requires { AreFixed chip.now.core fixed.now }
    ensures { IfOk result (IsKeptWide chip.now.core) }
{
    Ok(Wide {
        masks: vec![in alloc; 0u64; chip.instances()]?,
        tried: vec![in alloc; false; chip.instances()]?,
        looked: vec![in alloc; false; chip.instances()]?,
        fixed: fixed_lanes(alloc, chip, fixed)?,
        values: fixed_lanes(alloc, chip, fixed)?,
        others: fixed_lanes(alloc, chip, fixed)?,
        changed: Vec::new(alloc),
        touched: Vec::new(alloc),
        room: vec![in alloc; 0u64; 64]?,
    })
}

// A word of a list; past its end 0.
fn word_at(words: &[u64], u: usize) -> u64 {
    if u < words.len() { words[u] } else { 0 }
}

// A mark of a list; past its end none.
fn is_set(marks: &[bool], u: usize) -> bool {
    u < marks.len() && marks[u]
}

// Whether an instance is still to be tried: some vector is wanted of it, and it isn't known that none of
// these matters.
fn is_due(wide: &Wide, wanted: &[u64], u: usize) -> bool {
    if is_set(&wide.looked, u) || word_at(wanted, u) == 0 {
        return false;
    }
    !is_set(&wide.tried, u) || word_at(&wide.masks, u) & word_at(wanted, u) != 0
}

// The instances that aren't to be tried.
fn skipped(
    alloc: Global,
    chip: &View<'_>,
    wide: &Wide,
    wanted: &[u64],
) -> Result<Vec<bool>, NoMemory> {
    let mut marks = Vec::new(alloc);
    for u in 0..chip.instances() {
        marks.push(!is_due(wide, wanted, u))?;
    }
    Ok(marks)
}

// An instance isn't tried: its mask has all vectors that aren't wanted.
fn begin(
    chip: &View<'_>,
    masks: &mut [u64],
    tried: &mut [bool],
    looked: &mut [bool],
    wanted: &[u64],
    u: usize,
)
    requires placed { IsPlaced chip.now.core (place_in chip.now.ranks) u }
    requires masks { length masks.old ≡ count_of chip.now.core }
    requires tried { AreTriedMarks chip.now.core masks.old tried.old }
    ensures masks { length masks.new ≡ count_of chip.now.core }
    ensures tried { AreTriedMarks chip.now.core masks.new tried.new }
{
    let _ = chip.instances();
    tried[u] = false;
    masks[u] = !word_at(wanted, u);
    if u < looked.len() {
        looked[u] = true;
    }
}

// So are all instances of a list.
fn begin_all(chip: &View<'_>, wide: &mut Wide, wanted: &[u64], fresh: &[u32])
    requires placed { All (IsPlaced chip.now.core (place_in chip.now.ranks)) fresh.now }
    requires kept { IsKeptWide chip.now.core wide.old }
    ensures { IsKeptWide chip.now.core wide.new }
{
    for place in 0..fresh.len() {
        begin(
            chip,
            &mut wide.masks,
            &mut wide.tried,
            &mut wide.looked,
            wanted,
            entry(fresh, place),
        );
    }
}

// Tries a region.
fn add_region(
    chip: &View<'_>,
    tables: &[Option<LastTable>],
    region: &Region,
    wanted: &[u64],
    wide: &mut Wide,
) -> Result<(), NoMemory>
    requires region { IsRegion chip.now.core (place_in chip.now.ranks) region.now }
    requires tables { AreTables chip.now.core (place_in chip.now.ranks) (cell_number chip.now.chip)
        tables.now }
    requires kept { IsKeptWide chip.now.core wide.old }
    ensures { OnOk result (IsKeptWide chip.now.core wide.new) }
{
    begin_all(chip, wide, wanted, region.fresh.as_slice());
    let all = try_lanes(
        chip,
        tables,
        region,
        &wide.fixed,
        &mut wide.values,
        &mut wide.others,
        &mut wide.changed,
        &mut wide.touched,
        &mut wide.room,
        &mut wide.masks,
    )?;
    if !all {
        return Ok(());
    }
    mark(
        region.fresh.as_slice(),
        wide.masks.as_slice(),
        &mut wide.tried,
        chip,
    );
    Ok(())
}

// Tries a region, if not too many evaluations are left for it. Answers how many are left then.
fn try_region(
    chip: &View<'_>,
    tables: &[Option<LastTable>],
    region: &Region,
    wanted: &[u64],
    left: usize,
    wide: &mut Wide,
) -> Result<usize, NoMemory>
    requires region { IsRegion chip.now.core (place_in chip.now.ranks) region.now }
    requires tables { AreTables chip.now.core (place_in chip.now.ranks) (cell_number chip.now.chip)
        tables.now }
    requires kept { IsKeptWide chip.now.core wide.old }
    ensures { IfOk result (λ left. IsKeptWide chip.now.core wide.new) }
{
    let cost = block_count(region.inputs.len()).saturating_mul(region.parts.len());
    if cost > left {
        return Ok(left);
    }
    add_region(chip, tables, region, wanted, wide)?;
    Ok(left - cost)
}

// The instance at a place of the order, if it is due.
fn due_at(
    chip: &View<'_>,
    order: &[Option<usize>],
    place: usize,
    wide: &Wide,
    wanted: &[u64],
) -> Option<u32> {
    chip.linked();
    if place >= order.len() {
        return None;
    }
    match order[place] {
        Some(u) if u < chip.instances() && is_due(wide, wanted, u) => Some(u as u32),
        Some(_) | None => None,
    }
}

// Tries the region of the instance at a place of the order, if that is due. Answers how many evaluations are
// left then.
fn try_next(
    alloc: Global,
    chip: &View<'_>,
    tables: &[Option<LastTable>],
    order: &[Option<usize>],
    regions: &mut Regions<'_>,
    wanted: &[u64],
    place: usize,
    left: usize,
    wide: &mut Wide,
) -> Result<usize, NoMemory>
    requires tables { AreTables chip.now.core (place_in chip.now.ranks) (cell_number chip.now.chip)
        tables.now }
    requires kept { IsKeptWide chip.now.core wide.old }
    ensures { IfOk result (λ left. IsKeptWide chip.now.core wide.new) }
{
    let u = match due_at(chip, order, place, wide, wanted) {
        Some(u) => u,
        None => return Ok(left),
    };
    let inputs = match regions.find(u)? {
        Some(inputs) => inputs,
        None => return Ok(left),
    };
    let skip = skipped(alloc, chip, wide, wanted)?;
    let region = region_of(
        alloc,
        chip,
        order,
        &inputs,
        regions.found(),
        skip.as_slice(),
    )?;
    try_region(chip, tables, &region, wanted, left, wide)
}

// Tries regions of at most this many inputs. Answers how many evaluations are left then.
fn try_wide(
    alloc: Global,
    chip: &View<'_>,
    tables: &[Option<LastTable>],
    order: &[Option<usize>],
    wanted: &[u64],
    most: usize,
    left: usize,
    wide: &mut Wide,
) -> Result<usize, NoMemory>
    requires tables { AreTables chip.now.core (place_in chip.now.ranks) (cell_number chip.now.chip)
        tables.now }
    requires kept { IsKeptWide chip.now.core wide.old }
    ensures { IfOk result (λ left. IsKeptWide chip.now.core wide.new) }
{
    let mut left = left;
    let mut regions = Regions::new(alloc, chip, order, most)?;
    wide.looked.fill(false);
    for place in 0..order.len() {
        left = try_next(
            alloc,
            chip,
            tables,
            order,
            &mut regions,
            wanted,
            place,
            left,
            wide,
        )?;
    }
    Ok(left)
}

/// Tries the regions of the instances of which some last vectors are wanted: small ones first, and wider ones
/// for those of which some of these vectors matter there.
pub(crate) fn find_wanted(
    alloc: Global,
    chip: &View<'_>,
    tables: &[Option<LastTable>],
    order: &[Option<usize>],
    fixed: &[Trit],
    wanted: &[u64],
) -> Result<Wide, NoMemory>
    requires tables { AreTables chip.now.core (place_in chip.now.ranks) (cell_number chip.now.chip)
        tables.now }
    requires fixed { AreFixed chip.now.core fixed.now }
    ensures { IfOk result (IsKeptWide chip.now.core) }
{
    let mut wide = reserve(alloc, chip, fixed)?;
    let left = try_wide(
        alloc,
        chip,
        tables,
        order,
        wanted,
        FEW_REGION_BITS,
        MOST_EVALUATIONS,
        &mut wide,
    )?;
    try_wide(
        alloc,
        chip,
        tables,
        order,
        wanted,
        MOST_REGION_BITS,
        left,
        &mut wide,
    )?;
    Ok(wide)
}
