//! The finders of a linked chip.

ghost use Rattle.std.specs.Prelude.{IfOk};
ghost use Rattle.ca_sweep.specs.Seen.{IsForChip};

use crate::outputs::output_nets;
use ca_base::NoMemory;
use ca_sweep::{Finder, LaneSweep, LanedFinder};
use ca_view::View;
use std::alloc::Global;

/// A finder for a bench on which pairs are credited one by one. All its memory is taken. Also answers out of
/// memory for a chip with 2^32 observed outputs.
pub fn reserve_finder<'a>(alloc: Global, view: &'a View<'a>) -> Result<Finder<'a>, NoMemory>
    ensures { IfOk result (IsForChip view.now.core view.now.ranks) }
{
    if view.output_count() > u32::MAX as usize {
        return Err(NoMemory);
    }
    let outputs = output_nets(alloc, view)?;
    Finder::reserve(alloc, view, outputs)
}

/// The same for a bench on which many pairs are credited, 64 at a time.
pub fn reserve_laned<'a>(alloc: Global, view: &'a View<'a>) -> Result<LanedFinder<'a>, NoMemory>
    ensures { IfOk result (IsForChip view.now.core view.now.ranks) }
{
    let outputs = output_nets(alloc, view)?;
    let lanes = LaneSweep::reserve(alloc, view, &outputs)?;
    let finder = reserve_finder(alloc, view)?;
    Ok(LanedFinder::new(finder, lanes))
}
