//! The table of credits before the first pair.

ghost use Rattle.std.specs.Prelude.{◌<◌, ◌+◌, length, IfOk};
ghost use Rattle.ca_grade.specs.code.Table.{AreMarkedUpTo};

use ca_base::NoMemory;
use ca_credit::{Credits, Verdict};
use ca_generate::Bench;
use std::alloc::Global;

// Marks a defect that can't be exposed.
fn mark<B: Bench>(credits: &mut Credits, bench: &B, place: usize)
    requires within { place < length (B.task bench.now).defects }
    requires marked { AreMarkedUpTo (B.task bench.now) place credits.old }
    ensures { AreMarkedUpTo (B.task bench.now) (place + 1) credits.new }
{
    if !bench.is_exposable(place) {
        credits.settle(place, Verdict::Unexposable);
    }
}

/// The table in which the defects that can't be exposed are marked.
pub(crate) fn marked<B: Bench>(alloc: Global, bench: &B) -> Result<Credits, NoMemory>
    ensures { IfOk result (AreMarkedUpTo (B.task bench.now) (length (B.task bench.now).defects)) }
{
    let count = bench.defect_count();
    let mut credits = Credits::reserve(alloc, count)?;
    for place in 0..count {
        mark(&mut credits, bench, place);
    }
    Ok(credits)
}
