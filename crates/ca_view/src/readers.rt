//! The readers of the nets of the core.

ghost use Rattle.std.specs.Prelude.{◌+◌, ◌^◌, ◌<◌, IfOk, OnOk};
ghost use Rattle.ca_linked.specs.Linked.{net_count};
ghost use Rattle.ca_linked.specs.Reading.{AreReadersOf};
ghost use Rattle.ca_view.specs.Readers.{AreFirstRows, AreRows};

use ca_base::NoMemory;
use ca_linked::{Chip, InstanceList, NetId};
use std::alloc::Global;

// The instances that read a net.
fn row_of(alloc: Global, chip: &Chip, net: NetId) -> Result<InstanceList, NoMemory>
    requires { net.0 < net_count chip.now }
    ensures { IfOk result (λ row. AreReadersOf chip.now net.0 row) }
{
    let readers = chip.readers(net);
    let mut row = InstanceList::new(alloc);
    for k in 0..readers.len() {
        row.push(readers.get(k))?;
    }
    Ok(row)
}

// Appends the row of the next net, if that is off the scan path.
#[tactic(auto, using(crate::proofs::ReaderLemmas::row_added, crate::proofs::ReaderLemmas::row_skipped))]
fn add_net(
    alloc: Global,
    chip: &Chip,
    net: NetId,
    rows: &mut Vec<InstanceList>,
) -> Result<(), NoMemory>
    requires known { net.0 < net_count chip.now }
    requires first { AreFirstRows chip.now net.0 rows.old.items }
    ensures { OnOk result (AreFirstRows chip.now (net.0 + 1) rows.new.items) }
{
    if chip.is_scan_path(net) {
        return Ok(());
    }
    let row = row_of(alloc, chip, net)?;
    Ok(rows.push(row)?)
}

/// For each net of the core the instances that read it.
#[tactic(auto, using(crate::proofs::ReaderLemmas::no_rows))]
pub(crate) fn rows_of(alloc: Global, chip: &Chip) -> Result<Vec<InstanceList>, NoMemory>
    requires few { net_count chip.now < 2 ^ 32 }
    ensures { IfOk result (λ rows. AreRows chip.now rows.items) }
{
    let mut rows = Vec::new(alloc);
    for net in 0..chip.nets() {
        add_net(alloc, chip, NetId(net as u32), &mut rows)?;
    }
    Ok(rows)
}
