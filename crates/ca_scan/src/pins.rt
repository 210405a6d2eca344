//! The pins of scan instances.

ghost use Rattle.std.specs.Prelude.{◌<◌, length, slice_get, slice_index, OnOk};
ghost use Rattle.ca_linked.specs.Instances.{scans_of};
ghost use Rattle.ca_scan.specs.Chain.{IsScanAt, IsOnPin};
ghost use Rattle.ca_scan.specs.code.Kept.{nets_at, Adds};

use crate::tally::Tally;
use ca_base::NoMemory;
use ca_linked::{Chip, ScanPin};

/// The net of a pin of a scan instance, by its place among the scan instances.
pub(crate) fn scan_net(chip: &Chip, k: usize, pin: ScanPin) -> u32
    requires { k < length (scans_of chip.now) }
    ensures { IsOnPin chip.now pin (slice_index (scans_of chip.now) k) result }
{
    chip.scan_net(chip.scan(k), pin).0
}

/// Adds the nets that a scan instance puts on the scan path.
pub(crate) fn add_scan(tally: &mut Tally, chip: &Chip, k: usize) -> Result<(), NoMemory>
    requires { k < length (scans_of chip.now) }
    ensures { OnOk result (Adds (nets_at (slice_get chip.now.parts (slice_index (scans_of chip.now) k)))
        tally.old tally.new) }
{
    tally.add_all(&[
        scan_net(chip, k, ScanPin::Se),
        scan_net(chip, k, ScanPin::Ck),
        scan_net(chip, k, ScanPin::Hold),
        scan_net(chip, k, ScanPin::Si),
        scan_net(chip, k, ScanPin::So),
    ])
}
