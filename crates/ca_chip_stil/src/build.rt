//! What a STIL text needs of a linked chip.

ghost use Rattle.std.specs.Prelude.{◌≡◌, IfOk};
ghost use Rattle.ca_scan.specs.ChainFault.{AreAllChains};
ghost use Rattle.ca_chip_stil.specs.ChipStil.{stil_chip};

use crate::chains::chains_of;
use crate::names::{controls_of, data_names, signals_of};
use crate::ports::Ports;
use ca_base::NoMemory;
use ca_linked::Chip;
use ca_scan::Chains;
use ca_stil::StilChip;
use std::alloc::Global;

/// What a STIL text needs of a chip and its whole scan chains: its signals, its groups and its chains, by the
/// names of ports.
pub fn stil_chip(alloc: Global, chip: &Chip, chains: &Chains) -> Result<StilChip, NoMemory>
    requires { AreAllChains chip.now chains.now }
    ensures exact { IfOk result (λ made. made ≡ stil_chip chip.now chains.now) }
{
    let ports = Ports::of(alloc, chip)?;
    let signals = signals_of(alloc, chip)?;
    let inputs = data_names(alloc, chip, true)?;
    let outputs = data_names(alloc, chip, false)?;
    let controls = controls_of(alloc, chip, &ports)?;
    let chains = chains_of(alloc, chip, &ports, chains)?;
    Ok(StilChip {
        signals,
        inputs,
        outputs,
        controls,
        chains,
        scan_count: chip.scan_count(),
    })
}
