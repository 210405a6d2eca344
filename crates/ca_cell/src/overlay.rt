//! A cell with a defect, as a network that borrows the cell.

ghost use Rattle.std.specs.Prelude.{◌≡◌};
ghost use Rattle.ca_cell.specs.List.{IsDefectOf};

use crate::cell::Cell;
use crate::defect::{Defect, changed_device};
use ca_net::{Device, DeviceId, Network, NodeId, NodeKind};
use std::marker::Model;

/// The network of a cell with one of its defects, which contracts see as the cell's subcircuit with the
/// defect. It borrows the cell and copies nothing.
#[derive(Drop)]
pub struct Overlay<'a> {
    cell: &'a Cell,
    defect: Defect,
}

impl<'a> Model for Overlay<'a> {
    ghost use Rattle.ca_cell.specs.Overlay.{Faulty};
    ghost use Rattle.ca_cell.specs.code.Overlay.{IsFaulty};

    ghost Value = { Faulty };

    ghost view = { λ overlay. record { raw = overlay.cell.now; defect = overlay.defect } };

    ghost invariant = { λ overlay. IsFaulty overlay.cell.now overlay.defect };
}

impl<'a> Overlay<'a> {
    /// The cell with one of its defects.
    pub fn new(cell: &'a Cell, defect: Defect) -> Self
        requires { IsDefectOf cell.now defect }
        ensures { result ≡ record { raw = cell.now; defect = defect } }
    {
        let _raw = cell.raw();
        Overlay { cell, defect }
    }

    /// The cell.
    pub fn cell(&self) -> &'a Cell
        ensures { result.now ≡ self.now.raw }
    {
        self.cell
    }

    /// The defect.
    pub fn defect(&self) -> Defect
        ensures same { result ≡ self.now.defect }
        ensures listed { IsDefectOf self.now.raw self.now.defect }
    {
        self.defect
    }
}

impl Network for Overlay<'_> {
    ghost use Rattle.ca_cell.specs.List.{faulty_of};

    ghost circuit = { λ overlay. faulty_of overlay.raw overlay.defect };

    fn node_count(&self) -> usize {
        let nodes = self.cell.node_count();
        match self.defect.new_node() {
            Some(_) => nodes + 1,
            None => nodes,
        }
    }

    #[tactic(auto, using(crate::proofs::CircuitWithLemmas::one_more_device, crate::proofs::CircuitWithLemmas::no_more_devices))]
    fn device_count(&self) -> usize {
        let devices = self.cell.device_count();
        match self.defect.new_device() {
            Some(_) => devices + 1,
            None => devices,
        }
    }

    fn kind(&self, n: NodeId) -> NodeKind {
        if (n.0 as usize) < self.cell.node_count() {
            self.cell.kind(n)
        } else {
            self.defect.new_node().unwrap()
        }
    }

    #[tactic(auto, using(crate::proofs::CircuitWithLemmas::slice_get_kept, crate::proofs::CircuitWithLemmas::adds_device, crate::proofs::CircuitWithLemmas::device_added))]
    fn device(&self, d: DeviceId) -> Device {
        if (d.0 as usize) < self.cell.device_count() {
            let new = NodeId(self.cell.node_count() as u32);
            changed_device(self.defect, new, d, self.cell.device(d))
        } else {
            self.defect.new_device().unwrap()
        }
    }
}
