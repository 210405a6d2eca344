//! The names of defects.

ghost use Rattle.std.specs.Prelude.{◌≡◌, ◌++◌, ◌<◌, All, length, map, IfOk, IsTrue, ◌↔◌};
ghost use Rattle.ca_lex.specs.Words.{upper_case};
ghost use Rattle.ca_cell.specs.Raw.{circuit_of};
ghost use Rattle.ca_cell.specs.List.{IsDefectOf};
ghost use Rattle.ca_cell.specs.Name.{node_name, device_name, drain_letter, source_letter, mark_of, name_of};

use crate::cell::Cell;
use crate::defect::Defect;
use crate::list::DefectList;
use crate::listing::has_gate_at;
use ca_base::NoMemory;
use ca_lex::{Names, Text, fold};
use ca_net::{DeviceId, NodeId};
use std::alloc::Global;

/// What the name of a defect is made of: the names of a device or of nodes as they are kept, and the mark
/// after the first.
#[derive(Clone, Copy)]
pub(crate) struct Parts<'a> {
    pub(crate) first: &'a [u8],
    pub(crate) mark: &'static [u8],
    pub(crate) second: &'a [u8],
}

/// The name of a defect of the cell, in upper case.
pub fn defect_name(alloc: Global, cell: &Cell, defect: Defect) -> Result<Text, NoMemory>
    requires { IsDefectOf cell.now defect }
    ensures { IfOk result (λ text. text ≡ name_of cell.now defect) }
{
    let parts = parts_of(cell, defect);
    let mut text = fold(alloc, parts.first)?;
    text.append(parts.mark)?;
    text.append(fold(alloc, parts.second)?.as_bytes())?;
    Ok(text)
}

/// The names of defects of the cell, in the order of the list.
pub fn defect_names(alloc: Global, cell: &Cell, list: &DefectList) -> Result<Names, NoMemory>
    requires { All (IsDefectOf cell.now) list.now }
    ensures { IfOk result (λ names. names ≡ map (name_of cell.now) list.now) }
{
    let mut names = Names::new(alloc);
    for defect in list.as_slice() {
        names.push(defect_name(alloc, cell, *defect)?)?;
    }
    Ok(names)
}

/// The parts of the name of a defect of the cell.
pub(crate) fn parts_of(cell: &Cell, defect: Defect) -> Parts<'_>
    requires { IsDefectOf cell.now defect }
    ensures name { upper_case result.first.now ++ (result.mark.now ++ upper_case result.second.now)
        ≡ name_of cell.now defect }
    ensures mark { upper_case result.mark.now ≡ result.mark.now }
{
    match defect {
        Defect::OpenDrain(opened) => of_device(cell, opened, drain_mark(has_gate_at(cell, opened))),
        Defect::OpenSource(opened) => of_device(
            cell,
            opened,
            source_mark(has_gate_at(cell, opened)),
        ),
        Defect::OpenGate(opened) => of_device(cell, opened, b"(G)"),
        Defect::OpenPin(pin) => Parts {
            first: node_name(cell, pin),
            mark: b"(P)",
            second: b"",
        },
        Defect::Short(low, high) => Parts {
            first: node_name(cell, low),
            mark: b"=",
            second: node_name(cell, high),
        },
    }
}

// The mark of an open at the drain of a device that has a gate, or of one that has none.
fn drain_mark(gated: bool) -> &'static [u8]
    ensures mark { result.now ≡ mark_of (drain_letter gated) }
    ensures upper { upper_case result.now ≡ result.now }
{
    if gated { b"(D)" } else { b"(1)" }
}

// The same of an open at the source.
fn source_mark(gated: bool) -> &'static [u8]
    ensures mark { result.now ≡ mark_of (source_letter gated) }
    ensures upper { upper_case result.now ≡ result.now }
{
    if gated { b"(S)" } else { b"(2)" }
}

// The parts of the name of an open at a terminal of a device.
fn of_device<'a>(cell: &'a Cell, opened: DeviceId, mark: &'static [u8]) -> Parts<'a>
    requires { opened.0 < length (circuit_of cell.now).devices }
    ensures name { upper_case result.first.now ++ (result.mark.now ++ upper_case result.second.now)
        ≡ upper_case (device_name cell.now opened.0) ++ mark.now }
    ensures mark { result.mark.now ≡ mark.now }
{
    Parts {
        first: cell.device_name(opened).as_bytes(),
        mark,
        second: b"",
    }
}

// The name of a node.
fn node_name(cell: &Cell, n: NodeId) -> &[u8]
    requires { n.0 < length (circuit_of cell.now).nodes }
    ensures { result.now ≡ node_name cell.now n.0 }
{
    cell.node_name(n).as_bytes()
}
