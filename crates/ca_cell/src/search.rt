//! The defect that a text names.

ghost use Rattle.std.specs.Prelude.{◌≡◌, ◌≢◌, ◌<◌, ◌++◌, ◌∷◌, [], ◌↔◌, ℕ, List, All, length, find, IsTrue};
ghost use Rattle.std.specs.Prelude.{IfSome, IfNone};
ghost use Rattle.ca_lex.specs.Words.{upper_case};
ghost use Rattle.ca_cell.specs.Raw.{is_input, role_count, circuit_of};
ghost use Rattle.ca_cell.specs.List.{each_from, device_opens, pin_open, short_of, shorts_of, defects_of};
ghost use Rattle.ca_cell.specs.List.{IsDefectOf};
ghost use Rattle.ca_cell.specs.Name.{name_of, is_called};

use crate::cell::Cell;
use crate::defect::{Defect, is_short};
use crate::listing::has_gate_at;
use crate::names::parts_of;
use ca_net::{DeviceId, Network, NodeId};

/// The first defect of the cell that the text names in upper or lower case; none where the text is the name
/// of no defect. It takes no memory.
pub fn parse_defect(cell: &Cell, text: &[u8]) -> Option<Defect>
    ensures first { result ≡ find (is_called cell.now text.now) (defects_of cell.now) }
    ensures some { IfSome result (λ defect. name_of cell.now defect ≡ upper_case text.now) }
    ensures listed { IfSome result (IsDefectOf cell.now) }
    ensures none { IfNone result (All (λ defect. name_of cell.now defect ≢ upper_case text.now)
        (defects_of cell.now)) }
{
    find_listed(cell, text)
}

// The first defect that has the name.
fn find_listed(cell: &Cell, text: &[u8]) -> Option<Defect>
    ensures { result ≡ find (is_called cell.now text.now) (defects_of cell.now) }
{
    let found = find_device_open(cell, text);
    if found.is_some() {
        return found;
    }
    let found = find_pin_open(cell, text);
    if found.is_some() {
        return found;
    }
    find_short(cell, text)
}

// The first open of a device that has the name.
fn find_device_open(cell: &Cell, text: &[u8]) -> Option<Defect>
    ensures { result ≡ find (is_called cell.now text.now)
        (each_from (device_opens (circuit_of cell.now).devices) 0 (length (circuit_of cell.now).devices)) }
{
    for place in 0..cell.device_count() {
        let found = find_open_of(cell, text, DeviceId(place as u32));
        if found.is_some() {
            return found;
        }
    }
    None
}

// The first open of the device that has the name.
fn find_open_of(cell: &Cell, text: &[u8], device: DeviceId) -> Option<Defect>
    requires { device.0 < length (circuit_of cell.now).devices }
    ensures { result ≡ find (is_called cell.now text.now)
        (device_opens (circuit_of cell.now).devices device.0) }
{
    if is_called(cell, text, Defect::OpenDrain(device)) {
        Some(Defect::OpenDrain(device))
    } else if is_called(cell, text, Defect::OpenSource(device)) {
        Some(Defect::OpenSource(device))
    } else if has_gate_at(cell, device) && is_called(cell, text, Defect::OpenGate(device)) {
        Some(Defect::OpenGate(device))
    } else {
        None
    }
}

// The first open of an input pin that has the name.
#[tactic(auto, using(crate::proofs::CircuitWithLemmas::few_inputs))]
fn find_pin_open(cell: &Cell, text: &[u8]) -> Option<Defect>
    ensures { result ≡ find (is_called cell.now text.now)
        (each_from pin_open 0 (role_count is_input cell.now.pins)) }
{
    for before in 0..cell.inputs() {
        let found = if_called(cell, text, Defect::OpenPin(NodeId(2 + before as u32)));
        if found.is_some() {
            return found;
        }
    }
    None
}

// The first short that has the name.
fn find_short(cell: &Cell, text: &[u8]) -> Option<Defect>
    ensures { result ≡ find (is_called cell.now text.now)
        (each_from (shorts_of (length (circuit_of cell.now).nodes) (role_count is_input cell.now.pins)) 0
        (length (circuit_of cell.now).nodes)) }
{
    for low in 0..cell.node_count() {
        let found = find_short_of(cell, text, low);
        if found.is_some() {
            return found;
        }
    }
    None
}

// The first short of the node with higher ones that has the name.
fn find_short_of(cell: &Cell, text: &[u8], low: usize) -> Option<Defect>
    requires { low < length (circuit_of cell.now).nodes }
    ensures { result ≡ find (is_called cell.now text.now)
        (shorts_of (length (circuit_of cell.now).nodes) (role_count is_input cell.now.pins) low) }
{
    for high in 0..cell.node_count() {
        let found = find_short_at(cell, text, low, high);
        if found.is_some() {
            return found;
        }
    }
    None
}

// The short of the two nodes, if there is one and it has the name.
fn find_short_at(cell: &Cell, text: &[u8], low: usize, high: usize) -> Option<Defect>
    requires low { low < length (circuit_of cell.now).nodes }
    requires high { high < length (circuit_of cell.now).nodes }
    ensures { result ≡ find (is_called cell.now text.now)
        (short_of (role_count is_input cell.now.pins) low high) }
{
    let _nodes = cell.node_count();
    if is_short(cell.inputs(), low, high) {
        if_called(
            cell,
            text,
            Defect::Short(NodeId(low as u32), NodeId(high as u32)),
        )
    } else {
        None
    }
}

// The defect, if it has the name.
fn if_called(cell: &Cell, text: &[u8], defect: Defect) -> Option<Defect>
    requires { IsDefectOf cell.now defect }
    ensures { result ≡ find (is_called cell.now text.now) (defect ∷ []) }
{
    if is_called(cell, text, defect) {
        Some(defect)
    } else {
        None
    }
}

// Whether the text in upper case is the name of the defect.
fn is_called(cell: &Cell, text: &[u8], defect: Defect) -> bool
    requires { IsDefectOf cell.now defect }
    ensures { result ≡ is_called cell.now text.now defect }
{
    let parts = parts_of(cell, defect);
    let Some(after_first) = following(text, parts.first) else {
        return false;
    };
    let Some(after_mark) = following(after_first, parts.mark) else {
        return false;
    };
    is_alike(after_mark, parts.second)
}

// What follows a piece that the text begins with in upper or lower case.
fn following<'a>(text: &'a [u8], piece: &[u8]) -> Option<&'a [u8]>
    ensures some { IfSome result (λ rest. upper_case text.now ≡ upper_case piece.now ++ upper_case rest.now) }
    ensures none { IfNone result ((rest : List ℕ) → upper_case text.now ≢ upper_case piece.now ++ rest) }
{
    if text.len() < piece.len() {
        return None;
    }
    let (front, rest) = text.split_at(piece.len());
    if is_alike(front, piece) {
        Some(rest)
    } else {
        None
    }
}

// Whether the two texts are the same in upper case.
fn is_alike(text: &[u8], other: &[u8]) -> bool
    ensures { IsTrue result ↔ (upper_case text.now ≡ upper_case other.now) }
{
    text.eq_ignore_ascii_case(other)
}
