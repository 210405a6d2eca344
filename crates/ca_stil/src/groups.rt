//! The signals and the groups.

ghost use Rattle.std.specs.Prelude.{◌≡◌, ◌++◌, ◌<◌, length, map, OnOk, codes};
ghost use Rattle.std.specs.List.{flat_map};
ghost use Rattle.ca_stil.specs.Chip.{ends_of};
ghost use Rattle.ca_stil.specs.Groups.{direction_word, signal_text, signals_text, group_text, group_if_any};
ghost use Rattle.ca_stil.specs.Groups.{scan_groups_text, scan_groups_if_any, groups_text};

use crate::chip::{End, Signal, StilChain, StilChip};
use crate::words::{push_ends, push_names, push_quoted};
use ca_base::NoMemory;
use ca_lex::{Names, Text};

fn direction_word(input: bool) -> &'static [u8]
    ensures { result.now ≡ direction_word input }
{
    if input { b"In" } else { b"Out" }
}

// Appends the line of a signal.
#[tactic(auto, unfolding(crate::specs::Groups::signal_text))]
fn push_signal(text: &mut Text, signal: &Signal) -> Result<(), NoMemory>
    ensures { OnOk result (text.new ≡ text.old ++ signal_text signal.now) }
{
    text.append(b"  ")?;
    push_quoted(text, signal.name.as_bytes())?;
    text.append(b" ")?;
    text.append(direction_word(signal.is_input))?;
    text.append(b";\n")
}

/// Appends the block of the signals.
#[tactic(auto, unfolding(crate::specs::Groups::signals_text))]
pub(crate) fn push_signals(text: &mut Text, signals: &[Signal]) -> Result<(), NoMemory>
    ensures { OnOk result (text.new ≡ text.old ++ signals_text signals.now) }
{
    text.append(b"Signals {\n")?;
    for signal in signals {
        push_signal(text, signal)?;
    }
    text.append(b"}\n")
}

// Appends the line of a group.
#[tactic(auto, unfolding(crate::specs::Groups::group_text))]
fn push_group(text: &mut Text, group: &[u8], names: &[Text]) -> Result<(), NoMemory>
    ensures { OnOk result (text.new ≡ text.old ++ group_text group.now names.now) }
{
    text.append(b"  ")?;
    push_quoted(text, group)?;
    text.append(b"='")?;
    push_names(text, names)?;
    text.append(b"';\n")
}

// Appends the line of a group that has members.
fn push_group_if_any(text: &mut Text, group: &[u8], names: &Names) -> Result<(), NoMemory>
    ensures { OnOk result (text.new ≡ text.old ++ group_if_any group.now names.now) }
{
    match names.as_slice() {
        [] => Ok(()),
        names @ [_, ..] => push_group(text, group, names),
    }
}

// Appends the line of a group of the chains' ports.
#[tactic(auto, unfolding(crate::specs::Groups::group_text))]
fn push_group_of_ends(
    text: &mut Text,
    group: &[u8],
    chains: &[StilChain],
    end: End,
) -> Result<(), NoMemory>
    ensures { OnOk result (text.new ≡ text.old ++ group_text group.now (ends_of end chains.now)) }
{
    text.append(b"  ")?;
    push_quoted(text, group)?;
    text.append(b"='")?;
    push_ends(text, chains, end)?;
    text.append(b"';\n")
}

// Appends the lines of the scan groups.
#[tactic(auto, unfolding(crate::specs::Groups::scan_groups_text))]
fn push_scan_groups(
    text: &mut Text,
    controls: &[Text],
    chains: &[StilChain],
) -> Result<(), NoMemory>
    ensures { OnOk result (text.new ≡ text.old ++ scan_groups_text controls.now chains.now) }
{
    push_group(text, b"_ctl_", controls)?;
    push_group_of_ends(text, b"_si_", chains, End::In)?;
    push_group_of_ends(text, b"_so_", chains, End::Out)
}

// Appends the lines of the scan groups, where there are chains.
fn push_scan_groups_if_any(text: &mut Text, chip: &StilChip) -> Result<(), NoMemory>
    ensures { OnOk result (text.new ≡ text.old ++ scan_groups_if_any chip.now.controls chip.now.chains) }
{
    match chip.chains.as_slice() {
        [] => Ok(()),
        chains @ [_, ..] => push_scan_groups(text, chip.controls.as_slice(), chains),
    }
}

/// Appends the block of the groups.
#[tactic(auto, unfolding(crate::specs::Groups::groups_text))]
pub(crate) fn push_groups(text: &mut Text, chip: &StilChip) -> Result<(), NoMemory>
    ensures { OnOk result (text.new ≡ text.old ++ groups_text chip.now) }
{
    text.append(b"SignalGroups {\n")?;
    push_group_if_any(text, b"_pi_", &chip.inputs)?;
    push_group_if_any(text, b"_po_", &chip.outputs)?;
    push_scan_groups_if_any(text, chip)?;
    text.append(b"}\n")
}
