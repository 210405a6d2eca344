//! Whether a text is of a chip.

ghost use Rattle.std.specs.Prelude.{◌≡◌, length, decimal};
ghost use Rattle.std.specs.Str.{bytes_eq};
ghost use Rattle.ca_stil_pairs.specs.code.Same.{signals_eq, names_eq, scan_ins_eq, scan_outs_eq, cells_eq};
ghost use Rattle.ca_stil_pairs.specs.code.Same.{group_eq, scan_groups_eq, scan_eq, text_eq};

use ca_lex::{Names, Text};
use ca_stil::{Signal, StilChain, StilChip};
use ca_stil_read::{ScanGroups, StilText};
use itoa::Buffer;

#[tactic(auto, unfolding(crate::specs::code::Same::signals_eq))]
fn same_signals(signals: &[Signal], others: &[Signal]) -> bool
    ensures { result ≡ signals_eq signals.now others.now }
{
    let mut left = signals;
    let mut right = others;
    'signals: while let [signal, more @ ..] = left {
        let [other, rest @ ..] = right else {
            return false;
        };
        if signal.name.as_bytes() != other.name.as_bytes() {
            return false;
        }
        if signal.is_input != other.is_input {
            return false;
        }
        left = more;
        right = rest;
    }
    right.is_empty()
}

#[tactic(auto, unfolding(crate::specs::code::Same::names_eq))]
fn same_names(names: &[Text], others: &[Text]) -> bool
    ensures { result ≡ names_eq names.now others.now }
{
    let mut left = names;
    let mut right = others;
    'names: while let [name, more @ ..] = left {
        let [other, rest @ ..] = right else {
            return false;
        };
        if name.as_bytes() != other.as_bytes() {
            return false;
        }
        left = more;
        right = rest;
    }
    right.is_empty()
}

// Whether these are the scan-in ports of the chains.
#[tactic(auto, unfolding(crate::specs::code::Same::scan_ins_eq))]
fn same_scan_ins(names: &[Text], chains: &[StilChain]) -> bool
    ensures { result ≡ scan_ins_eq names.now chains.now }
{
    let mut left = names;
    let mut right = chains;
    'names: while let [name, more @ ..] = left {
        let [chain, rest @ ..] = right else {
            return false;
        };
        if name.as_bytes() != chain.scan_in.as_bytes() {
            return false;
        }
        left = more;
        right = rest;
    }
    right.is_empty()
}

// Whether these are the scan-out ports of the chains.
#[tactic(auto, unfolding(crate::specs::code::Same::scan_outs_eq))]
fn same_scan_outs(names: &[Text], chains: &[StilChain]) -> bool
    ensures { result ≡ scan_outs_eq names.now chains.now }
{
    let mut left = names;
    let mut right = chains;
    'names: while let [name, more @ ..] = left {
        let [chain, rest @ ..] = right else {
            return false;
        };
        if name.as_bytes() != chain.scan_out.as_bytes() {
            return false;
        }
        left = more;
        right = rest;
    }
    right.is_empty()
}

// Whether this is the number of cells of a chain.
fn is_length(digits: &[u8], chain: &StilChain) -> bool
    ensures { result ≡ bytes_eq digits.now (decimal (length chain.now.places)) }
{
    let mut buffer = Buffer::new();
    digits == buffer.format(chain.places.len()).as_bytes()
}

// Whether these are the numbers of cells of the chains.
#[tactic(auto, unfolding(crate::specs::code::Same::cells_eq))]
fn same_cells(cells: &[Text], chains: &[StilChain]) -> bool
    ensures { result ≡ cells_eq cells.now chains.now }
{
    let mut left = cells;
    let mut right = chains;
    'cells: while let [digits, more @ ..] = left {
        let [chain, rest @ ..] = right else {
            return false;
        };
        if !is_length(digits.as_bytes(), chain) {
            return false;
        }
        left = more;
        right = rest;
    }
    right.is_empty()
}

fn same_group(group: &Option<Names>, names: &Names) -> bool
    ensures { result ≡ group_eq group.now names.now }
{
    match group {
        None => match names.as_slice() {
            [] => true,
            [_, ..] => false,
        },
        Some(members) => match names.as_slice() {
            [] => false,
            names @ [_, ..] => same_names(members.as_slice(), names),
        },
    }
}

// Whether these are the scan groups of a chip with chains.
fn same_scan_of(groups: &ScanGroups, controls: &Names, chains: &[StilChain]) -> bool
    ensures { result ≡ scan_groups_eq groups.now controls.now chains.now }
{
    same_names(groups.controls.as_slice(), controls.as_slice())
        && (same_scan_ins(groups.scan_ins.as_slice(), chains)
            && same_scan_outs(groups.scan_outs.as_slice(), chains))
}

fn same_scan(groups: &Option<ScanGroups>, controls: &Names, chains: &[StilChain]) -> bool
    ensures { result ≡ scan_eq groups.now controls.now chains.now }
{
    match groups {
        None => match chains {
            [] => true,
            [_, ..] => false,
        },
        Some(groups) => match chains {
            [] => false,
            [_, ..] => same_scan_of(groups, controls, chains),
        },
    }
}

/// Whether the signals, the groups and the chains of a text are those of a chip.
pub(crate) fn is_of_chip(text: &StilText, chip: &StilChip) -> bool
    ensures { result ≡ text_eq text.now chip.now }
{
    same_signals(text.signals.as_slice(), chip.signals.as_slice())
        && (same_group(&text.groups.inputs, &chip.inputs)
            && (same_group(&text.groups.outputs, &chip.outputs)
                && (same_scan(&text.groups.scan, &chip.controls, chip.chains.as_slice())
                    && same_cells(text.cells.as_slice(), chip.chains.as_slice()))))
}
