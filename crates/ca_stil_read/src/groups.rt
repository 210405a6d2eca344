//! The groups.

ghost use Rattle.std.specs.Prelude.{◌≡◌, ◌&&◌, map, true, false, codes};
ghost use Rattle.ca_stil_form.specs.Frame.{has_some, key_controls};
ghost use Rattle.ca_stil_form.specs.Tokens.{tokens_of};
ghost use Rattle.ca_stil_form.specs.Value.{signal_seen};
ghost use Rattle.ca_stil_form.specs.Whole.{scan_form};
ghost use Rattle.ca_stil_read.specs.Groups.{scan_seen, scan_in};
ghost use Rattle.ca_stil_read.specs.code.Groups.{ArePools, groups_seen};
ghost use Rattle.ca_stil_read.specs.code.Views.{IsRead};
ghost use Rattle.ca_stil_read.specs.Whole.{read_inputs, read_outputs, read_scan, read_groups};

use crate::group::{begins_with, group_if_any, next_group};
use crate::pool::{Fit, Pools, pools_of};
use crate::stop::Stop;
use ca_lex::Names;
use ca_stil::Signal;
use std::alloc::Global;

/// The scan groups: the control ports, the scan-in ports and the scan-out ports.
#[derive(Drop)]
pub struct ScanGroups {
    pub controls: Names,
    pub scan_ins: Names,
    pub scan_outs: Names,
}

/// The groups of a text, those that are there.
#[derive(Drop)]
pub struct Groups {
    pub inputs: Option<Names>,
    pub outputs: Option<Names>,
    pub scan: Option<ScanGroups>,
}

// The scan groups, and the text after them.
#[tactic(auto, using(crate::proofs::GroupLemmas::fits_same))]
fn next_scan<'a>(
    alloc: Global,
    signals: &[Signal],
    pools: &Pools,
    text: &'a [u8],
) -> Result<(ScanGroups, &'a [u8]), Stop<'a>>
    requires { ArePools (map signal_seen signals.now) pools.now }
    ensures { IsRead scan_seen result
        ((scan_form (map signal_seen signals.now)).read (tokens_of text.now)) }
{
    let _ = signals;
    let (controls, rest) = next_group(alloc, b"\"_ctl_\"", Fit::InNumber(3, &pools.in_set), text)?;
    let (scan_ins, rest) = next_group(
        alloc,
        b"\"_si_\"",
        Fit::InOrder(pools.ins.as_slice()),
        rest,
    )?;
    let (scan_outs, rest) = next_group(
        alloc,
        b"\"_so_\"",
        Fit::InNumber(scan_ins.len(), &pools.out_set),
        rest,
    )?;
    Ok((
        ScanGroups {
            controls,
            scan_ins,
            scan_outs,
        },
        rest,
    ))
}

// The scan groups, which may be left out, and the text after them.
fn scan_if_any<'a>(
    alloc: Global,
    signals: &[Signal],
    pools: &Pools,
    text: &'a [u8],
) -> Result<(Option<ScanGroups>, &'a [u8]), Stop<'a>>
    requires { ArePools (map signal_seen signals.now) pools.now }
    ensures { IsRead scan_in result (read_scan (map signal_seen signals.now) (tokens_of text.now)) }
{
    if pools.ins.len() == 0 || pools.outs.len() == 0 {
        return Ok((None, text));
    }
    if !begins_with(b"\"_ctl_\"", text) {
        return Ok((None, text));
    }
    let (scan, rest) = next_scan(alloc, signals, pools, text)?;
    Ok((Some(scan), rest))
}

// The groups of signals with these names, and the text after them.
#[tactic(auto, unfolding(crate::specs::Whole::read_groups))]
fn groups_in<'a>(
    alloc: Global,
    signals: &[Signal],
    pools: &Pools,
    text: &'a [u8],
) -> Result<(Groups, &'a [u8]), Stop<'a>>
    requires { ArePools (map signal_seen signals.now) pools.now }
    ensures { IsRead groups_seen result
        (read_groups (map signal_seen signals.now) (tokens_of text.now)) }
{
    let (inputs, rest) = group_if_any(alloc, b"\"_pi_\"", pools.ins.as_slice(), text)?;
    let (outputs, rest) = group_if_any(alloc, b"\"_po_\"", pools.outs.as_slice(), rest)?;
    let (scan, rest) = scan_if_any(alloc, signals, pools, rest)?;
    Ok((
        Groups {
            inputs,
            outputs,
            scan,
        },
        rest,
    ))
}

/// The groups, and the text after them.
pub(crate) fn groups_of<'a>(
    alloc: Global,
    signals: &[Signal],
    text: &'a [u8],
) -> Result<(Groups, &'a [u8]), Stop<'a>>
    ensures { IsRead groups_seen result
        (read_groups (map signal_seen signals.now) (tokens_of text.now)) }
{
    let pools = pools_of(alloc, signals)?;
    groups_in(alloc, signals, &pools, text)
}
