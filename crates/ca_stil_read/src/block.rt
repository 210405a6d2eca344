//! The blocks that are the same for all texts with these groups.

ghost use Rattle.std.specs.Prelude.{◌≡◌, ◌++◌, ◌∷◌, [], map, codes, IfOk, OnOk};
ghost use Rattle.ca_stil_form.specs.Grammar.{pieces};
ghost use Rattle.ca_stil_form.specs.Tokens.{tokens_of};
ghost use Rattle.ca_stil_form.specs.Whole.{timing, pattern_begins, input_waves, output_waves, scan_waves};
ghost use Rattle.ca_stil_form.specs.Whole.{chains_begin, chains_end, macro, shifted};
ghost use Rattle.ca_stil_read.specs.Groups.{scan_in, scan_seen};

use crate::due::{push_fixed, push_quoted, push_token};
use crate::groups::{Groups, ScanGroups};
use ca_base::NoMemory;
use ca_lex::Names;
use std::alloc::Global;

fn push_input_waves(alloc: Global, due: &mut Names, inputs: &Option<Names>) -> Result<(), NoMemory>
    ensures { OnOk result (due.new ≡ due.old ++ (input_waves inputs.now).tokens) }
{
    match inputs {
        None => Ok(()),
        Some(_) => push_fixed(alloc, due, b"      \"_pi_\" { 01 { '0ns' D/U; } }\n"),
    }
}

fn push_output_waves(
    alloc: Global,
    due: &mut Names,
    outputs: &Option<Names>,
) -> Result<(), NoMemory>
    ensures { OnOk result (due.new ≡ due.old ++ (output_waves outputs.now).tokens) }
{
    match outputs {
        None => Ok(()),
        Some(_) => push_fixed(
            alloc,
            due,
            b"      \"_po_\" { LHX { '0ns' X; '90ns' L/H/X; } }\n",
        ),
    }
}

fn push_scan_waves_of(alloc: Global, due: &mut Names) -> Result<(), NoMemory>
    ensures { OnOk result (due.new ≡ due.old
        ++ (tokens_of (codes "      \"_ctl_\" { 01 { '0ns' D/U; } P { '0ns' D; '45ns' U; '55ns' D; } }\n")
        ++ (tokens_of (codes "      \"_si_\" { 01 { '0ns' D/U; } }\n")
        ++ tokens_of (codes "      \"_so_\" { LHX { '0ns' X; '40ns' L/H/X; } }\n")))) }
{
    push_fixed(
        alloc,
        due,
        b"      \"_ctl_\" { 01 { '0ns' D/U; } P { '0ns' D; '45ns' U; '55ns' D; } }\n",
    )?;
    push_fixed(alloc, due, b"      \"_si_\" { 01 { '0ns' D/U; } }\n")?;
    push_fixed(
        alloc,
        due,
        b"      \"_so_\" { LHX { '0ns' X; '40ns' L/H/X; } }\n",
    )
}

fn push_scan_waves(
    alloc: Global,
    due: &mut Names,
    scan: &Option<ScanGroups>,
) -> Result<(), NoMemory>
    ensures { OnOk result (due.new ≡ due.old ++ (scan_waves (scan_in scan.now)).tokens) }
{
    match scan {
        None => Ok(()),
        Some(_) => push_scan_waves_of(alloc, due),
    }
}

fn push_chains_begin(
    alloc: Global,
    due: &mut Names,
    scan: &Option<ScanGroups>,
) -> Result<(), NoMemory>
    ensures { OnOk result (due.new ≡ due.old ++ (chains_begin (scan_in scan.now)).tokens) }
{
    match scan {
        None => Ok(()),
        Some(_) => push_fixed(alloc, due, b"ScanStructures {\n"),
    }
}

fn push_chains_end(
    alloc: Global,
    due: &mut Names,
    scan: &Option<ScanGroups>,
) -> Result<(), NoMemory>
    ensures { OnOk result (due.new ≡ due.old ++ (chains_end (scan_in scan.now)).tokens) }
{
    match scan {
        None => Ok(()),
        Some(_) => push_fixed(alloc, due, b"}\n"),
    }
}

/// The end of the groups, and the timing up to the chains.
pub(crate) fn timing(alloc: Global, groups: &Groups) -> Result<Names, NoMemory>
    ensures { IfOk result (λ due. due
        ≡ (timing groups.now.inputs groups.now.outputs (scan_in groups.now.scan)).tokens) }
{
    let mut due = Names::new(alloc);
    push_token(alloc, &mut due, b"}")?;
    push_fixed(
        alloc,
        &mut due,
        b"\nTiming {\n  WaveformTable \"_wft_\" {\n    Period '100ns';\n    Waveforms {\n",
    )?;
    push_input_waves(alloc, &mut due, &groups.inputs)?;
    push_output_waves(alloc, &mut due, &groups.outputs)?;
    push_scan_waves(alloc, &mut due, &groups.scan)?;
    push_fixed(alloc, &mut due, b"    }\n  }\n}\n")?;
    push_chains_begin(alloc, &mut due, &groups.scan)?;
    Ok(due)
}

// The ports of chains, as they are shifted.
#[tactic(auto, unfolding(ca_stil_form::specs::Grammar::pieces))]
fn push_shifted(alloc: Global, due: &mut Names, names: &Names) -> Result<(), NoMemory>
    ensures { OnOk result (due.new ≡ due.old ++ (pieces shifted names.now).tokens) }
{
    let mut rest = names.as_slice();
    'names: while let [name, more @ ..] = rest {
        push_quoted(alloc, due, name.as_bytes())?;
        push_fixed(alloc, due, b"=#;")?;
        rest = more;
    }
    Ok(())
}

fn push_macro_of(alloc: Global, due: &mut Names, scan: &ScanGroups) -> Result<(), NoMemory>
    ensures { OnOk result (due.new ≡ due.old ++ (tokens_of
        (codes "MacroDefs {\n  \"_shift_\" {\n    W \"_wft_\";\n    Shift {\n      V { \"_ctl_\"=1P1;")
        ++ ((pieces shifted scan.now.scan_ins).tokens ++ ((pieces shifted scan.now.scan_outs).tokens
        ++ tokens_of (codes " }\n    }\n  }\n}\n"))))) }
{
    push_fixed(
        alloc,
        due,
        b"MacroDefs {\n  \"_shift_\" {\n    W \"_wft_\";\n    Shift {\n      V { \"_ctl_\"=1P1;",
    )?;
    push_shifted(alloc, due, &scan.scan_ins)?;
    push_shifted(alloc, due, &scan.scan_outs)?;
    push_fixed(alloc, due, b" }\n    }\n  }\n}\n")
}

fn push_macro(alloc: Global, due: &mut Names, scan: &Option<ScanGroups>) -> Result<(), NoMemory>
    ensures { OnOk result (due.new ≡ due.old ++ (macro (scan_in scan.now)).tokens) }
{
    match scan {
        None => Ok(()),
        Some(groups) => push_macro_of(alloc, due, groups),
    }
}

/// The end of the chains, and all that stands up to the first pair.
pub(crate) fn pattern_begins(alloc: Global, scan: &Option<ScanGroups>) -> Result<Names, NoMemory>
    ensures { IfOk result (λ due. due ≡ (pattern_begins (scan_in scan.now)).tokens) }
{
    let mut due = Names::new(alloc);
    push_chains_end(alloc, &mut due, scan)?;
    push_fixed(
        alloc,
        &mut due,
        b"PatternBurst \"_burst_\" {\n  PatList { \"_pattern_\"; }\n}\n\
          PatternExec {\n  PatternBurst \"_burst_\";\n}\n",
    )?;
    push_macro(alloc, &mut due, scan)?;
    push_fixed(
        alloc,
        &mut due,
        b"Pattern \"_pattern_\" {\n  W \"_wft_\";\n",
    )?;
    Ok(due)
}
