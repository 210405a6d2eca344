//! What is between the groups and the patterns.

ghost use Rattle.std.specs.Prelude.{◌≡◌, ◌++◌, ◌<◌, ◌+◌, length, OnOk, codes, decimal};
ghost use Rattle.ca_stil.specs.Chip.{end_of};
ghost use Rattle.ca_stil.specs.Words.{quoted};
ghost use Rattle.ca_stil.specs.Frame.{input_waves, output_waves, scan_waves, timing_text, chain_begins};
ghost use Rattle.ca_stil.specs.Frame.{length_line, port_line, chain_text, chains_text, structures_of_text};
ghost use Rattle.ca_stil.specs.Frame.{structures_text, burst_text, shifted_text, macro_of_text, macro_text};

use crate::chip::{End, StilChain, StilChip};
use crate::words::{end_of, push_decimal, push_numbered, push_quoted};
use ca_base::NoMemory;
use ca_lex::Text;

// Appends the waveforms of the chip inputs.
#[tactic(auto, unfolding(crate::specs::Frame::input_waves))]
fn push_input_waves(text: &mut Text, chip: &StilChip) -> Result<(), NoMemory>
    ensures { OnOk result (text.new ≡ text.old ++ input_waves chip.now.inputs) }
{
    match chip.inputs.as_slice() {
        [] => Ok(()),
        [_, ..] => text.append(b"      \"_pi_\" { 01 { '0ns' D/U; } }\n"),
    }
}

// Appends the waveforms of the observed outputs.
#[tactic(auto, unfolding(crate::specs::Frame::output_waves))]
fn push_output_waves(text: &mut Text, chip: &StilChip) -> Result<(), NoMemory>
    ensures { OnOk result (text.new ≡ text.old ++ output_waves chip.now.outputs) }
{
    match chip.outputs.as_slice() {
        [] => Ok(()),
        [_, ..] => text.append(b"      \"_po_\" { LHX { '0ns' X; '90ns' L/H/X; } }\n"),
    }
}

// Appends the waveforms of the scan groups.
#[tactic(auto, unfolding(crate::specs::Frame::scan_waves))]
fn push_scan_waves(text: &mut Text, chip: &StilChip) -> Result<(), NoMemory>
    ensures { OnOk result (text.new ≡ text.old ++ scan_waves chip.now.chains) }
{
    match chip.chains.as_slice() {
        [] => Ok(()),
        [_, ..] => text.append(
            b"      \"_ctl_\" { 01 { '0ns' D/U; } P { '0ns' D; '45ns' U; '55ns' D; } }\n\
              \x20     \"_si_\" { 01 { '0ns' D/U; } }\n\
              \x20     \"_so_\" { LHX { '0ns' X; '40ns' L/H/X; } }\n",
        ),
    }
}

/// Appends the block of the timing.
#[tactic(auto, unfolding(crate::specs::Frame::timing_text))]
pub(crate) fn push_timing(text: &mut Text, chip: &StilChip) -> Result<(), NoMemory>
    ensures { OnOk result (text.new ≡ text.old ++ timing_text chip.now) }
{
    text.append(b"Timing {\n  WaveformTable \"_wft_\" {\n    Period '100ns';\n    Waveforms {\n")?;
    push_input_waves(text, chip)?;
    push_output_waves(text, chip)?;
    push_scan_waves(text, chip)?;
    text.append(b"    }\n  }\n}\n")
}

// Appends what a chain's block begins with.
#[tactic(auto, unfolding(crate::specs::Frame::chain_begins))]
fn push_chain_begins(text: &mut Text, number: usize) -> Result<(), NoMemory>
    ensures { OnOk result (text.new ≡ text.old ++ chain_begins number) }
{
    text.append(b"  ScanChain ")?;
    push_numbered(text, b"chain", number)?;
    text.append(b" {\n")
}

// Appends how many cells a chain has.
#[tactic(auto, unfolding(crate::specs::Frame::length_line))]
fn push_length(text: &mut Text, chain: &StilChain) -> Result<(), NoMemory>
    ensures { OnOk result (text.new ≡ text.old ++ length_line chain.now) }
{
    text.append(b"    ScanLength ")?;
    push_decimal(text, chain.places.len())?;
    text.append(b";\n")
}

// Appends the port at an end of a chain.
#[tactic(auto, unfolding(crate::specs::Frame::port_line))]
fn push_port(text: &mut Text, word: &[u8], chain: &StilChain, end: End) -> Result<(), NoMemory>
    ensures { OnOk result (text.new ≡ text.old ++ port_line word.now end chain.now) }
{
    text.append(word)?;
    push_quoted(text, end_of(chain, end))?;
    text.append(b";\n")
}

// Appends the block of a chain.
#[tactic(auto, unfolding(crate::specs::Frame::chain_text))]
fn push_chain(text: &mut Text, number: usize, chain: &StilChain) -> Result<(), NoMemory>
    ensures { OnOk result (text.new ≡ text.old ++ chain_text number chain.now) }
{
    push_chain_begins(text, number)?;
    push_length(text, chain)?;
    push_port(text, b"    ScanIn ", chain, End::In)?;
    push_port(text, b"    ScanOut ", chain, End::Out)?;
    text.append(b"  }\n")
}

// Appends the blocks of the chains.
#[tactic(auto, unfolding(crate::specs::Frame::chains_text))]
fn push_chains(text: &mut Text, chains: &[StilChain]) -> Result<(), NoMemory>
    ensures { OnOk result (text.new ≡ text.old ++ chains_text 0 chains.now) }
{
    let mut rest = chains;
    let mut number = 0;
    'chains: while let [chain, more @ ..] = rest {
        push_chain(text, number, chain)?;
        number += 1;
        rest = more;
    }
    Ok(())
}

// Appends the block of all chains.
#[tactic(auto, unfolding(crate::specs::Frame::structures_of_text))]
fn push_structures_of(text: &mut Text, chains: &[StilChain]) -> Result<(), NoMemory>
    ensures { OnOk result (text.new ≡ text.old ++ structures_of_text chains.now) }
{
    text.append(b"ScanStructures {\n")?;
    push_chains(text, chains)?;
    text.append(b"}\n")
}

/// Appends the block of all chains, where there are some.
pub(crate) fn push_structures(text: &mut Text, chains: &[StilChain]) -> Result<(), NoMemory>
    ensures { OnOk result (text.new ≡ text.old ++ structures_text chains.now) }
{
    match chains {
        [] => Ok(()),
        [_, ..] => push_structures_of(text, chains),
    }
}

/// Appends the blocks of the burst.
#[tactic(auto, unfolding(crate::specs::Frame::burst_text))]
pub(crate) fn push_burst(text: &mut Text) -> Result<(), NoMemory>
    ensures { OnOk result (text.new ≡ text.old ++ burst_text) }
{
    text.append(
        b"PatternBurst \"_burst_\" {\n  PatList { \"_pattern_\"; }\n}\n\
          PatternExec {\n  PatternBurst \"_burst_\";\n}\n",
    )
}

// Appends the ports of the chains at one end, as they are shifted.
#[tactic(auto, unfolding(crate::specs::Frame::shifted_text))]
fn push_shifted(text: &mut Text, chains: &[StilChain], end: End) -> Result<(), NoMemory>
    ensures { OnOk result (text.new ≡ text.old ++ shifted_text end chains.now) }
{
    let mut rest = chains;
    'chains: while let [chain, more @ ..] = rest {
        text.append(b" ")?;
        push_quoted(text, end_of(chain, end))?;
        text.append(b"=#;")?;
        rest = more;
    }
    Ok(())
}

// Appends the block of the macro that shifts these chains.
#[tactic(auto, unfolding(crate::specs::Frame::macro_of_text))]
fn push_macro_of(text: &mut Text, chains: &[StilChain]) -> Result<(), NoMemory>
    ensures { OnOk result (text.new ≡ text.old ++ macro_of_text chains.now) }
{
    text.append(
        b"MacroDefs {\n  \"_shift_\" {\n    W \"_wft_\";\n    Shift {\n      V { \"_ctl_\"=1P1;",
    )?;
    push_shifted(text, chains, End::In)?;
    push_shifted(text, chains, End::Out)?;
    text.append(b" }\n    }\n  }\n}\n")
}

/// Appends the block of the macro that shifts the chains, where there are some.
pub(crate) fn push_macro(text: &mut Text, chains: &[StilChain]) -> Result<(), NoMemory>
    ensures { OnOk result (text.new ≡ text.old ++ macro_text chains.now) }
{
    match chains {
        [] => Ok(()),
        [_, ..] => push_macro_of(text, chains),
    }
}
