//! Patterns: a chip, its pairs with their expected values, and the STIL text, written out.

use ca_base::{List, NoMemory};
use ca_lex::{Names, Text};
use ca_net::Trit;
use ca_stil::{Signal, StilChain, StilChip, are_of, write_stil};
use std::alloc::Global;

/// A chip: its ports with their directions; those that are chip inputs, that are observed and that control
/// scan instances; its chains, each with its ports and its cells; and the number of scan instances.
struct Drawn {
    ports: &'static [(&'static [u8], bool)],
    inputs: &'static [&'static [u8]],
    outputs: &'static [&'static [u8]],
    controls: &'static [&'static [u8]],
    chains: &'static [(&'static [u8], &'static [u8], &'static [usize])],
    scans: usize,
}

const INVERTER: Drawn = Drawn {
    ports: &[(b"a", true), (b"z", false)],
    inputs: &[b"a"],
    outputs: &[b"z"],
    controls: &[],
    chains: &[],
    scans: 0,
};

const ACCUMULATOR: Drawn = Drawn {
    ports: &[
        (b"x[1]", true),
        (b"x[0]", true),
        (b"se", true),
        (b"ck", true),
        (b"hold", true),
        (b"si", true),
        (b"y[1]", false),
        (b"y[0]", false),
        (b"so", false),
    ],
    inputs: &[b"x[1]", b"x[0]"],
    outputs: &[b"y[1]", b"y[0]"],
    controls: &[b"se", b"ck", b"hold"],
    chains: &[(b"si", b"so", &[0, 1])],
    scans: 2,
};

// Chains of two cells and of one, and no other ports.
const TWO_CHAINS: Drawn = Drawn {
    ports: &[
        (b"se", true),
        (b"ck", true),
        (b"hold", true),
        (b"si0", true),
        (b"si1", true),
        (b"so0", false),
        (b"so1", false),
    ],
    inputs: &[],
    outputs: &[],
    controls: &[b"se", b"ck", b"hold"],
    chains: &[(b"si0", b"so0", &[2, 0]), (b"si1", b"so1", &[1])],
    scans: 3,
};

const EMPTY: Drawn = Drawn {
    ports: &[],
    inputs: &[],
    outputs: &[],
    controls: &[],
    chains: &[],
    scans: 0,
};

// A chain with a cell that the chip doesn't have.
const STRAY: Drawn = Drawn {
    ports: &[],
    inputs: &[],
    outputs: &[],
    controls: &[],
    chains: &[(b"si", b"so", &[0, 1])],
    scans: 1,
};

// Pairs, and the values that are expected under each.
type Patterns = (&'static [&'static [u8]], &'static [&'static [u8]]);

const INVERTER_TEXT: &[u8] = b"STIL 1.0;\n\
    Signals {\n\
    \x20 \"a\" In;\n\
    \x20 \"z\" Out;\n\
    }\n\
    SignalGroups {\n\
    \x20 \"_pi_\"='\"a\"';\n\
    \x20 \"_po_\"='\"z\"';\n\
    }\n\
    Timing {\n\
    \x20 WaveformTable \"_wft_\" {\n\
    \x20   Period '100ns';\n\
    \x20   Waveforms {\n\
    \x20     \"_pi_\" { 01 { '0ns' D/U; } }\n\
    \x20     \"_po_\" { LHX { '0ns' X; '90ns' L/H/X; } }\n\
    \x20   }\n\
    \x20 }\n\
    }\n\
    PatternBurst \"_burst_\" {\n\
    \x20 PatList { \"_pattern_\"; }\n\
    }\n\
    PatternExec {\n\
    \x20 PatternBurst \"_burst_\";\n\
    }\n\
    Pattern \"_pattern_\" {\n\
    \x20 W \"_wft_\";\n\
    \x20 \"pair 0\": V { \"_pi_\"=1; \"_po_\"=X; }\n\
    \x20 V { \"_pi_\"=0; \"_po_\"=H; }\n\
    \x20 \"pair 1\": V { \"_pi_\"=0; \"_po_\"=X; }\n\
    \x20 V { \"_pi_\"=1; \"_po_\"=L; }\n\
    }\n";

const ACCUMULATOR_TEXT: &[u8] = b"STIL 1.0;\n\
    Signals {\n\
    \x20 \"x[1]\" In;\n\
    \x20 \"x[0]\" In;\n\
    \x20 \"se\" In;\n\
    \x20 \"ck\" In;\n\
    \x20 \"hold\" In;\n\
    \x20 \"si\" In;\n\
    \x20 \"y[1]\" Out;\n\
    \x20 \"y[0]\" Out;\n\
    \x20 \"so\" Out;\n\
    }\n\
    SignalGroups {\n\
    \x20 \"_pi_\"='\"x[1]\" + \"x[0]\"';\n\
    \x20 \"_po_\"='\"y[1]\" + \"y[0]\"';\n\
    \x20 \"_ctl_\"='\"se\" + \"ck\" + \"hold\"';\n\
    \x20 \"_si_\"='\"si\"';\n\
    \x20 \"_so_\"='\"so\"';\n\
    }\n\
    Timing {\n\
    \x20 WaveformTable \"_wft_\" {\n\
    \x20   Period '100ns';\n\
    \x20   Waveforms {\n\
    \x20     \"_pi_\" { 01 { '0ns' D/U; } }\n\
    \x20     \"_po_\" { LHX { '0ns' X; '90ns' L/H/X; } }\n\
    \x20     \"_ctl_\" { 01 { '0ns' D/U; } P { '0ns' D; '45ns' U; '55ns' D; } }\n\
    \x20     \"_si_\" { 01 { '0ns' D/U; } }\n\
    \x20     \"_so_\" { LHX { '0ns' X; '40ns' L/H/X; } }\n\
    \x20   }\n\
    \x20 }\n\
    }\n\
    ScanStructures {\n\
    \x20 ScanChain \"chain0\" {\n\
    \x20   ScanLength 2;\n\
    \x20   ScanIn \"si\";\n\
    \x20   ScanOut \"so\";\n\
    \x20 }\n\
    }\n\
    PatternBurst \"_burst_\" {\n\
    \x20 PatList { \"_pattern_\"; }\n\
    }\n\
    PatternExec {\n\
    \x20 PatternBurst \"_burst_\";\n\
    }\n\
    MacroDefs {\n\
    \x20 \"_shift_\" {\n\
    \x20   W \"_wft_\";\n\
    \x20   Shift {\n\
    \x20     V { \"_ctl_\"=1P1; \"si\"=#; \"so\"=#; }\n\
    \x20   }\n\
    \x20 }\n\
    }\n\
    Pattern \"_pattern_\" {\n\
    \x20 W \"_wft_\";\n\
    \x20 \"pair 0\": Macro \"_shift_\" { \"si\"=01; \"so\"=XX; }\n\
    \x20 V { \"_ctl_\"=000; \"_pi_\"=10; \"_po_\"=XX; }\n\
    \x20 Macro \"_shift_\" { \"si\"=11; \"so\"=XX; }\n\
    \x20 V { \"_ctl_\"=000; \"_pi_\"=11; \"_po_\"=HH; }\n\
    \x20 V { \"_ctl_\"=0P1; \"_po_\"=XX; }\n\
    \x20 Macro \"_shift_\" { \"si\"=00; \"so\"=HH; }\n\
    }\n";

const TWO_CHAINS_TEXT: &[u8] = b"STIL 1.0;\n\
    Signals {\n\
    \x20 \"se\" In;\n\
    \x20 \"ck\" In;\n\
    \x20 \"hold\" In;\n\
    \x20 \"si0\" In;\n\
    \x20 \"si1\" In;\n\
    \x20 \"so0\" Out;\n\
    \x20 \"so1\" Out;\n\
    }\n\
    SignalGroups {\n\
    \x20 \"_ctl_\"='\"se\" + \"ck\" + \"hold\"';\n\
    \x20 \"_si_\"='\"si0\" + \"si1\"';\n\
    \x20 \"_so_\"='\"so0\" + \"so1\"';\n\
    }\n\
    Timing {\n\
    \x20 WaveformTable \"_wft_\" {\n\
    \x20   Period '100ns';\n\
    \x20   Waveforms {\n\
    \x20     \"_ctl_\" { 01 { '0ns' D/U; } P { '0ns' D; '45ns' U; '55ns' D; } }\n\
    \x20     \"_si_\" { 01 { '0ns' D/U; } }\n\
    \x20     \"_so_\" { LHX { '0ns' X; '40ns' L/H/X; } }\n\
    \x20   }\n\
    \x20 }\n\
    }\n\
    ScanStructures {\n\
    \x20 ScanChain \"chain0\" {\n\
    \x20   ScanLength 2;\n\
    \x20   ScanIn \"si0\";\n\
    \x20   ScanOut \"so0\";\n\
    \x20 }\n\
    \x20 ScanChain \"chain1\" {\n\
    \x20   ScanLength 1;\n\
    \x20   ScanIn \"si1\";\n\
    \x20   ScanOut \"so1\";\n\
    \x20 }\n\
    }\n\
    PatternBurst \"_burst_\" {\n\
    \x20 PatList { \"_pattern_\"; }\n\
    }\n\
    PatternExec {\n\
    \x20 PatternBurst \"_burst_\";\n\
    }\n\
    MacroDefs {\n\
    \x20 \"_shift_\" {\n\
    \x20   W \"_wft_\";\n\
    \x20   Shift {\n\
    \x20     V { \"_ctl_\"=1P1; \"si0\"=#; \"si1\"=#; \"so0\"=#; \"so1\"=#; }\n\
    \x20   }\n\
    \x20 }\n\
    }\n\
    Pattern \"_pattern_\" {\n\
    \x20 W \"_wft_\";\n\
    \x20 \"pair 0\": Macro \"_shift_\" { \"si0\"=10; \"si1\"=00; \"so0\"=XX; \"so1\"=XX; }\n\
    \x20 V { \"_ctl_\"=000; }\n\
    \x20 Macro \"_shift_\" { \"si0\"=01; \"si1\"=01; \"so0\"=XX; \"so1\"=XX; }\n\
    \x20 V { \"_ctl_\"=000; }\n\
    \x20 V { \"_ctl_\"=0P1; }\n\
    \x20 Macro \"_shift_\" { \"si0\"=00; \"si1\"=00; \"so0\"=LX; \"so1\"=HX; }\n\
    }\n";

const EMPTY_TEXT: &[u8] = b"STIL 1.0;\n\
    Signals {\n\
    }\n\
    SignalGroups {\n\
    }\n\
    Timing {\n\
    \x20 WaveformTable \"_wft_\" {\n\
    \x20   Period '100ns';\n\
    \x20   Waveforms {\n\
    \x20   }\n\
    \x20 }\n\
    }\n\
    PatternBurst \"_burst_\" {\n\
    \x20 PatList { \"_pattern_\"; }\n\
    }\n\
    PatternExec {\n\
    \x20 PatternBurst \"_burst_\";\n\
    }\n\
    Pattern \"_pattern_\" {\n\
    \x20 W \"_wft_\";\n\
    \x20 \"pair 0\": V { }\n\
    \x20 V { }\n\
    }\n";

static ROWS: [(Drawn, Patterns, &'static [u8]); 4] = [
    (INVERTER, (&[b"10", b"01"], &[b"1", b"0"]), INVERTER_TEXT),
    // First x=10, r0=1, r1=0, and last x=11, r0=1, r1=1.
    (ACCUMULATOR, (&[b"10101111"], &[b"1111"]), ACCUMULATOR_TEXT),
    (TWO_CHAINS, (&[b"100011"], &[b"01X"]), TWO_CHAINS_TEXT),
    (EMPTY, (&[b""], &[b""]), EMPTY_TEXT),
];

// A pair of three bits, a value too many, a pair without values, and a stray cell.
static STRANGE: [(Drawn, Patterns); 4] = [
    (INVERTER, (&[b"10", b"011"], &[b"1", b"0"])),
    (INVERTER, (&[b"10", b"01"], &[b"1", b"00"])),
    (INVERTER, (&[b"10", b"01"], &[b"1"])),
    (STRAY, (&[], &[])),
];

fn names_of(alloc: Global, names: &[&[u8]]) -> Result<Names, NoMemory> {
    let mut list = Names::new(alloc);
    for name in names {
        list.push(Text::from_bytes(alloc, name)?)?;
    }
    Ok(list)
}

fn signals_of(alloc: Global, drawn: &Drawn) -> Result<List<Signal>, NoMemory> {
    let mut signals = List::new(alloc);
    for port in drawn.ports {
        signals.push(Signal {
            name: Text::from_bytes(alloc, port.0)?,
            is_input: port.1,
        })?;
    }
    Ok(signals)
}

fn places_of(alloc: Global, places: &[usize]) -> Result<List<usize>, NoMemory> {
    let mut list = List::new(alloc);
    for place in places {
        list.push(*place)?;
    }
    Ok(list)
}

fn chains_of(alloc: Global, drawn: &Drawn) -> Result<List<StilChain>, NoMemory> {
    let mut chains = List::new(alloc);
    for chain in drawn.chains {
        chains.push(StilChain {
            scan_in: Text::from_bytes(alloc, chain.0)?,
            scan_out: Text::from_bytes(alloc, chain.1)?,
            places: places_of(alloc, chain.2)?,
        })?;
    }
    Ok(chains)
}

fn chip_of(alloc: Global, drawn: &Drawn) -> Result<StilChip, NoMemory> {
    Ok(StilChip {
        signals: signals_of(alloc, drawn)?,
        inputs: names_of(alloc, drawn.inputs)?,
        outputs: names_of(alloc, drawn.outputs)?,
        controls: names_of(alloc, drawn.controls)?,
        chains: chains_of(alloc, drawn)?,
        scan_count: drawn.scans,
    })
}

fn bits_of(alloc: Global, digits: &[u8]) -> Result<List<bool>, NoMemory> {
    let mut bits = List::new(alloc);
    for digit in digits {
        bits.push(*digit == b'1')?;
    }
    Ok(bits)
}

fn values_of(alloc: Global, letters: &[u8]) -> Result<List<Trit>, NoMemory> {
    let mut values = List::new(alloc);
    for letter in letters {
        values.push(match *letter {
            b'0' => Trit::Zero,
            b'1' => Trit::One,
            _ => Trit::X,
        })?;
    }
    Ok(values)
}

fn pairs_of(alloc: Global, all: &[&[u8]]) -> Result<List<List<bool>>, NoMemory> {
    let mut pairs = List::new(alloc);
    for digits in all {
        pairs.push(bits_of(alloc, digits)?)?;
    }
    Ok(pairs)
}

fn expected_of(alloc: Global, all: &[&[u8]]) -> Result<List<List<Trit>>, NoMemory> {
    let mut expected = List::new(alloc);
    for letters in all {
        expected.push(values_of(alloc, letters)?)?;
    }
    Ok(expected)
}

// The text of a chip's pairs and values.
fn text_with(
    alloc: Global,
    chip: &StilChip,
    pairs: &[List<bool>],
    expected: &[List<Trit>],
) -> Result<Option<Text>, NoMemory> {
    if !are_of(chip, pairs, expected) {
        return Ok(None);
    }
    Ok(Some(write_stil(alloc, chip, pairs, expected)?))
}

// The same with values as letters. Each value is dropped in one place here and below: more places are slow to
// prove.
fn text_for(
    alloc: Global,
    chip: &StilChip,
    pairs: &[List<bool>],
    letters: &[&[u8]],
) -> Result<Option<Text>, NoMemory> {
    let expected = expected_of(alloc, letters)?;
    let text = text_with(alloc, chip, pairs, expected.as_slice());
    drop(expected);
    text
}

// The same with pairs as digits.
fn text_over(alloc: Global, chip: &StilChip, patterns: Patterns) -> Result<Option<Text>, NoMemory> {
    let pairs = pairs_of(alloc, patterns.0)?;
    let text = text_for(alloc, chip, pairs.as_slice(), patterns.1);
    drop(pairs);
    text
}

// The text; none where the pairs or values are not of the chip.
fn text_of(alloc: Global, drawn: &Drawn, patterns: Patterns) -> Result<Option<Text>, NoMemory> {
    let chip = chip_of(alloc, drawn)?;
    let text = text_over(alloc, &chip, patterns);
    drop(chip);
    text
}

#[test]
fn patterns_are_the_texts(rt: HostRuntime) {
    for row in &ROWS {
        let Ok(Some(text)) = text_of(rt.alloc(), &row.0, row.1) else {
            panic!(rt; "no text");
        };
        assert!(rt; text.is(row.2), "{:?}", text.as_bytes());
    }
}

#[test]
fn patterns_of_another_chip_are_reported(rt: HostRuntime) {
    for row in &STRANGE {
        let Ok(reported) = text_of(rt.alloc(), &row.0, row.1) else {
            panic!(rt; "no memory");
        };
        assert!(rt; reported.is_none(), "{:?}", row.1);
    }
}
