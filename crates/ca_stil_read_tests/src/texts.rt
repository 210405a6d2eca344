//! Texts in parts, and how many pairs, bits and expected values they have, or the line of their first faulty
//! token.

use ca_base::NoMemory;
use ca_lex::Text;
use ca_stil_read::{TextFault, read_text};
use std::alloc::Global;

#[derive(Clone, Copy, Debug, PartialEq, Eq)]
enum Seen {
    Pairs(usize, usize, usize),
    Line(usize),
    Nothing,
}

const SIGNALS: &[u8] = b"STIL 1.0;\nSignals {\n  \"a\" In;\n";

const OUT: &[u8] = b"  \"z\" Out;\n";

const GROUPS: &[u8] = b"}\nSignalGroups {\n  \"_pi_\"='\"a\"';\n  \"_po_\"='\"z\"';\n}\n";

const TIMING: &[u8] =
    b"Timing {\n  WaveformTable \"_wft_\" {\n    Period '100ns';\n    Waveforms {\n\
    \x20     \"_pi_\" { 01 { '0ns' D/U; } }\n\
    \x20     \"_po_\" { LHX { '0ns' X; '90ns' L/H/X; } }\n    }\n  }\n}\n";

const BURST: &[u8] = b"PatternBurst \"_burst_\" {\n  PatList { \"_pattern_\"; }\n}\n\
    PatternExec {\n  PatternBurst \"_burst_\";\n}\n";

const PATTERN: &[u8] = b"Pattern \"_pattern_\" {\n  W \"_wft_\";\n";

const PAIR: &[u8] =
    b"  \"pair 0\": V { \"_pi_\"=1; \"_po_\"=X; }\n  V { \"_pi_\"=0; \"_po_\"=H; }\n";

const SECOND: &[u8] =
    b"  \"pair 1\": V { \"_pi_\"=0; \"_po_\"=X; }\n  V { \"_pi_\"=1; \"_po_\"=L; }\n";

const THIRD: &[u8] =
    b"  \"pair 2\": V { \"_pi_\"=0; \"_po_\"=X; }\n  V { \"_pi_\"=1; \"_po_\"=L; }\n";

const LONG: &[u8] =
    b"  \"pair 0\": V { \"_pi_\"=11; \"_po_\"=X; }\n  V { \"_pi_\"=0; \"_po_\"=H; }\n";

// The accumulator, in parts around the number of its cells and around its pair.
const CHAIN: &[u8] =
    b"STIL 1.0;\nSignals {\n  \"x[1]\" In;\n  \"x[0]\" In;\n  \"se\" In;\n  \"ck\" In;\n\
    \x20 \"hold\" In;\n  \"si\" In;\n  \"so\" Out;\n  \"y[1]\" Out;\n  \"y[0]\" Out;\n}\nSignalGroups {\n\
    \x20 \"_pi_\"='\"x[1]\" + \"x[0]\"';\n  \"_po_\"='\"y[1]\" + \"y[0]\"';\n\
    \x20 \"_ctl_\"='\"se\" + \"ck\" + \"hold\"';\n  \"_si_\"='\"si\"';\n  \"_so_\"='\"so\"';\n}\n\
    Timing {\n  WaveformTable \"_wft_\" {\n    Period '100ns';\n    Waveforms {\n\
    \x20     \"_pi_\" { 01 { '0ns' D/U; } }\n\
    \x20     \"_po_\" { LHX { '0ns' X; '90ns' L/H/X; } }\n\
    \x20     \"_ctl_\" { 01 { '0ns' D/U; } P { '0ns' D; '45ns' U; '55ns' D; } }\n\
    \x20     \"_si_\" { 01 { '0ns' D/U; } }\n\
    \x20     \"_so_\" { LHX { '0ns' X; '40ns' L/H/X; } }\n    }\n  }\n}\n\
    ScanStructures {\n  ScanChain \"chain0\" {\n    ScanLength ";

const CELLS: &[u8] = b";\n    ScanIn \"si\";\n    ScanOut \"so\";\n  }\n}\n\
    PatternBurst \"_burst_\" {\n  PatList { \"_pattern_\"; }\n}\n\
    PatternExec {\n  PatternBurst \"_burst_\";\n}\n\
    MacroDefs {\n  \"_shift_\" {\n    W \"_wft_\";\n    Shift {\n\
    \x20     V { \"_ctl_\"=1P1; \"si\"=#; \"so\"=#; }\n    }\n  }\n}\n\
    Pattern \"_pattern_\" {\n  W \"_wft_\";\n";

const LOADS: &[u8] = b"  \"pair 0\": Macro \"_shift_\" { \"si\"=01; \"so\"=XX; }\n\
    \x20 V { \"_ctl_\"=000; \"_pi_\"=10; \"_po_\"=XX; }\n\
    \x20 Macro \"_shift_\" { \"si\"=11; \"so\"=XX; }\n\
    \x20 V { \"_ctl_\"=000; \"_pi_\"=11; \"_po_\"=HH; }\n\
    \x20 V { \"_ctl_\"=0P1; \"_po_\"=XX; }\n\
    \x20 Macro \"_shift_\" { \"si\"=00; \"so\"=";

// A part of a text.
#[derive(Clone, Copy)]
enum Part {
    Signals,
    Out,
    Groups,
    Timing,
    Burst,
    Pattern,
    Pair,
    Second,
    Third,
    Long,
    Chain,
    Cells,
    Loads,
    Other(&'static [u8]),
}

use Part::{
    Burst, Cells, Chain, Groups, Loads, Long, Other, Out, Pair, Pattern, Second, Signals, Third,
    Timing,
};

fn bytes_of(part: Part) -> &'static [u8] {
    match part {
        Signals => SIGNALS,
        Out => OUT,
        Groups => GROUPS,
        Timing => TIMING,
        Burst => BURST,
        Pattern => PATTERN,
        Pair => PAIR,
        Second => SECOND,
        Third => THIRD,
        Long => LONG,
        Chain => CHAIN,
        Cells => CELLS,
        Loads => LOADS,
        Other(bytes) => bytes,
    }
}

// The parts of a text, and what it reads as.
type Row = (&'static [Part], Seen);

static ROWS: [Row; 15] = [
    (
        &[
            Signals,
            Out,
            Groups,
            Timing,
            Burst,
            Pattern,
            Pair,
            Second,
            Other(b"}\n"),
        ],
        Seen::Pairs(2, 2, 1),
    ),
    // A word that is too long; an empty text; one without its last brace; one with a word after it.
    (
        &[
            Signals,
            Out,
            Groups,
            Timing,
            Burst,
            Pattern,
            Long,
            Second,
            Other(b"}\n"),
        ],
        Seen::Line(27),
    ),
    (&[], Seen::Line(1)),
    (
        &[Signals, Out, Groups, Timing, Burst, Pattern, Pair, Second],
        Seen::Line(30),
    ),
    (
        &[
            Signals,
            Out,
            Groups,
            Timing,
            Burst,
            Pattern,
            Pair,
            Second,
            Other(b"}\nx"),
        ],
        Seen::Line(32),
    ),
    // A group of signals that go the other way; a pair out of turn; no pairs; blank lines after the end.
    (
        &[
            Signals,
            Other(b"  \"z\" In;\n"),
            Groups,
            Timing,
            Burst,
            Pattern,
            Other(b"}\n"),
        ],
        Seen::Line(8),
    ),
    (
        &[
            Signals,
            Out,
            Groups,
            Timing,
            Burst,
            Pattern,
            Pair,
            Third,
            Other(b"}\n"),
        ],
        Seen::Line(29),
    ),
    (
        &[Signals, Out, Groups, Timing, Burst, Pattern, Other(b"}\n")],
        Seen::Pairs(0, 0, 0),
    ),
    (
        &[
            Signals,
            Out,
            Groups,
            Timing,
            Burst,
            Pattern,
            Pair,
            Other(b"}\n\n \t\r\n"),
        ],
        Seen::Pairs(1, 2, 1),
    ),
    // With a chain; a captured word that is too long; a number of cells that begins with 0.
    (
        &[Chain, Other(b"2"), Cells, Loads, Other(b"HL; }\n}\n")],
        Seen::Pairs(1, 8, 4),
    ),
    (
        &[Chain, Other(b"2"), Cells, Loads, Other(b"HLX; }\n}\n")],
        Seen::Line(60),
    ),
    (&[Chain, Other(b"02"), Cells, Other(b"}\n")], Seen::Line(34)),
    // More cells than any text has bytes: without pairs, and with one.
    (
        &[Chain, Other(b"18446744073709551616"), Cells, Other(b"}\n")],
        Seen::Pairs(0, 0, 0),
    ),
    (
        &[
            Chain,
            Other(b"18446744073709551616"),
            Cells,
            Loads,
            Other(b"HL; }\n}\n"),
        ],
        Seen::Line(55),
    ),
    (
        &[
            Chain,
            Other(b"18446744073709551616"),
            Cells,
            Other(b"\"pair 0\" V"),
        ],
        Seen::Line(55),
    ),
];

fn text_of(alloc: Global, parts: &[Part]) -> Result<Text, NoMemory> {
    let mut text = Text::new(alloc);
    for part in parts {
        text.append(bytes_of(*part))?;
    }
    Ok(text)
}

fn seen_in(alloc: Global, bytes: &[u8]) -> Seen {
    match read_text(alloc, bytes) {
        Ok(text) => {
            let pairs = text.pairs.as_slice();
            match pairs {
                [] => Seen::Pairs(0, 0, 0),
                [pair, ..] => Seen::Pairs(pairs.len(), pair.bits.len(), pair.levels.len()),
            }
        }
        Err(TextFault::At { line }) => Seen::Line(line),
        Err(TextFault::NoMemory) => Seen::Nothing,
    }
}

#[test]
fn texts_read_as_worked_out(rt: HostRuntime) {
    for row in &ROWS {
        let Ok(text) = text_of(rt.alloc(), row.0) else {
            panic!(rt; "no memory");
        };
        let seen = seen_in(rt.alloc(), text.as_bytes());
        assert!(rt; seen == row.1, "{:?}", seen);
    }
}
