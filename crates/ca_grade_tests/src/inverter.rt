//! The patterns of an inverter, and changes of them.

ghost use Rattle.ca_scan.specs.ChainFault.{AreAllChains};

use ca_base::NoMemory;
use ca_cell::StrengthTable;
use ca_chip_grade::grade_chip;
use ca_chip_pairs::read_chip_stil;
use ca_generate::Unwatched;
use ca_grade::{Grade, GradeFault, Grades};
use ca_lex::Text;
use ca_link::link;
use ca_linked::Chip;
use ca_scan::{Chains, trace};
use ca_spice::read_library;
use ca_stil_pairs::StilFault;
use ca_verilog::read_netlist;
use ca_wiring::ScanTable;
use std::alloc::Global;

const LIBRARY: &[u8] = b"
.SUBCKT INV A ZN VDD VSS
*.PININFO A:I ZN:O VDD:P VSS:G
MP1 ZN A VDD VDD pch W=2u L=0.1u
MN1 ZN A VSS VSS nch W=1u L=0.1u
.ENDS
";

const INVERTER: &[u8] = b"module inv(a, z); input a; output z; INV u1 (.A(a), .ZN(z)); endmodule";

const OTHER: &[u8] = b"module inv(b, z); input b; output z; INV u1 (.A(b), .ZN(z)); endmodule";

const BEGIN: &[u8] = b"STIL 1.0;\nSignals {\n  \"a\" In;\n  \"z\" Out;\n}\n\
    SignalGroups {\n  \"_pi_\"='\"a\"';\n  \"_po_\"='\"z\"';\n}\n\
    Timing {\n  WaveformTable \"_wft_\" {\n    Period '100ns';\n    Waveforms {\n\
    \x20     \"_pi_\" { 01 { '0ns' D/U; } }\n\
    \x20     \"_po_\" { LHX { '0ns' X; '90ns' L/H/X; } }\n    }\n  }\n}\n\
    PatternBurst \"_burst_\" {\n  PatList { \"_pattern_\"; }\n}\n\
    PatternExec {\n  PatternBurst \"_burst_\";\n}\n\
    Pattern \"_pattern_\" {\n  W \"_wft_\";\n";

const FIRST: &[u8] =
    b"  \"pair 0\": V { \"_pi_\"=1; \"_po_\"=X; }\n  V { \"_pi_\"=0; \"_po_\"=H; }\n";

const SECOND: &[u8] =
    b"  \"pair 1\": V { \"_pi_\"=0; \"_po_\"=X; }\n  V { \"_pi_\"=1; \"_po_\"=L; }\n";

const LOW: &[u8] =
    b"  \"pair 0\": V { \"_pi_\"=1; \"_po_\"=X; }\n  V { \"_pi_\"=0; \"_po_\"=L; }\n";

const UNKNOWN: &[u8] =
    b"  \"pair 1\": V { \"_pi_\"=0; \"_po_\"=X; }\n  V { \"_pi_\"=1; \"_po_\"=X; }\n";

const LONG: &[u8] =
    b"  \"pair 0\": V { \"_pi_\"=11; \"_po_\"=X; }\n  V { \"_pi_\"=0; \"_po_\"=H; }\n";

// A part of a text.
#[derive(Clone, Copy)]
enum Part {
    Begin,
    First,
    Second,
    Low,
    Unknown,
    Long,
    End,
}

fn bytes_of(part: Part) -> &'static [u8] {
    match part {
        Part::Begin => BEGIN,
        Part::First => FIRST,
        Part::Second => SECOND,
        Part::Low => LOW,
        Part::Unknown => UNKNOWN,
        Part::Long => LONG,
        Part::End => b"}\n",
    }
}

// The numbers of defects that are credited, unexposable and uncredited; or why there are none.
#[derive(Clone, Copy, Debug, PartialEq, Eq)]
enum Seen {
    Graded(usize, usize, usize),
    Line(usize),
    OtherChip,
    Wrong(usize, u32),
    Nothing,
}

type Row = (&'static [u8], &'static [Part], Seen);

static ROWS: [Row; 8] = [
    (
        INVERTER,
        &[Part::Begin, Part::First, Part::Second, Part::End],
        Seen::Graded(6, 3, 0),
    ),
    (
        INVERTER,
        &[Part::Begin, Part::First, Part::End],
        Seen::Graded(3, 3, 3),
    ),
    (INVERTER, &[Part::Begin, Part::End], Seen::Graded(0, 3, 6)),
    // An expected value that is the opposite, and one that isn't told where the good chip ends with one.
    (
        INVERTER,
        &[Part::Begin, Part::Low, Part::Second, Part::End],
        Seen::Wrong(0, 0),
    ),
    (
        INVERTER,
        &[Part::Begin, Part::First, Part::Unknown, Part::End],
        Seen::Wrong(1, 0),
    ),
    // A word that is too long, and a text that ends too early; the same text of another chip.
    (
        INVERTER,
        &[Part::Begin, Part::Long, Part::Second, Part::End],
        Seen::Line(27),
    ),
    (INVERTER, &[Part::Begin, Part::First], Seen::Line(28)),
    (
        OTHER,
        &[Part::Begin, Part::First, Part::Second, Part::End],
        Seen::OtherChip,
    ),
];

fn text_of(alloc: Global, parts: &[Part]) -> Result<Text, NoMemory> {
    let mut text = Text::new(alloc);
    for part in parts {
        text.append(bytes_of(*part))?;
    }
    Ok(text)
}

fn counts_of(grades: &Grades) -> Seen {
    let mut credited: usize = 0;
    let mut unexposable: usize = 0;
    let mut uncredited: usize = 0;
    for grade in grades.as_slice() {
        match grade {
            Grade::Credited { .. } => credited = credited.saturating_add(1),
            Grade::Unexposable => unexposable = unexposable.saturating_add(1),
            Grade::Uncredited => uncredited = uncredited.saturating_add(1),
        }
    }
    Seen::Graded(credited, unexposable, uncredited)
}

// What the text gives for a chip with these chains.
fn seen_in(alloc: Global, chip: &Chip, chains: &Chains, text: &[u8]) -> Seen
    requires { AreAllChains chip.now chains.now }
{
    let file = match read_chip_stil(alloc, chip, chains, text) {
        Ok(file) => file,
        Err(StilFault::At { line }) => return Seen::Line(line),
        Err(StilFault::OtherChip) => return Seen::OtherChip,
        Err(StilFault::NoMemory) => return Seen::Nothing,
    };
    if file.pairs.len() > 4 {
        return Seen::Nothing;
    }
    match grade_chip(
        alloc,
        chip,
        chains,
        file.pairs.as_slice(),
        file.expected.as_slice(),
        &mut Unwatched,
    ) {
        Ok(grades) => counts_of(&grades),
        Err(GradeFault::Expected(wrong)) => Seen::Wrong(wrong.pair, wrong.output),
        Err(GradeFault::NoMemory) => Seen::Nothing,
    }
}

// The chip of a netlist, if it links.
fn chip_of(alloc: Global, netlist: &[u8]) -> Option<Chip> {
    let Ok(raw) = read_netlist(alloc, netlist) else {
        return None;
    };
    let Ok(library) = read_library(alloc, &StrengthTable::default_table(), LIBRARY) else {
        return None;
    };
    let scan = ScanTable::new(alloc);
    match link(alloc, &raw, library, &scan) {
        Ok(chip) => Some(chip),
        Err(_) => None,
    }
}

fn seen_of(alloc: Global, row: &Row) -> Seen {
    let Some(chip) = chip_of(alloc, row.0) else {
        return Seen::Nothing;
    };
    let Ok(chains) = trace(alloc, &chip) else {
        return Seen::Nothing;
    };
    let Ok(text) = text_of(alloc, row.1) else {
        return Seen::Nothing;
    };
    seen_in(alloc, &chip, &chains, text.as_bytes())
}

#[test]
fn texts_are_graded_as_worked_out(rt: HostRuntime) {
    for row in &ROWS {
        let seen = seen_of(rt.alloc(), row);
        assert!(rt; seen == row.2, "{:?}", seen);
    }
}
