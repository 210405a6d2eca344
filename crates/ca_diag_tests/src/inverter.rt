//! The log of an inverter under two pairs, and its candidates.

ghost use Rattle.ca_scan.specs.ChainFault.{AreAllChains};

use ca_base::NoMemory;
use ca_cell::StrengthTable;
use ca_chip_diag::{diagnose_chip, logged_can_be_diagnosed, read_chip_log, texts_of};
use ca_chip_pairs::read_chip_stil;
use ca_generate::Unwatched;
use ca_lex::Text;
use ca_link::link;
use ca_linked::Chip;
use ca_log::LogFault;
use ca_scan::{Chains, trace};
use ca_spice::read_library;
use ca_verilog::read_netlist;
use ca_wiring::ScanTable;
use std::alloc::Global;

const LIBRARY: &[u8] = b"
.SUBCKT INV A ZN VDD VSS
*.PININFO A:I ZN:O VDD:P VSS:G
MP1 ZN A VDD VDD pch W=2u L=0.1u
MN1 ZN A VSS VSS nch W=1u L=0.1u
.ENDS
";

const INVERTER: &[u8] = b"module inv(a, z); input a; output z; INV u1 (.A(a), .ZN(z)); endmodule";

const BEGIN: &[u8] = b"STIL 1.0;\nSignals {\n  \"a\" In;\n  \"z\" Out;\n}\n\
    SignalGroups {\n  \"_pi_\"='\"a\"';\n  \"_po_\"='\"z\"';\n}\n\
    Timing {\n  WaveformTable \"_wft_\" {\n    Period '100ns';\n    Waveforms {\n\
    \x20     \"_pi_\" { 01 { '0ns' D/U; } }\n\
    \x20     \"_po_\" { LHX { '0ns' X; '90ns' L/H/X; } }\n    }\n  }\n}\n\
    PatternBurst \"_burst_\" {\n  PatList { \"_pattern_\"; }\n}\n\
    PatternExec {\n  PatternBurst \"_burst_\";\n}\n\
    Pattern \"_pattern_\" {\n  W \"_wft_\";\n";

const FIRST: &[u8] =
    b"  \"pair 0\": V { \"_pi_\"=1; \"_po_\"=X; }\n  V { \"_pi_\"=0; \"_po_\"=H; }\n";

const SECOND: &[u8] =
    b"  \"pair 1\": V { \"_pi_\"=0; \"_po_\"=X; }\n  V { \"_pi_\"=1; \"_po_\"=L; }\n";

const UNKNOWN: &[u8] =
    b"  \"pair 1\": V { \"_pi_\"=0; \"_po_\"=X; }\n  V { \"_pi_\"=1; \"_po_\"=X; }\n";

// A part of a text.
#[derive(Clone, Copy)]
enum Part {
    Begin,
    First,
    Second,
    Unknown,
    End,
}

fn bytes_of(part: Part) -> &'static [u8] {
    match part {
        Part::Begin => BEGIN,
        Part::First => FIRST,
        Part::Second => SECOND,
        Part::Unknown => UNKNOWN,
        Part::End => b"}\n",
    }
}

const BOTH: &[Part] = &[Part::Begin, Part::First, Part::Second, Part::End];

const ONE_KNOWN: &[Part] = &[Part::Begin, Part::First, Part::Unknown, Part::End];

// The patterns, the log, and the text of the candidates with the line after it, or why there is none.
type Row = (&'static [Part], &'static [u8], &'static [u8]);

static ROWS: [Row; 16] = [
    // The output stays low under the first pair.
    (
        BOTH,
        b"pair,output\n0,z\n",
        b"instance,cell,defect,explained\nu1,INV,MP1(D),1\nu1,INV,MP1(S),1\nu1,INV,MP1(G),0\n\
          u1,INV,MN1(G),0\nu1,INV,A(P),0\nu1,INV,VSS=ZN,1\ncandidates 6, defects 9, records 1\n",
    ),
    // Nothing fails: what is left predicts no fail.
    (
        BOTH,
        b"pair,output\n",
        b"instance,cell,defect,explained\nu1,INV,MP1(G),0\nu1,INV,MN1(G),0\nu1,INV,A(P),0\n\
          candidates 3, defects 9, records 0\n",
    ),
    // The output fails under both pairs, in either order: what predicts a pass under one of them is left out.
    (
        BOTH,
        b"pair,output\n0,z\n1,z\n",
        b"instance,cell,defect,explained\nu1,INV,MP1(G),0\nu1,INV,MN1(G),0\nu1,INV,A(P),0\n\
          candidates 3, defects 9, records 2\n",
    ),
    (
        BOTH,
        b"pair,output\n1,z\n0,z\n",
        b"instance,cell,defect,explained\nu1,INV,MP1(G),0\nu1,INV,MN1(G),0\nu1,INV,A(P),0\n\
          candidates 3, defects 9, records 2\n",
    ),
    (BOTH, b"pair,output\n0,z\n0,z\n", b"record 3"),
    (BOTH, b"pair,output\n2,z\n", b"record 2"),
    // No record, blank lines alone, another header.
    (BOTH, b"", b"record 1"),
    (BOTH, b"\n\n", b"record 1"),
    (BOTH, b"pair,outputs\n0,z\n", b"record 1"),
    // A leading zero, no number, an input, one field, three fields.
    (BOTH, b"pair,output\n00,z\n", b"record 2"),
    (BOTH, b"pair,output\n,z\n", b"record 2"),
    (BOTH, b"pair,output\n0,a\n", b"record 2"),
    (BOTH, b"pair,output\n0,z\n1\n", b"record 3"),
    (BOTH, b"pair,output\n0,z,z\n", b"record 2"),
    // Where no value is expected, nothing can fail.
    (ONE_KNOWN, b"pair,output\n0,z\n1,z\n", b"record 3"),
    (
        ONE_KNOWN,
        b"pair,output\r\n\"0\",z\r\n",
        b"instance,cell,defect,explained\nu1,INV,MP1(D),1\nu1,INV,MP1(S),1\nu1,INV,MP1(G),0\n\
          u1,INV,MN1(G),0\nu1,INV,A(P),0\nu1,INV,VSS=ZN,1\ncandidates 6, defects 9, records 1\n",
    ),
];

fn text_of(alloc: Global, parts: &[Part]) -> Result<Text, NoMemory> {
    let mut text = Text::new(alloc);
    for part in parts {
        text.append(bytes_of(*part))?;
    }
    Ok(text)
}

// The number of a bad record, as a text.
fn row_text(alloc: Global, row: usize) -> Option<Text> {
    let mut text = Text::from_bytes(alloc, b"record ").ok()?;
    text.append(itoa::Buffer::new().format(row).as_bytes())
        .ok()?;
    Some(text)
}

// The candidates by the patterns and the log of a chip with these chains, and the line after them.
fn report_in(alloc: Global, chip: &Chip, chains: &Chains, stil: &[u8], bytes: &[u8]) -> Option<Text>
    requires { AreAllChains chip.now chains.now }
{
    let file = read_chip_stil(alloc, chip, chains, stil).ok()?;
    if file.expected.len() > 4 {
        return None;
    }
    let log = match read_chip_log(alloc, chip, file.expected.as_slice(), bytes) {
        Ok(log) => log,
        Err(LogFault::BadLogRow { row }) => return row_text(alloc, row),
        Err(LogFault::NoMemory) => return None,
    };
    logged_can_be_diagnosed();
    let found = diagnose_chip(alloc, chip, file.pairs.as_slice(), &log, &mut Unwatched).ok()?;
    let texts = texts_of(alloc, chip, found.as_slice(), log.len()).ok()?;
    let mut report = texts.candidates;
    report.append(texts.line.as_bytes()).ok()?;
    Some(report)
}

// The chip of a netlist, if it links.
fn chip_of(alloc: Global, netlist: &[u8]) -> Option<Chip> {
    let Ok(raw) = read_netlist(alloc, netlist) else {
        return None;
    };
    let Ok(library) = read_library(alloc, &StrengthTable::default_table(), LIBRARY) else {
        return None;
    };
    let scan = ScanTable::new(alloc);
    match link(alloc, &raw, library, &scan) {
        Ok(chip) => Some(chip),
        Err(_) => None,
    }
}

fn report_of(alloc: Global, row: &Row) -> Option<Text> {
    let chip = chip_of(alloc, INVERTER)?;
    let Ok(chains) = trace(alloc, &chip) else {
        return None;
    };
    let stil = text_of(alloc, row.0).ok()?;
    report_in(alloc, &chip, &chains, stil.as_bytes(), row.1)
}

#[test]
fn candidates_are_as_worked_out(rt: HostRuntime) {
    for row in &ROWS {
        match report_of(rt.alloc(), row) {
            Some(report) => assert!(rt; report.is(row.2), "{:?}", report.as_bytes()),
            None => panic!(rt; "nothing reported"),
        }
    }
}
