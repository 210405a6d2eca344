//! Reports: defects with their verdicts, and the text.

use ca_base::{List, NoMemory};
use ca_lex::{Names, Text};
use ca_report::{ReportRow, Verdict, are_of, write_bridges, write_report};
use std::alloc::Global;

// A defect: its instance, its cell, its name, and the verdict.
type Line = (&'static [u8], &'static [u8], &'static [u8], Verdict);

const FIRST: Verdict = Verdict::Credited { pair: 0, output: 0 };

const SECOND: Verdict = Verdict::Credited { pair: 1, output: 0 };

// Observed outputs, defects, and their report.
type Row = (&'static [&'static [u8]], &'static [Line], &'static [u8]);

static ROWS: [Row; 4] = [
    (&[], &[], b"instance,cell,defect,verdict,pair,output\n"),
    // One inverter.
    (
        &[b"z"],
        &[
            (b"u1", b"INV", b"MP1(D)", FIRST),
            (b"u1", b"INV", b"MP1(S)", FIRST),
            (b"u1", b"INV", b"MP1(G)", Verdict::Unexposable),
            (b"u1", b"INV", b"MN1(D)", SECOND),
            (b"u1", b"INV", b"MN1(S)", SECOND),
            (b"u1", b"INV", b"MN1(G)", Verdict::Unexposable),
            (b"u1", b"INV", b"A(P)", Verdict::Unexposable),
            (b"u1", b"INV", b"VDD=ZN", SECOND),
            (b"u1", b"INV", b"VSS=ZN", FIRST),
        ],
        b"instance,cell,defect,verdict,pair,output\n\
          u1,INV,MP1(D),credited,0,z\n\
          u1,INV,MP1(S),credited,0,z\n\
          u1,INV,MP1(G),unexposable,,\n\
          u1,INV,MN1(D),credited,1,z\n\
          u1,INV,MN1(S),credited,1,z\n\
          u1,INV,MN1(G),unexposable,,\n\
          u1,INV,A(P),unexposable,,\n\
          u1,INV,VDD=ZN,credited,1,z\n\
          u1,INV,VSS=ZN,credited,0,z\n",
    ),
    // Each verdict, a number of ten digits, and the second of two outputs.
    (
        &[b"y[1]", b"y[0]"],
        &[
            (b"u2", b"NAND2", b"MN1(S)", Verdict::Untestable),
            (b"u2", b"NAND2", b"MN1(D)", Verdict::Aborted),
            (
                b"u3",
                b"NAND2",
                b"MN1(S)",
                Verdict::Credited {
                    pair: 4_294_967_295,
                    output: 1,
                },
            ),
        ],
        b"instance,cell,defect,verdict,pair,output\n\
          u2,NAND2,MN1(S),untestable,,\n\
          u2,NAND2,MN1(D),aborted,,\n\
          u3,NAND2,MN1(S),credited,4294967295,y[0]\n",
    ),
    // Names that CSV quotes.
    (
        &[b"a,b"],
        &[(b"say\"hi\"", b"INV", b"MP1(D)", FIRST)],
        b"instance,cell,defect,verdict,pair,output\n\
          \"say\"\"hi\"\"\",INV,MP1(D),credited,0,\"a,b\"\n",
    ),
];

fn names_of(alloc: Global, names: &[&[u8]]) -> Result<Names, NoMemory> {
    let mut list = Names::new(alloc);
    for name in names {
        list.push(Text::from_bytes(alloc, name)?)?;
    }
    Ok(list)
}

fn rows_of(alloc: Global, lines: &[Line]) -> Result<List<ReportRow>, NoMemory> {
    let mut rows = List::new(alloc);
    for line in lines {
        rows.push(ReportRow {
            instance: Text::from_bytes(alloc, line.0)?,
            cell: Text::from_bytes(alloc, line.1)?,
            defect: Text::from_bytes(alloc, line.2)?,
            verdict: line.3,
        })?;
    }
    Ok(rows)
}

// The report; none where a verdict names no output.
fn report_of(alloc: Global, row: &Row) -> Result<Option<Text>, NoMemory> {
    let outputs = names_of(alloc, row.0)?;
    let rows = rows_of(alloc, row.1)?;
    if !are_of(&outputs, &rows) {
        return Ok(None);
    }
    Ok(Some(write_report(alloc, &outputs, &rows)?))
}

#[test]
fn reports_are_the_texts(rt: HostRuntime) {
    for row in &ROWS {
        let Ok(Some(text)) = report_of(rt.alloc(), row) else {
            panic!(rt; "no report");
        };
        assert!(rt; text.is(row.2), "{:?}", text.as_bytes());
    }
}

#[test]
fn bridges_are_reported(rt: HostRuntime) {
    let lines: [Line; 3] = [
        (b"g4", b"NAND2", b"VDD=A1", FIRST),
        (b"g4", b"NAND2", b"A1=A2", Verdict::Port),
        (b"g4", b"NAND2", b"A1=ZN", Verdict::Wide),
    ];
    let Ok(text) = bridges_of(rt.alloc(), &lines) else {
        panic!(rt; "no report");
    };
    let wanted: &[u8] = b"instance,cell,bridge,verdict,pair,output\n\
        g4,NAND2,VDD=A1,credited,0,z\n\
        g4,NAND2,A1=A2,port,,\n\
        g4,NAND2,A1=ZN,wide,,\n";
    assert!(rt; text.is(wanted), "{:?}", text.as_bytes());
}

// The report of bridges on a chip with one output.
fn bridges_of(alloc: Global, lines: &[Line]) -> Result<Text, NoMemory> {
    let outputs = names_of(alloc, &[b"z"])?;
    let rows = rows_of(alloc, lines)?;
    if !are_of(&outputs, &rows) {
        return Ok(Text::new(alloc));
    }
    write_bridges(alloc, &outputs, &rows)
}

#[test]
fn a_verdict_at_an_output_that_is_none(rt: HostRuntime) {
    let lines: [Line; 1] = [(b"u1", b"INV", b"MP1(D)", SECOND)];
    let Ok(reported) = reported_of(rt.alloc(), &lines) else {
        panic!(rt; "no memory");
    };
    assert!(rt; !reported);
}

// Whether these verdicts are of a chip without outputs.
fn reported_of(alloc: Global, lines: &[Line]) -> Result<bool, NoMemory> {
    let outputs = Names::new(alloc);
    let rows = rows_of(alloc, lines)?;
    Ok(are_of(&outputs, &rows))
}
