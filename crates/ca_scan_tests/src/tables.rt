//! Scan tables: texts, each with what it reads as.

use ca_scan::{ScanRow, read_table};
use std::alloc::Global;

// The fields of a row, in the order of the header.
fn has_fields(row: &ScanRow, fields: [&[u8]; 9]) -> bool {
    row.cell.is(fields[0])
        && row.d.is(fields[1])
        && row.q.is(fields[2])
        && row.qn.is(fields[3])
        && row.si.is(fields[4])
        && row.so.is(fields[5])
        && row.se.is(fields[6])
        && row.ck.is(fields[7])
        && row.hold.is(fields[8])
}

// Whether a text is a table of these cells.
fn reads(alloc: Global, text: &[u8], cells: &[&[u8]]) -> bool {
    let Ok(table) = read_table(alloc, text) else {
        return false;
    };
    let rows = table.as_slice();
    if rows.len() != cells.len() {
        return false;
    }
    for k in 0..rows.len() {
        if !rows[k].cell.is(cells[k]) {
            return false;
        }
    }
    true
}

const SOUND: [(&[u8], &[&[u8]]); 9] = [
    (b"cell,d,q,qn,si,so,se,ck,hold", &[]),
    (b"cell,d,q,qn,si,so,se,ck,hold\n", &[]),
    (
        b"cell,d,q,qn,si,so,se,ck,hold\nSDFF,D,Q,QN,SI,SO,SE,CK,HOLD\n",
        &[b"SDFF"],
    ),
    // No inverted output.
    (
        b"cell,d,q,qn,si,so,se,ck,hold\nSDFF,D,Q,,SI,SO,SE,CK,HOLD\n",
        &[b"SDFF"],
    ),
    // Fields are folded to upper case; lines may end with a carriage return and a line feed.
    (
        b"cell,d,q,qn,si,so,se,ck,hold\r\nsdff,d,q,qn,si,so,se,ck,hold\r\n",
        &[b"SDFF"],
    ),
    // A byte order mark, and blank lines.
    (
        b"\xEF\xBB\xBFcell,d,q,qn,si,so,se,ck,hold\nSDFF,D,Q,,SI,SO,SE,CK,HOLD\n",
        &[b"SDFF"],
    ),
    (
        b"\n\ncell,d,q,qn,si,so,se,ck,hold\n\r\nSDFF,D,Q,,SI,SO,SE,CK,HOLD\n\n",
        &[b"SDFF"],
    ),
    // Quotes, as CSV takes them.
    (
        b"\"cell\",d,q,qn,si,so,se,ck,hold\n\"SD,FF\",D,Q,\"\",SI,SO,SE,CK,HOLD",
        &[b"SD,FF"],
    ),
    // Two cells with the same pins, in order.
    (
        b"cell,d,q,qn,si,so,se,ck,hold\nS2,D,Q,,SI,SO,SE,CK,H\nS1,D,Q,,SI,SO,SE,CK,H\n",
        &[b"S2", b"S1"],
    ),
];

#[test]
fn sound_tables(rt: HostRuntime) {
    for (text, cells) in SOUND {
        assert!(rt; reads(rt.alloc(), text, cells), "{text:?}");
    }
}

#[test]
fn fields_by_name(rt: HostRuntime) {
    let text = b"cell,d,q,qn,si,so,se,ck,hold\nc0,p1,p2,p3,p4,p5,p6,p7,p8\n";
    let fields: [&[u8]; 9] = [
        b"C0", b"P1", b"P2", b"P3", b"P4", b"P5", b"P6", b"P7", b"P8",
    ];
    let table = read_table(rt.alloc(), text);
    let Ok(table) = table else {
        panic!(rt; "no table");
    };
    assert!(rt; table.len() == 1);
    let [row] = table.as_slice() else {
        panic!(rt; "no row");
    };
    assert!(rt; has_fields(row, fields));
}
