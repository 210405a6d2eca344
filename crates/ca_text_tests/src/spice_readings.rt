//! Texts of cell netlists that have a reading.

use ca_cell::StrengthTable;
use ca_spice::read_library;
use std::alloc::Global;

/// Texts that have a reading, with the number of their cells.
static READINGS: [(&[u8], usize); 13] = [
    (b"", 0),
    (b"* a comment \x80\n\n$ another \x80\n", 0),
    (b"*.PININFO \x80 X\n", 0),
    (
        b"C1 ( = , $ \x80\nD1 A B\n+ C\n.OPTION X=Y\n.options\n.PARAM\n.END\n",
        0,
    ),
    (b".SUBCKT A B\n*.PININFO B:I\n.ENDS", 1),
    (b".subckt a b\r\n*.pininfo B:i\r\n.ends A\r\n.end\r\n", 1),
    (
        b"\t.SUBCKT A\n+ B $ \x80\n+$X\n*.PININFO B:I $ C\n.ENDS\n",
        1,
    ),
    (
        b".SUBCKT A B C:\n*.PININFO B:I\n* between\n*.PININFO C::O\n.ENDS\n",
        1,
    ),
    (
        b".SUBCKT A B\n*.PININFO B:I\nM1 B B B = N W = 1U\n+ L\n+ =1U X = = Y=( \n.ENDS\n",
        1,
    ),
    (
        b".SUBCKT A B\n*.PININFO B:I\nM = = = = P L=1U AD=1 AD=2 W=1U\n.ENDS\n",
        1,
    ),
    (
        b".SUBCKT A V1 V2 G1 G2\n*.PININFO V1:P V2:P G1:G G2:G\n.ENDS\n",
        1,
    ),
    (
        b".SUBCKT A A\n*.PININFO A:I\n.ENDS\n.SUBCKT B A\n*.PININFO A:I\n.ENDS\n",
        2,
    ),
    (
        b".SUBCKT A A\nMA A A A A N W=1U L=1U\n*.PININFO A:I\n.ENDS\n*.PININFO X\n",
        1,
    ),
];

/// The number of cells that a text has, if it has a reading.
fn cells_of(alloc: Global, text: &[u8]) -> Option<usize> {
    match read_library(alloc, &StrengthTable::default_table(), text) {
        Ok(library) => Some(library.len()),
        Err(_) => None,
    }
}

#[test]
fn readings(rt: HostRuntime) {
    for (text, cells) in &READINGS {
        assert_eq!(rt; cells_of(rt.alloc(), text), Some(*cells), "{text:?}");
    }
}
