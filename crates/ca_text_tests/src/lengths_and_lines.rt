//! Cases of the netlist readers, worked out by hand.

use ca_lex::{Length, fold, read_length, spice_lines, spice_words};
use std::alloc::Global;
use std::test::Fail;

static LENGTHS: [(&[u8], u128); 23] = [
    (b"0.415000U", 415_000_000_000),
    (b"415n", 415_000_000_000),
    (b"4.15e-07", 415_000_000_000),
    (b"415000000000e-18", 415_000_000_000),
    (b"415NM", 415_000_000_000),
    (b"1.", 1_000_000_000_000_000_000),
    (b".5", 500_000_000_000_000_000),
    (b"1UM", 1_000_000_000_000),
    (b"1mm", 1_000_000_000_000_000),
    (b"1M", 1_000_000_000_000_000),
    (b"2p", 2_000_000),
    (b"3fm", 3_000),
    (b"1e6", 1_000_000_000_000_000_000_000_000),
    (b"10e5", 1_000_000_000_000_000_000_000_000),
    (b"1E+06", 1_000_000_000_000_000_000_000_000),
    (b"1e-18", 1),
    (b"1.9e-18", 1),
    (b"1e9N", 1_000_000_000_000_000_000),
    (
        b"00000000000000000000000000000001",
        1_000_000_000_000_000_000,
    ),
    (b"10000000000000000000000000000000e-49", 1),
    (
        b"99999999999999999999999999999999e-31",
        9_999_999_999_999_999_999,
    ),
    (b"0.0000000000000000001e1", 1),
    (b"9e5", 900_000_000_000_000_000_000_000),
];

static NO_LENGTHS: [&[u8]; 26] = [
    b"",
    b".",
    b"U",
    b"e5",
    b"1e",
    b"1e+",
    b"1e-",
    b"1e123",
    b"1e-99",
    b"10e23",
    b"1e24",
    b"1e7",
    b"1000001",
    b"0",
    b"0.0u",
    b"1e-19",
    b"1meg",
    b"1MMM",
    b"1MU",
    b"1k",
    b"1.2.3",
    b"-1u",
    b"+1u",
    b"1 u",
    b"000000000000000000000000000000001",
    b"1ue-3",
];

#[test]
fn lengths(rt: HostRuntime) {
    for (word, length) in &LENGTHS {
        assert_eq!(rt; read_length(word), Some(Length(*length)), "{length}");
    }
    for word in &NO_LENGTHS {
        assert_eq!(rt; read_length(word), None, "{word:?}");
    }
}

/// Whether the text has these logical lines, each with its number.
fn has_lines(alloc: Global, text: &[u8], wanted: &[(usize, &[u8])]) -> bool {
    let Ok(lines) = spice_lines(alloc, text) else {
        return false
    };
    let lines = lines.as_slice();
    if lines.len() != wanted.len() {
        return false;
    }
    for (i, (number, text)) in wanted.iter().enumerate() {
        if lines[i].line != *number || !lines[i].text.is(text) {
            return false;
        }
    }
    true
}

static LINES: [(&[u8], &[(usize, &[u8])]); 18] = [
    (b"", &[]),
    (b"\n\n", &[]),
    (b"* a comment\n  \t\r\n$ another\n", &[]),
    (b".END", &[(1, b".END")]),
    (b"M1 a\r\n", &[(1, b"M1 a\r")]),
    (b" \t.GLOBAL A $ B\n", &[(1, b".GLOBAL A ")]),
    (b".GLOBAL A$B =$ C\n", &[(1, b".GLOBAL A$B =")]),
    (b"M1 a\n+ b\n+c\n", &[(1, b"M1 a  b c")]),
    (b"M1 a\n*x\n\n$y\n + b\n", &[(1, b"M1 a  b")]),
    (b"M1 a\n+$x\nM2\n", &[(1, b"M1 a "), (3, b"M2")]),
    (b"M1 $x\n+ b $y\n", &[(1, b"M1   b ")]),
    (b"+ a\n+ b\nM1\n", &[(1, b"+ a"), (2, b"+ b"), (3, b"M1")]),
    (b"+$x\n", &[(1, b"+")]),
    (b".ENDS\n+ N\n", &[(1, b".ENDS  N")]),
    (b"\n*.PININFO A:I $x\n", &[(2, b"*.PININFO A:I ")]),
    (
        b"*.PinInfo A:I\n*x\n\n+ B:O\n",
        &[(1, b"*.PinInfo A:I"), (4, b"+ B:O")],
    ),
    (
        b"M1\n*.pininfo=\n+ b\nM2\n",
        &[(1, b"M1"), (2, b"*.pininfo="), (3, b"+ b"), (4, b"M2")],
    ),
    (b"*.PININFOS A:I\n* .PININFO\n", &[]),
];

/// Whether the text has these words.
fn has_words(alloc: Global, text: &[u8], wanted: &[&[u8]]) -> bool {
    let Ok(words) = spice_words(alloc, text) else {
        return false
    };
    if words.len() != wanted.len() {
        return false;
    }
    for (i, word) in wanted.iter().enumerate() {
        if words[i] != *word {
            return false;
        }
    }
    true
}

static WORDS: [(&[u8], &[&[u8]]); 5] = [
    (b"", &[]),
    (b" \t\r ", &[]),
    (b"W=4u", &[b"W", b"=", b"4u"]),
    (b"  M1\tx$y \r== ", &[b"M1", b"x$y", b"=", b"="]),
    (b"\x00 \xff\x0b", &[b"\x00", b"\xff\x0b"]),
];

#[test]
fn lines_and_words(rt: HostRuntime) -> Result<(), Fail> {
    let alloc = rt.alloc();
    for (text, wanted) in &LINES {
        assert!(rt; has_lines(alloc, text, wanted), "{text:?}");
    }
    for (text, wanted) in &WORDS {
        assert!(rt; has_words(alloc, text, wanted), "{text:?}");
    }
    assert!(rt; fold(alloc, b"*.PinInfo a1_z")?.is(b"*.PININFO A1_Z"));
    Ok(())
}
