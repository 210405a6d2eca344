//! Logs for outputs of which two have one name.

ghost use Rattle.std.specs.Prelude.{◌≡◌, length, IsTrue};
ghost use Rattle.std.specs.List.{All};

use ca_base::{List, NoMemory};
use ca_lex::{Names, Text};
use ca_log::{Log, LogFault, read_log};
use ca_net::Trit;
use std::alloc::Global;

// What a log reads as: its first and its last record, and how many there are; or its first bad record.
#[derive(Clone, Copy, Debug, PartialEq, Eq)]
enum Seen {
    Empty,
    Log((u32, u32), (u32, u32), usize),
    Row(usize),
    Nothing,
}

// Three outputs, of which the first and the last have one name, and two pairs.
const NAMES: [&[u8]; 3] = [b"u1/D", b"y[0]", b"u1/D"];

const EXPECTED: [[Trit; 3]; 2] = [
    [Trit::One, Trit::Zero, Trit::One],
    [Trit::X, Trit::Zero, Trit::One],
];

static ROWS: [(&[u8], Seen); 8] = [
    (b"pair,output\n", Seen::Empty),
    // The name means the first output that bears it, under each pair: under the second no value is expected.
    (b"pair,output\n0,u1/D\n", Seen::Log((0, 0), (0, 0), 1)),
    (
        b"pair,output\n1,y[0]\n0,u1/D\n",
        Seen::Log((1, 1), (0, 0), 2),
    ),
    (b"pair,output\n1,u1/D\n", Seen::Row(2)),
    (b"pair,output\n0,u1/D\n0,u1/D\n", Seen::Row(3)),
    (
        b"pair,output\n0,y[0]\n\n1,y[0]\n",
        Seen::Log((0, 1), (1, 1), 2),
    ),
    (b"pair,output\n0,Y[0]\n", Seen::Row(2)),
    (b"pair,output\n4294967296,y[0]\n", Seen::Row(2)),
];

fn names_of(alloc: Global) -> Result<Names, NoMemory> {
    let mut names = Names::new(alloc);
    for name in &NAMES {
        names.push(Text::from_bytes(alloc, name)?)?;
    }
    Ok(names)
}

fn expected_of(alloc: Global) -> Result<List<List<Trit>>, NoMemory> {
    let mut expected = List::new(alloc);
    for values in &EXPECTED {
        let mut list = List::new(alloc);
        for value in values {
            list.push(*value)?;
        }
        expected.push(list)?;
    }
    Ok(expected)
}

// Whether there is a value for each name, which the reader asks for.
fn fits(names: &Names, expected: &[List<Trit>]) -> bool
    ensures { IsTrue result → All (λ values. length values ≡ length names.now) expected.now }
{
    expected.iter().all(|values| values.len() == names.len())
}

fn seen_of(log: &Log) -> Seen {
    match log.as_slice() {
        [] => Seen::Empty,
        [only] => Seen::Log((only.pair, only.output), (only.pair, only.output), 1),
        [first, .., last] => Seen::Log(
            (first.pair, first.output),
            (last.pair, last.output),
            log.len(),
        ),
    }
}

fn seen_in(alloc: Global, text: &[u8]) -> Seen {
    let (Ok(names), Ok(expected)) = (names_of(alloc), expected_of(alloc)) else {
        return Seen::Nothing;
    };
    if expected.len() > 4 || !fits(&names, expected.as_slice()) {
        return Seen::Nothing;
    }
    match read_log(alloc, &names, expected.as_slice(), text) {
        Ok(log) => seen_of(&log),
        Err(LogFault::BadLogRow { row }) => Seen::Row(row),
        Err(LogFault::NoMemory) => Seen::Nothing,
    }
}

#[test]
fn logs_are_read_as_worked_out(rt: HostRuntime) {
    for (text, wanted) in &ROWS {
        let seen = seen_in(rt.alloc(), text);
        assert!(rt; seen == *wanted, "{:?}", seen);
    }
}
