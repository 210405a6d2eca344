//! What a command answers where it doesn't end well.
ghost use Rattle.std.specs.Prelude.{◌≡◌, ◌++◌, decimal, OnOk, OnErr};
ghost use Rattle.ca_fault.specs.declared.fault.Fault.TheVariants as fault;
ghost use Rattle.ca_store.specs.Store.{Rose, KeepsCount, appended, AppendsPart};

use crate::kinds::{chip_text, kind_text, limit_text, most_text, netlist_text, rule_text};
use crate::pieces::write_pieces;
use crate::three::FaultText;
use ca_base::{List, NoMemory};
use ca_cell::CellRule;
use ca_lex::Text;
use ca_pair::Pairs;
use ca_spice::SpiceKind;
use ca_store::{Failed, Sink};
use ca_verilog::VerilogKind;
use ca_wiring::ChipFault;
use itoa::Buffer;

/// Why a command didn't end well. Words are as they were typed.
#[derive(Drop)]
pub enum Fault {
    /// The words are those of no command.
    BadWords,
    /// The strength table breaks its form. Records are counted from 1, and the header is the first.
    Strengths {
        row: usize,
    },
    /// The cell netlist has no reading. Lines are counted from 1.
    Cells {
        line: usize,
        kind: SpiceKind,
    },
    /// The gate netlist has no reading. Lines are counted from 1.
    Netlist {
        line: usize,
        kind: VerilogKind,
    },
    /// The table of scan cells breaks its form. Records are counted from 1, and the header is the first.
    Scan {
        row: usize,
    },
    /// The gate netlist breaks a rule of linking, the first of those that it breaks. A rule that an
    /// instance's cell breaks is reported as `Cell`, a limit as `Limit`, and out of memory as `NoMemory`. The
    /// place names what the rule carries, and is empty where there was no memory for it.
    Chip {
        rule: ChipFault,
        place: Text,
    },
    /// The scan instance is on no whole chain, the first of those. Its name is as in the netlist.
    Chain {
        instance: Text,
    },
    /// The cell netlist has no cell of this name.
    NoCell {
        word: Text,
    },
    /// The cell breaks a rule of used cells, the first of those that it breaks. Its name is in upper case.
    /// The place names what the rule carries, and on a chip the instance; it is empty where there is nothing
    /// to name, or was no memory for it.
    Cell {
        cell: Text,
        rule: CellRule,
        place: Text,
    },
    /// A vector has more or fewer letters than the cell has input pins.
    BadVector {
        word: Text,
    },
    /// The chip has no library instance of this name.
    NoInstance {
        word: Text,
    },
    /// The cell has no defect of this name.
    NoDefect {
        word: Text,
    },
    /// The order file has a line that is none, or that may not be there, the first of those. Lines are
    /// counted from 1.
    Order {
        line: usize,
    },
    /// The file of patterns isn't of the form. Lines are counted from 1.
    Stil {
        line: usize,
    },
    /// The file of patterns is of the form, and of another chip: its signals, groups or chains aren't these.
    StilChip,
    /// An expected value of the file of patterns isn't what the good chip ends with: the first pair with such
    /// a value, and the first observed output at which it isn't, both counted from 0.
    Expected {
        pair: u32,
        output: u32,
    },
    /// The log of failing outputs has a record that is bad, the first of those. Records are counted from 1,
    /// and the header is the first.
    Log {
        row: usize,
    },
    /// The certificate isn't of the form. Lines are counted from 1.
    Cert {
        line: usize,
    },
    /// The certificate is of the form, and has more or fewer claims than the chip has defects.
    CertChip {
        claims: usize,
    },
    /// A file has more bytes than it may have. That many were taken.
    TooLong {
        name: Text,
        taken: usize,
    },
    /// As many pairs are listed as there may be, and one more was found. It comes last. Each has, as its aim,
    /// the place of the defect for which it was found.
    TooManyPairs {
        pairs: Pairs,
        aims: List<u32>,
    },
    /// There is more of something than there may be.
    Limit {
        kind: LimitKind,
        count: usize,
    },
    /// A file wasn't there, or the system failed at it.
    StoreFailed {
        name: Text,
    },
    /// The output took no more bytes.
    SinkFailed,
    /// There was no memory.
    NoMemory,
}

/// What there is too much of.
#[derive(Clone, Copy, Debug, PartialEq, Eq)]
pub enum LimitKind {
    /// A cell netlist has more than 1,024 cells.
    Cells,
    /// A gate netlist declares more than 131,072 bits.
    Nets,
    /// A chip has more than 32,768 library instances.
    Instances,
    /// A chip has more than 4,096 inputs.
    Inputs,
    /// A chip has more than 8,192 observed outputs.
    Outputs,
    /// A chip has more than 1,048,576 defects.
    Defects,
    /// A chip has more than 64 scan chains.
    Chains,
    /// A file of patterns lists more than 65,536 pairs.
    Pairs,
}

impl Fault {
    ghost use Rattle.ca_fault.specs.FaultLine.{status_of, text_of, line_of, place_line};
    ghost use Rattle.ca_fault.specs.code.FaultLine.{number_of, last_number_of, joined_of};

    /// The exit status that stands for the fault.
    pub fn status(&self) -> u8
        ensures { result ≡ status_of self.now }
    {
        match self {
            Fault::BadWords => 1,
            Fault::Strengths { .. }
            | Fault::Cells { .. }
            | Fault::Netlist { .. }
            | Fault::Scan { .. }
            | Fault::Chip { .. }
            | Fault::Chain { .. }
            | Fault::NoCell { .. }
            | Fault::Cell { .. }
            | Fault::BadVector { .. }
            | Fault::NoInstance { .. }
            | Fault::NoDefect { .. }
            | Fault::Order { .. }
            | Fault::Stil { .. }
            | Fault::StilChip
            | Fault::Expected { .. }
            | Fault::Log { .. }
            | Fault::Cert { .. }
            | Fault::CertChip { .. } => 2,
            Fault::TooLong { .. } | Fault::TooManyPairs { .. } | Fault::Limit { .. } => 3,
            Fault::StoreFailed { .. } | Fault::SinkFailed => 4,
            Fault::NoMemory => 5,
        }
    }

    /// Appends the line of the fault. It takes no memory. After `Failed` some of its first bytes were
    /// appended.
    pub fn print<W: Sink>(&self, err: &mut W) -> Result<(), Failed>
        ensures ok { OnOk result (W.bytes err.new ≡ appended (line_of self.now) (W.bytes err.old)) }
        ensures err { OnErr result
            (AppendsPart (line_of self.now) (W.bytes err.old) (W.bytes err.new)) }
        ensures cause { OnErr result (Rose (W.faults err.old) (W.faults err.new)) }
        ensures count { KeepsCount result (W.faults err.old) (W.faults err.new) }
    {
        let mut buffer = Buffer::new();
        let mut last = Buffer::new();
        let text = self.text(
            buffer.format(self.number()).as_bytes(),
            last.format(self.last_number()).as_bytes(),
        );
        write_pieces(
            err,
            &[
                b"cellaware: ".as_slice(),
                text.start,
                text.word,
                text.end,
                text.last,
                b"\n".as_slice(),
            ],
        )
    }

    /// Appends the line with the names of what the fault carries, if it carries any. It takes no memory.
    /// After `Failed` some of its first bytes were appended.
    pub fn print_place<W: Sink>(&self, err: &mut W) -> Result<(), Failed>
        ensures ok { OnOk result (W.bytes err.new ≡ appended (place_line self.now) (W.bytes err.old)) }
        ensures err { OnErr result
            (AppendsPart (place_line self.now) (W.bytes err.old) (W.bytes err.new)) }
        ensures cause { OnErr result (Rose (W.faults err.old) (W.faults err.new)) }
        ensures count { KeepsCount result (W.faults err.old) (W.faults err.new) }
    {
        let mut buffer = Buffer::new();
        let text = self.place(buffer.format(self.number()).as_bytes());
        write_pieces(err, &[text.start, text.word, text.end, text.last])
    }

    // The number in the text of the fault.
    fn number(&self) -> usize
        ensures { result ≡ number_of self.now }
    {
        match self {
            Fault::Cells { line, .. } | Fault::Netlist { line, .. } => *line,
            Fault::Strengths { row } | Fault::Scan { row } | Fault::Log { row } => *row,
            Fault::Order { line } | Fault::Stil { line } | Fault::Cert { line } => *line,
            Fault::CertChip { claims } => *claims,
            Fault::Expected { pair, .. } => *pair as usize,
            Fault::Limit { count, .. } => *count,
            _ => 0,
        }
    }

    // The number after it, where there are two.
    fn last_number(&self) -> usize
        ensures { result ≡ last_number_of self.now }
    {
        match self {
            Fault::Expected { output, .. } => *output as usize,
            _ => 0,
        }
    }

    // The line with the names of what the fault carries, for which its number is written already.
    fn place<'a>(&'a self, number: &'a [u8]) -> FaultText<'a>
        requires { number.now ≡ decimal (number_of self.now) }
        ensures { joined_of result ≡ place_line self.now }
    {
        match self {
            Fault::Chip { place, .. } | Fault::Cell { place, .. } => FaultText::indented(place),
            Fault::Limit { kind, .. } => FaultText {
                start: b"  ",
                word: number,
                end: most_text(*kind),
                last: &[],
            },
            _ => FaultText::plain(&[]),
        }
    }

    // The text of the fault, for which its numbers are written already.
    fn text<'a>(&'a self, number: &'a [u8], last: &'a [u8]) -> FaultText<'a>
        requires number { number.now ≡ decimal (number_of self.now) }
        requires last { last.now ≡ decimal (last_number_of self.now) }
        ensures { joined_of result ≡ text_of self.now }
    {
        match self {
            Fault::BadWords => FaultText::plain(b"bad command line"),
            Fault::Strengths { .. } => FaultText {
                start: b"strengths: record ",
                word: number,
                end: &[],
                last: &[],
            },
            Fault::Cells { kind, .. } => FaultText {
                start: b"cells: line ",
                word: number,
                end: kind_text(*kind),
                last: &[],
            },
            Fault::Netlist { kind, .. } => FaultText {
                start: b"netlist: line ",
                word: number,
                end: netlist_text(*kind),
                last: &[],
            },
            Fault::Scan { .. } => FaultText {
                start: b"scan table: record ",
                word: number,
                end: &[],
                last: &[],
            },
            Fault::Chip { rule, .. } => FaultText::plain(chip_text(rule)),
            Fault::Chain { instance } => {
                FaultText::with_word(b"scan chain broken at ", instance)
            }
            Fault::NoCell { word } => FaultText::with_word(b"no cell ", word),
            Fault::Cell { cell, rule, .. } => FaultText {
                start: b"cell ",
                word: cell.as_bytes(),
                end: rule_text(*rule),
                last: &[],
            },
            Fault::BadVector { word } => FaultText::with_word(b"bad vector: ", word),
            Fault::NoInstance { word } => FaultText::with_word(b"no instance ", word),
            Fault::NoDefect { word } => FaultText::with_word(b"no defect ", word),
            Fault::Order { .. } => FaultText {
                start: b"order: line ",
                word: number,
                end: &[],
                last: &[],
            },
            Fault::Stil { .. } => FaultText {
                start: b"stil: line ",
                word: number,
                end: &[],
                last: &[],
            },
            Fault::StilChip => FaultText::plain(b"stil: other chip"),
            Fault::Expected { .. } => FaultText {
                start: b"expected value: pair ",
                word: number,
                end: b" output ",
                last,
            },
            Fault::Log { .. } => FaultText {
                start: b"log: record ",
                word: number,
                end: &[],
                last: &[],
            },
            Fault::Cert { .. } => FaultText {
                start: b"certificate: line ",
                word: number,
                end: &[],
                last: &[],
            },
            Fault::CertChip { .. } => FaultText {
                start: b"certificate: ",
                word: number,
                end: b" claims",
                last: &[],
            },
            Fault::TooLong { name, .. } => FaultText::with_word(b"file too long: ", name),
            Fault::TooManyPairs { .. } => FaultText::plain(b"too many pairs"),
            Fault::Limit { kind, .. } => FaultText {
                start: limit_text(*kind),
                word: number,
                end: &[],
                last: &[],
            },
            Fault::StoreFailed { name } => FaultText::with_word(b"file fault: ", name),
            Fault::SinkFailed => FaultText::plain(b"output fault"),
            Fault::NoMemory => FaultText::plain(b"out of memory"),
        }
    }
}

impl From<NoMemory> for Fault {
    ghost from_gives = { λ _ e. e ≡ fault.NoMemory };

    fn from(_: NoMemory) -> Self {
        Fault::NoMemory
    }
}
