//! The words of a command.
ghost use Rattle.std.specs.Prelude.{◌≡◌, ℕ, List, map, IfSome, IsNone};
ghost use Rattle.std.specs.Option.{option_copied};
ghost use Rattle.std.specs.String.{string_bytes};
ghost use Rattle.ca_load.specs.Texts.{cells_of};
ghost use Rattle.ca_words.specs.Words.{IsRespond, IsPair, IsDefects, IsMatrix, IsMake};
ghost use Rattle.ca_words.specs.Words.{IsOnCell, IsOnChip, AsksNoFile, IsCommand};
ghost use Rattle.ca_words.specs.Command.{IsSpelledRespond, IsSpelledPair, IsSpelledDefects, IsSpelledMatrix};
ghost use Rattle.ca_words.specs.Command.{IsSpelledMake, IsSpelled};

use crate::budget::chip_number_of;
use crate::checks::{are_cell_files, is_called, is_file_name, is_vector};
use crate::chip_words::{
    parse_atpg, parse_bridges, parse_certify, parse_check, parse_diagnose, parse_flatten,
    parse_grade, parse_replay, parse_simulate, parse_verify,
};
use crate::prefix::{command_words, table_word};
use ca_load::{CellNames, FileNames};

/// A command, with its words as they were typed.
#[derive(Clone, Copy)]
pub enum Command<'a> {
    /// `respond CELLS CELL VECTOR`: VECTOR is both the first and the last vector, and there is no defect.
    Respond(PairWords<'a>),
    /// `pair CELLS CELL FIRST LAST DEFECT`.
    Pair(PairWords<'a>),
    /// `defects CELLS CELL`.
    Defects(CellWords<'a>),
    /// `matrix CELLS CELL OUT`.
    Matrix(MatrixWords<'a>),
    /// `check CELLS NETLIST SCAN`.
    Check(FileNames<'a>),
    /// `flatten CELLS NETLIST SCAN INSTANCE DEFECT OUT`.
    Flatten(FlattenWords<'a>),
    /// `simulate CELLS NETLIST SCAN INSTANCE DEFECT FIRST LAST`.
    Simulate(SimulateWords<'a>),
    /// `replay CELLS NETLIST SCAN INSTANCE DEFECT FIRST LAST ORDER`.
    Replay(ReplayWords<'a>),
    /// `atpg CELLS NETLIST SCAN STIL REPORT BUDGET`.
    Atpg(AtpgWords<'a>),
    /// `grade CELLS NETLIST SCAN STIL REPORT`.
    Grade(GradeWords<'a>),
    /// `diagnose CELLS NETLIST SCAN STIL LOG OUT`.
    Diagnose(DiagnoseWords<'a>),
    /// `certify CELLS NETLIST SCAN STIL CERT BUDGET`.
    Certify(CertifyWords<'a>),
    /// `verify CELLS NETLIST SCAN STIL CERT`.
    Verify(VerifyWords<'a>),
    /// `bridges CELLS NETLIST SCAN INSTANCE STIL REPORT BUDGET`.
    Bridges(BridgesWords<'a>),
    /// `make N`, with the number.
    Make(u32),
    /// `--help`.
    Help,
    /// `--version`.
    Version,
}

/// The files and the cell of a command on one cell.
#[derive(Clone, Copy)]
pub struct CellWords<'a> {
    pub files: CellNames<'a>,
    pub cell: &'a str,
}

/// The words of a command that asks for the values of a cell under two vectors, with a defect or a dash.
#[derive(Clone, Copy)]
pub struct PairWords<'a> {
    pub of: CellWords<'a>,
    pub first: &'a str,
    pub last: &'a str,
    pub defect: &'a str,
}

/// The words of a command that writes the matrix of a cell to a file.
#[derive(Clone, Copy)]
pub struct MatrixWords<'a> {
    pub of: CellWords<'a>,
    pub out: &'a str,
}

/// The files of a command on a chip, and a library instance with a defect of its cell, or two dashes.
#[derive(Clone, Copy)]
pub struct ChipWords<'a> {
    pub files: FileNames<'a>,
    pub instance: &'a str,
    pub defect: &'a str,
}

/// The words of a command that writes the flat network of a chip to a file.
#[derive(Clone, Copy)]
pub struct FlattenWords<'a> {
    pub of: ChipWords<'a>,
    pub out: &'a str,
}

/// The words of a command that asks for the values of a chip's outputs under two vectors.
#[derive(Clone, Copy)]
pub struct SimulateWords<'a> {
    pub of: ChipWords<'a>,
    pub first: &'a str,
    pub last: &'a str,
}

/// The words of a command that generates tests for a chip, with the budget that they say.
#[derive(Clone, Copy)]
pub struct AtpgWords<'a> {
    pub files: FileNames<'a>,
    pub stil: &'a str,
    pub report: &'a str,
    pub budget: u32,
}

/// The words of a command that grades the defects of a chip by the patterns in a file.
#[derive(Clone, Copy)]
pub struct GradeWords<'a> {
    pub files: FileNames<'a>,
    pub stil: &'a str,
    pub report: &'a str,
}

/// The words of a command that looks for the defects of a chip that a log of failing outputs leaves, under
/// the patterns in a file.
#[derive(Clone, Copy)]
pub struct DiagnoseWords<'a> {
    pub files: FileNames<'a>,
    pub stil: &'a str,
    pub log: &'a str,
    pub out: &'a str,
}

/// The words of a command that generates tests for a chip with a certificate, for each defect with this many
/// branches.
#[derive(Clone, Copy)]
pub struct CertifyWords<'a> {
    pub files: FileNames<'a>,
    pub stil: &'a str,
    pub cert: &'a str,
    pub budget: u32,
}

/// The words of a command that checks the certificate in a file, for the patterns in another.
#[derive(Clone, Copy)]
pub struct VerifyWords<'a> {
    pub files: FileNames<'a>,
    pub stil: &'a str,
    pub cert: &'a str,
}

/// The words of a command that generates tests for the pin bridges of a library instance, with the budget
/// that they say.
#[derive(Clone, Copy)]
pub struct BridgesWords<'a> {
    pub files: FileNames<'a>,
    pub instance: &'a str,
    pub stil: &'a str,
    pub report: &'a str,
    pub budget: u32,
}

/// The words of a command that replays one run of a chip, whose events are in a file.
#[derive(Clone, Copy)]
pub struct ReplayWords<'a> {
    pub of: SimulateWords<'a>,
    pub order: &'a str,
}

/// The command that the words spell.
pub fn parse(words: &[String]) -> Option<Command<'_>>
    ensures found { IfSome result (IsSpelled (map string_bytes words.now)) }
    ensures none { IsNone result → ¬ (IsCommand (map string_bytes words.now)) }
{
    if let Some(command) = parse_on_cell(words) {
        Some(command)
    } else if let Some(command) = parse_on_chip(words) {
        Some(command)
    } else {
        parse_asking(words)
    }
}

// The command on one cell.
fn parse_on_cell(words: &[String]) -> Option<Command<'_>>
    ensures found { IfSome result (IsSpelled (map string_bytes words.now)) }
    ensures none { IsNone result → ¬ (IsOnCell (map string_bytes words.now)) }
{
    if let Some(request) = parse_respond(words) {
        Some(Command::Respond(request))
    } else if let Some(request) = parse_pair(words) {
        Some(Command::Pair(request))
    } else if let Some(request) = parse_defects(words) {
        Some(Command::Defects(request))
    } else if let Some(request) = parse_matrix(words) {
        Some(Command::Matrix(request))
    } else {
        None
    }
}

// The command on a chip.
fn parse_on_chip(words: &[String]) -> Option<Command<'_>>
    ensures found { IfSome result (IsSpelled (map string_bytes words.now)) }
    ensures none { IsNone result → ¬ (IsOnChip (map string_bytes words.now)) }
{
    if let Some(names) = parse_check(words) {
        Some(Command::Check(names))
    } else if let Some(request) = parse_flatten(words) {
        Some(Command::Flatten(request))
    } else if let Some(request) = parse_simulate(words) {
        Some(Command::Simulate(request))
    } else if let Some(request) = parse_atpg(words) {
        Some(Command::Atpg(request))
    } else if let Some(request) = parse_replay(words) {
        Some(Command::Replay(request))
    } else if let Some(request) = parse_grade(words) {
        Some(Command::Grade(request))
    } else if let Some(request) = parse_diagnose(words) {
        Some(Command::Diagnose(request))
    } else if let Some(request) = parse_certify(words) {
        Some(Command::Certify(request))
    } else if let Some(request) = parse_verify(words) {
        Some(Command::Verify(request))
    } else if let Some(request) = parse_bridges(words) {
        Some(Command::Bridges(request))
    } else {
        None
    }
}

// The command that asks for no file.
fn parse_asking(words: &[String]) -> Option<Command<'_>>
    ensures found { IfSome result (IsSpelled (map string_bytes words.now)) }
    ensures none { IsNone result → ¬ (AsksNoFile (map string_bytes words.now)) }
{
    if let Some(number) = parse_make(words) {
        return Some(Command::Make(number));
    }
    let None = table_word(words) else {
        return None;
    };
    let [word] = command_words(words) else {
        return None;
    };
    if word.as_str() == "--help" {
        Some(Command::Help)
    } else if word.as_str() == "--version" {
        Some(Command::Version)
    } else {
        None
    }
}

fn parse_make(words: &[String]) -> Option<u32>
    ensures found { IfSome result (IsSpelledMake (map string_bytes words.now)) }
    ensures none { IsNone result → ¬ (IsMake (map string_bytes words.now)) }
{
    let None = table_word(words) else {
        return None;
    };
    let [command, word] = command_words(words) else {
        return None;
    };
    let Some(number) = chip_number_of(word) else {
        return None;
    };
    if command.as_str() == "make" {
        Some(number)
    } else {
        None
    }
}

// The files and the cell of a command on one cell.
fn cell_called<'a>(table: Option<&'a str>, cells: &'a str, cell: &'a str) -> CellWords<'a>
    ensures files { cells_of result.files ≡ record { table = option_copied table.entry; name = cells.now } }
    ensures cell { result.cell.now ≡ cell.now }
{
    CellWords {
        files: CellNames { table, name: cells },
        cell,
    }
}

fn parse_respond(words: &[String]) -> Option<PairWords<'_>>
    ensures found { IfSome result (IsSpelledRespond (map string_bytes words.now)) }
    ensures none { IsNone result → ¬ (IsRespond (map string_bytes words.now)) }
{
    let table = table_word(words);
    let [command, cells, cell, vector] = command_words(words) else {
        return None;
    };
    if command.as_str() == "respond" && are_cell_files(table, cells) && is_vector(vector) {
        Some(PairWords {
            of: cell_called(table, cells, cell),
            first: vector.as_str(),
            last: vector.as_str(),
            defect: "-",
        })
    } else {
        None
    }
}

fn parse_pair(words: &[String]) -> Option<PairWords<'_>>
    ensures found { IfSome result (IsSpelledPair (map string_bytes words.now)) }
    ensures none { IsNone result → ¬ (IsPair (map string_bytes words.now)) }
{
    let table = table_word(words);
    let [command, cells, cell, first, last, defect] = command_words(words) else {
        return None;
    };
    if command.as_str() == "pair"
        && are_cell_files(table, cells)
        && is_vector(first)
        && is_vector(last)
    {
        Some(PairWords {
            of: cell_called(table, cells, cell),
            first: first.as_str(),
            last: last.as_str(),
            defect: defect.as_str(),
        })
    } else {
        None
    }
}

fn parse_defects(words: &[String]) -> Option<CellWords<'_>>
    ensures found { IfSome result (IsSpelledDefects (map string_bytes words.now)) }
    ensures none { IsNone result → ¬ (IsDefects (map string_bytes words.now)) }
{
    let table = table_word(words);
    let [command, cells, cell] = command_words(words) else {
        return None;
    };
    if command.as_str() == "defects" && are_cell_files(table, cells) {
        Some(cell_called(table, cells, cell))
    } else {
        None
    }
}

fn parse_matrix(words: &[String]) -> Option<MatrixWords<'_>>
    ensures found { IfSome result (IsSpelledMatrix (map string_bytes words.now)) }
    ensures none { IsNone result → ¬ (IsMatrix (map string_bytes words.now)) }
{
    let table = table_word(words);
    let [command, cells, cell, out] = command_words(words) else {
        return None;
    };
    if command.as_str() == "matrix"
        && are_cell_files(table, cells)
        && is_file_name(out)
        && out.as_str() != cells.as_str()
        && !is_called(table, out)
    {
        Some(MatrixWords {
            of: cell_called(table, cells, cell),
            out: out.as_str(),
        })
    } else {
        None
    }
}
