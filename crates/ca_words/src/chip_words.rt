//! The words of a command on a chip.
ghost use Rattle.std.specs.Prelude.{◌≡◌, ◌≢◌, ℕ, List, map, IfSome, IsNone, IsTrue, ◌↔◌};
ghost use Rattle.std.specs.Option.{option_copied};
ghost use Rattle.std.specs.String.{string_bytes};
ghost use Rattle.ca_load.specs.Texts.{names_of};
ghost use Rattle.ca_request.specs.Asked.{AreBothOrNeither};
ghost use Rattle.ca_words.specs.Words.{file_called, AreChipFiles, IsOtherFile};
ghost use Rattle.ca_words.specs.Words.{IsCheck, IsFlatten, IsSimulate, IsAtpg, IsReplay, IsGrade};
ghost use Rattle.ca_words.specs.Words.{IsDiagnose, IsCertify, IsVerify, IsBridges};
ghost use Rattle.ca_words.specs.Command.{IsSpelledCheck, IsSpelledFlatten, IsSpelledSimulate};
ghost use Rattle.ca_words.specs.Command.{IsSpelledAtpg, IsSpelledReplay, IsSpelledGrade};
ghost use Rattle.ca_words.specs.Command.{IsSpelledDiagnose, IsSpelledCertify, IsSpelledVerify};
ghost use Rattle.ca_words.specs.Command.{IsSpelledBridges};

use crate::budget::budget_of;
use crate::checks::{are_cell_files, is_called, is_file_name, is_vector};
use crate::prefix::{command_words, table_word};
use crate::words::{
    AtpgWords, BridgesWords, CertifyWords, ChipWords, DiagnoseWords, FlattenWords, GradeWords,
    ReplayWords, SimulateWords, VerifyWords,
};
use ca_load::{CellNames, FileNames};

/// The words of `check`, if they spell it.
pub(crate) fn parse_check(words: &[String]) -> Option<FileNames<'_>>
    ensures found { IfSome result (IsSpelledCheck (map string_bytes words.now)) }
    ensures none { IsNone result → ¬ (IsCheck (map string_bytes words.now)) }
{
    let table = table_word(words);
    let [command, cells, netlist, scan] = command_words(words) else {
        return None;
    };
    if command.as_str() == "check" && are_chip_files(table, cells, netlist, scan) {
        Some(files_called(table, cells, netlist, scan))
    } else {
        None
    }
}

/// Those of `flatten`.
pub(crate) fn parse_flatten(words: &[String]) -> Option<FlattenWords<'_>>
    ensures found { IfSome result (IsSpelledFlatten (map string_bytes words.now)) }
    ensures none { IsNone result → ¬ (IsFlatten (map string_bytes words.now)) }
{
    let table = table_word(words);
    let [command, cells, netlist, scan, instance, defect, out] = command_words(words) else {
        return None;
    };
    if command.as_str() == "flatten"
        && are_chip_files(table, cells, netlist, scan)
        && are_both_or_neither(instance, defect)
        && is_other_file(out, table, cells, netlist, scan)
    {
        Some(FlattenWords {
            of: ChipWords {
                files: files_called(table, cells, netlist, scan),
                instance: instance.as_str(),
                defect: defect.as_str(),
            },
            out: out.as_str(),
        })
    } else {
        None
    }
}

/// Those of `simulate`.
pub(crate) fn parse_simulate(words: &[String]) -> Option<SimulateWords<'_>>
    ensures found { IfSome result (IsSpelledSimulate (map string_bytes words.now)) }
    ensures none { IsNone result → ¬ (IsSimulate (map string_bytes words.now)) }
{
    let table = table_word(words);
    let [command, cells, netlist, scan, instance, defect, first, last] = command_words(words) else {
        return None;
    };
    if command.as_str() == "simulate"
        && are_chip_files(table, cells, netlist, scan)
        && are_both_or_neither(instance, defect)
        && is_vector(first)
        && is_vector(last)
    {
        Some(SimulateWords {
            of: ChipWords {
                files: files_called(table, cells, netlist, scan),
                instance: instance.as_str(),
                defect: defect.as_str(),
            },
            first: first.as_str(),
            last: last.as_str(),
        })
    } else {
        None
    }
}

/// Those of `atpg`.
pub(crate) fn parse_atpg(words: &[String]) -> Option<AtpgWords<'_>>
    ensures found { IfSome result (IsSpelledAtpg (map string_bytes words.now)) }
    ensures none { IsNone result → ¬ (IsAtpg (map string_bytes words.now)) }
{
    let table = table_word(words);
    let [command, cells, netlist, scan, stil, report, budget] = command_words(words) else {
        return None;
    };
    let Some(budget) = budget_of(budget) else {
        return None;
    };
    if command.as_str() == "atpg"
        && are_chip_files(table, cells, netlist, scan)
        && is_other_file(stil, table, cells, netlist, scan)
        && is_other_file(report, table, cells, netlist, scan)
        && report.as_str() != stil.as_str()
    {
        Some(AtpgWords {
            files: files_called(table, cells, netlist, scan),
            stil: stil.as_str(),
            report: report.as_str(),
            budget,
        })
    } else {
        None
    }
}

/// Those of `replay`.
pub(crate) fn parse_replay(words: &[String]) -> Option<ReplayWords<'_>>
    ensures found { IfSome result (IsSpelledReplay (map string_bytes words.now)) }
    ensures none { IsNone result → ¬ (IsReplay (map string_bytes words.now)) }
{
    let table = table_word(words);
    let [
        command,
        cells,
        netlist,
        scan,
        instance,
        defect,
        first,
        last,
        order,
    ] = command_words(words)
    else {
        return None;
    };
    if command.as_str() == "replay"
        && are_chip_files(table, cells, netlist, scan)
        && are_both_or_neither(instance, defect)
        && is_vector(first)
        && is_vector(last)
        && is_other_file(order, table, cells, netlist, scan)
    {
        Some(ReplayWords {
            of: SimulateWords {
                of: ChipWords {
                    files: files_called(table, cells, netlist, scan),
                    instance: instance.as_str(),
                    defect: defect.as_str(),
                },
                first: first.as_str(),
                last: last.as_str(),
            },
            order: order.as_str(),
        })
    } else {
        None
    }
}

/// Those of `grade`.
pub(crate) fn parse_grade(words: &[String]) -> Option<GradeWords<'_>>
    ensures found { IfSome result (IsSpelledGrade (map string_bytes words.now)) }
    ensures none { IsNone result → ¬ (IsGrade (map string_bytes words.now)) }
{
    let table = table_word(words);
    let [command, cells, netlist, scan, stil, report] = command_words(words) else {
        return None;
    };
    if command.as_str() == "grade"
        && are_chip_files(table, cells, netlist, scan)
        && is_other_file(stil, table, cells, netlist, scan)
        && is_other_file(report, table, cells, netlist, scan)
        && report.as_str() != stil.as_str()
    {
        Some(GradeWords {
            files: files_called(table, cells, netlist, scan),
            stil: stil.as_str(),
            report: report.as_str(),
        })
    } else {
        None
    }
}

/// Those of `diagnose`.
pub(crate) fn parse_diagnose(words: &[String]) -> Option<DiagnoseWords<'_>>
    ensures found { IfSome result (IsSpelledDiagnose (map string_bytes words.now)) }
    ensures none { IsNone result → ¬ (IsDiagnose (map string_bytes words.now)) }
{
    let table = table_word(words);
    let [command, cells, netlist, scan, stil, log, out] = command_words(words) else {
        return None;
    };
    if command.as_str() == "diagnose"
        && are_chip_files(table, cells, netlist, scan)
        && is_other_file(stil, table, cells, netlist, scan)
        && is_other_file(log, table, cells, netlist, scan)
        && is_other_file(out, table, cells, netlist, scan)
        && are_different(stil, log, out)
    {
        Some(DiagnoseWords {
            files: files_called(table, cells, netlist, scan),
            stil: stil.as_str(),
            log: log.as_str(),
            out: out.as_str(),
        })
    } else {
        None
    }
}

/// Those of `certify`.
pub(crate) fn parse_certify(words: &[String]) -> Option<CertifyWords<'_>>
    ensures found { IfSome result (IsSpelledCertify (map string_bytes words.now)) }
    ensures none { IsNone result → ¬ (IsCertify (map string_bytes words.now)) }
{
    let table = table_word(words);
    let [command, cells, netlist, scan, stil, cert, budget] = command_words(words) else {
        return None;
    };
    let Some(budget) = budget_of(budget) else {
        return None;
    };
    if command.as_str() == "certify"
        && are_chip_files(table, cells, netlist, scan)
        && is_other_file(stil, table, cells, netlist, scan)
        && is_other_file(cert, table, cells, netlist, scan)
        && cert.as_str() != stil.as_str()
    {
        Some(CertifyWords {
            files: files_called(table, cells, netlist, scan),
            stil: stil.as_str(),
            cert: cert.as_str(),
            budget,
        })
    } else {
        None
    }
}

/// Those of `verify`.
pub(crate) fn parse_verify(words: &[String]) -> Option<VerifyWords<'_>>
    ensures found { IfSome result (IsSpelledVerify (map string_bytes words.now)) }
    ensures none { IsNone result → ¬ (IsVerify (map string_bytes words.now)) }
{
    let table = table_word(words);
    let [command, cells, netlist, scan, stil, cert] = command_words(words) else {
        return None;
    };
    if command.as_str() == "verify"
        && are_chip_files(table, cells, netlist, scan)
        && is_other_file(stil, table, cells, netlist, scan)
        && is_other_file(cert, table, cells, netlist, scan)
        && cert.as_str() != stil.as_str()
    {
        Some(VerifyWords {
            files: files_called(table, cells, netlist, scan),
            stil: stil.as_str(),
            cert: cert.as_str(),
        })
    } else {
        None
    }
}

/// Those of `bridges`.
pub(crate) fn parse_bridges(words: &[String]) -> Option<BridgesWords<'_>>
    ensures found { IfSome result (IsSpelledBridges (map string_bytes words.now)) }
    ensures none { IsNone result → ¬ (IsBridges (map string_bytes words.now)) }
{
    let table = table_word(words);
    let [
        command,
        cells,
        netlist,
        scan,
        instance,
        stil,
        report,
        budget,
    ] = command_words(words)
    else {
        return None;
    };
    let Some(budget) = budget_of(budget) else {
        return None;
    };
    if command.as_str() == "bridges"
        && are_chip_files(table, cells, netlist, scan)
        && instance.as_str() != "-"
        && is_other_file(stil, table, cells, netlist, scan)
        && is_other_file(report, table, cells, netlist, scan)
        && report.as_str() != stil.as_str()
    {
        Some(BridgesWords {
            files: files_called(table, cells, netlist, scan),
            instance: instance.as_str(),
            stil: stil.as_str(),
            report: report.as_str(),
            budget,
        })
    } else {
        None
    }
}

// Whether these may be the files of a command on a chip.
fn are_chip_files(table: Option<&str>, cells: &str, netlist: &str, scan: &str) -> bool
    ensures { IsTrue result ↔ AreChipFiles (option_copied table.entry) cells.now netlist.now scan.now }
{
    are_cell_files(table, cells)
        && is_file_name(netlist)
        && !scan.is_empty()
        && are_different(cells, netlist, scan)
        && !is_called(table, netlist)
        && !is_called(table, scan)
}

// No two words are the same.
fn are_different(cells: &str, netlist: &str, scan: &str) -> bool
    ensures { IsTrue result
        ↔ ((netlist.now ≢ cells.now) × ((scan.now ≢ cells.now) × (scan.now ≢ netlist.now))) }
{
    netlist != cells && scan != cells && scan != netlist
}

// Whether this may be a file of its own, beside those of a command on a chip.
fn is_other_file(out: &str, table: Option<&str>, cells: &str, netlist: &str, scan: &str) -> bool
    ensures { IsTrue result ↔ IsOtherFile (option_copied table.entry) out.now cells.now netlist.now scan.now }
{
    is_file_name(out) && !is_called(table, out) && out != cells && out != netlist && out != scan
}

// Both words are a dash, or neither is.
fn are_both_or_neither(instance: &str, defect: &str) -> bool
    ensures { IsTrue result ↔ AreBothOrNeither instance.now defect.now }
{
    (instance == "-") == (defect == "-")
}

// The files of a command on a chip.
fn files_called<'a>(
    table: Option<&'a str>,
    cells: &'a str,
    netlist: &'a str,
    scan: &'a str,
) -> FileNames<'a>
    ensures { names_of result ≡ record {
      cells = record { table = option_copied table.entry; name = cells.now };
      netlist = netlist.now;
      scan = file_called scan.now;
    } }
{
    FileNames {
        cells: CellNames { table, name: cells },
        netlist,
        scan: file_called(scan),
    }
}

// The file that a word names, where a dash names none.
fn file_called(word: &str) -> Option<&str>
    ensures { option_copied result ≡ file_called word.now }
{
    if word == "-" { None } else { Some(word) }
}
