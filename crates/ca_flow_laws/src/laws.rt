//! What the definitions imply, each law the contract of a function that does nothing.

ghost use Rattle.std.specs.Prelude.{ℕ, List};
ghost use Rattle.ca_store.specs.Store.{Files};
ghost use Rattle.ca_flow_laws.specs.Limits.{FileLimits, ChipLimits, TestLimits, LimitTexts};
ghost use Rattle.ca_flow_laws.specs.Laws.{HasOneCause, AnswerableHasNoCause, SomeCauseOrAnswer};
ghost use Rattle.ca_flow_laws.specs.Laws.{CauseIsReported, NamesMeanOneDefect, NeverNeitherOnChip};

use ca_chip_pairs::text_of_linked_chip_is_file;
use ca_stil_laws::ports_are_named;

/// Of one list of words and one set of files at most one fault of the words or of the contents has a cause;
/// of several loops each has.
pub fn one_cause()
    ensures { (words : List (List ℕ)) (files : Files) → HasOneCause words files }
{}

/// Where a command can be answered no fault of the words or of the contents has a cause.
pub fn answerable_has_no_cause()
    ensures { AnswerableHasNoCause }
{}

/// A command, but one on a chip, whose files are there can be answered, or a fault of the contents has a
/// cause.
pub fn some_cause_or_answer()
    ensures { SomeCauseOrAnswer }
{}

/// Of a command on a chip whose files are there it can't be that it can't be answered and that no fault of
/// the contents has a cause.
pub fn never_neither_on_chip()
    ensures { NeverNeitherOnChip }
{
    ports_are_named();
    text_of_linked_chip_is_file();
}

/// Where a fault of the words or of the contents has a cause, a command doesn't end well, and reports no
/// other such fault; of several loops it may report any.
pub fn cause_is_reported()
    ensures { CauseIsReported }
{}

/// A name means one defect of a cell that was read, on the command line and in the header of a matrix's file.
pub fn names_mean_one_defect()
    ensures { NamesMeanOneDefect }
{}

/// The greatest sizes of files and of chips, the limits of test generation, and the numbers that are printed
/// where one is passed.
pub fn limits()
    ensures files { FileLimits }
    ensures chips { ChipLimits }
    ensures tests { TestLimits }
    ensures printed { LimitTexts }
{}
