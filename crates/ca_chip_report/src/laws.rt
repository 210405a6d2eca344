//! Laws of reports.

ghost use Rattle.ca_chip_report.specs.Laws.{GoodIsReported, GradedIsReported, RankedIsLibrary, CountsAreAll};

/// Pairs, aims and verdicts that keep their promise may be reported.
pub fn good_is_reported()
    ensures { GoodIsReported }
{}

/// Grades that are so may be reported.
pub fn graded_is_reported()
    ensures { GradedIsReported }
{}

/// An instance that has a place in the order of evaluation is one of the library.
pub fn ranked_is_library()
    ensures { RankedIsLibrary }
{}

/// The four counts of a summary are those of all defects.
pub fn counts_are_all()
    ensures { CountsAreAll }
{}
