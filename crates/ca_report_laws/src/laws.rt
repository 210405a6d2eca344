//! A law of reports.

ghost use Rattle.ca_report_laws.specs.Laws.{ReportIsReadBack};

/// The text of a report has the records that were written, and no others.
pub fn report_is_read_back()
    ensures { ReportIsReadBack }
{}
