//! A law of reports.

ghost use Rattle.ca_bridge_report.specs.Laws.{GoodBridgesAreReported};

/// Verdicts on bridges that keep their promise may be reported.
pub fn good_bridges_are_reported()
    ensures { GoodBridgesAreReported }
{}
