//! Laws of the lanes. Each function has a law as its contract, and an empty body.

ghost use Rattle.ca_lanes.specs.GoodRows.{BareRowsAreUnknown};
ghost use Rattle.ca_lanes.specs.Netlist.{NetlistsAreReadable};
ghost use Rattle.ca_lanes.specs.Screened.{DefectsAreScreenable, ClearBitMeansNoDetection};
ghost use Rattle.ca_lanes.specs.Screened.{PlainInLaneIsNeverOpposite, WavesAreBelowLane, SetBitIsAllowed};

/// A cell without devices, as that of a scan instance, has rows of unknown values alone.
pub fn bare_rows_are_unknown()
    ensures { BareRowsAreUnknown }
{}

/// The netlist of a chip may be read.
pub fn netlists_are_readable()
    ensures { NetlistsAreReadable }
{}

/// Each defect of a chip may be screened for.
pub fn defects_are_screenable()
    ensures { DefectsAreScreenable }
{}

/// A lane whose bit isn't set has a pair that doesn't detect the defect at any net.
pub fn clear_bit_means_no_detection()
    ensures { ClearBitMeansNoDetection }
{}

/// No value that is read in a lane is the opposite of the limit at the same net.
pub fn plain_in_lane_is_never_opposite()
    ensures { PlainInLaneIsNeverOpposite }
{}

/// The wave of each net is at or below the values that are read in a lane.
pub fn waves_are_below_lane()
    ensures { WavesAreBelowLane }
{}

/// A lane whose bit is set has a pair that the waves don't rule out by the exposing rows.
pub fn set_bit_is_allowed()
    ensures { SetBitIsAllowed }
{}
