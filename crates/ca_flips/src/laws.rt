//! Laws of the definitions, each the contract of a function that does nothing.

ghost use Rattle.ca_flips.specs.Laws.{EndsByLastIsLimit, EndsByLastIsSteady, LastsAreOfLasts};
ghost use Rattle.ca_flips.specs.Laws.{LastEndIsOne, KnownLastsAreGood, GoodLastsAreOfWaves};
ghost use Rattle.ca_flips.specs.Laws.{KnownFlippedIsDetected, SweptAreFlipped};
ghost use Rattle.ca_flips.specs.Laws.{FaultyLastIsGiven, FlippedAreAbove, FlippedAreFaulty};
ghost use Rattle.ca_flips.specs.Laws.{DetectedIsFlipped, DetectedIsForced, UnflippedIsUndetected};
ghost use Rattle.ca_flips.specs.Laws.{FlippedAreUnique, FlippedAreThere, FlippedAreDefinite};
ghost use Rattle.ca_flips.specs.Laws.{FlippedAreEnds, DetectedIsFilledIn, DetectedWhereForced};

/// What a cell ends with by the last vector alone is the last limit for unknown firsts and middles.
pub fn ends_by_last_is_limit()
    ensures { EndsByLastIsLimit }
{}

/// It is what every run that keeps the vector ends with.
pub fn ends_by_last_is_steady()
    ensures { EndsByLastIsSteady }
{}

/// It is the last limit for any waves with these lasts.
pub fn lasts_are_of_lasts()
    ensures { LastsAreOfLasts }
{}

/// It is one value.
pub fn last_end_is_one()
    ensures { LastEndIsOne }
{}

/// Where the outputs are at or above the faulty lasts, so are the flipped values.
pub fn flipped_are_above()
    ensures { FlippedAreAbove }
{}

/// Known lasts are at or below the good ones.
pub fn known_lasts_are_good()
    ensures { KnownLastsAreGood }
{}

/// States with the good waves give the last values of the nets.
pub fn good_lasts_are_of_waves()
    ensures { GoodLastsAreOfWaves }
{}

/// The faulty lasts of the defect's instance are those of its cell under the good waves.
pub fn faulty_last_is_given()
    ensures { FaultyLastIsGiven }
{}

/// Where the outputs that lead to a net are the faulty lasts, its flipped value is its faulty last.
pub fn flipped_are_faulty()
    ensures { FlippedAreFaulty }
{}

/// There a defect is detected exactly where the flipped value is the opposite of the good one.
pub fn detected_is_flipped()
    ensures { DetectedIsFlipped }
{}

/// A detected defect forces the net to the opposite.
pub fn detected_is_forced()
    ensures { DetectedIsForced }
{}

/// Where no faulty last of the instance is opposite to the good one, the defect is detected nowhere.
pub fn unflipped_is_undetected()
    ensures { UnflippedIsUndetected }
{}

/// Flipped values are one.
pub fn flipped_are_unique()
    ensures { FlippedAreUnique }
{}

/// There are flipped values for all definite outputs.
pub fn flipped_are_there()
    ensures { FlippedAreThere }
{}

/// Where the faulty lasts that lead to a net are definite, a defect is detected there exactly where they
/// force it to the opposite.
pub fn detected_where_forced()
    ensures { DetectedWhereForced }
{}

/// For definite outputs the flipped values of all nets that the instance reaches are definite.
pub fn flipped_are_definite()
    ensures { FlippedAreDefinite }
{}

/// Where the outputs that lead to a net are the faulty lasts, every run ends with its flipped value.
pub fn flipped_are_ends()
    ensures { FlippedAreEnds }
{}

/// Where a defect is detected, the faulty lasts that are definite make the net opposite, with the good value
/// in the place of each that is unknown.
pub fn detected_is_filled_in()
    ensures { DetectedIsFilledIn }
{}

/// Where what is known of the faulty lasts makes a net opposite, the defect is detected there.
pub fn known_flipped_is_detected()
    ensures { KnownFlippedIsDetected }
{}

/// Values that are found an instance at a time are flipped ones.
pub fn swept_are_flipped()
    ensures { SweptAreFlipped }
{}
