//! A law of the sites of a chip.

ghost use Rattle.ca_chip_stil.specs.Laws.{SetSitesAreInputs, SeenSitesAreOutputs};

/// The sites where a vector is set and where values are observed are those of the chip inputs and of the
/// observed outputs, in the same order.
pub fn sites_are_ends()
    ensures set { SetSitesAreInputs }
    ensures seen { SeenSitesAreOutputs }
{}
