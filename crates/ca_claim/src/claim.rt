//! A claim on a defect.

use ca_code::Code;

/// What is claimed of a defect of a chip.
#[derive(Drop, Debug)]
pub enum Claim {
    /// The first listed pair that detects the defect, and the first observed output at which it does.
    Credited { pair: u32, output: u32 },
    /// No pair of vectors exposes the defect in its cell.
    Unexposable,
    /// No pair of vectors of the chip detects the defect: the code is a whole one.
    Untestable { code: Code },
    /// No listed pair detects the defect, and the code is spent for the budget.
    Aborted { code: Code },
}
