//! Verdicts.

/// What was found of a defect or of a pin bridge: the first listed pair that detects it, with the first
/// observed output at which it does, both counted from 0; or why no listed pair does; or, where it wasn't
/// asked why, that none does. Of bridges alone: that an end is at a port of the chip, and that the bridge's
/// cluster is too wide for a cell.
#[derive(Clone, Copy, Debug, PartialEq, Eq)]
pub enum Verdict {
    Credited { pair: u32, output: u32 },
    Unexposable,
    Untestable,
    Aborted,
    Uncredited,
    Port,
    Wide,
}
