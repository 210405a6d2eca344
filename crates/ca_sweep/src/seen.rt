//! What is flipped, and where it is seen.

/// Which output pins of an instance have the opposite of the good last value.
#[derive(Clone, Copy, Debug)]
pub struct Flips {
    pub first: bool,
    pub second: bool,
}

/// No output pin is flipped.
pub(crate) const NO_FLIPS: Flips = Flips {
    first: false,
    second: false,
};

/// Where a flip is seen.
#[derive(Clone, Copy, Debug)]
pub enum Seen {
    /// Last values alone don't say it.
    Undecided,
    /// At no observed output.
    Nowhere,
    /// First at this observed output, counted from 0.
    At(u32),
}
