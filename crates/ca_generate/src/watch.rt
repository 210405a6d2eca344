//! Progress of long work.

/// Hears how far test generation is.
pub trait Watch {
    /// `done` of `of` defects have had their turn.
    fn reported(&mut self, done: usize, of: usize);
}

/// Hears it and does nothing.
#[derive(Clone, Copy, Debug, Default)]
pub struct Unwatched;

impl Watch for Unwatched {
    fn reported(&mut self, _done: usize, _of: usize) {}
}
