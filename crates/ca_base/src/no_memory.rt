//! Running out of memory, as an error.

use std::alloc::{AllocError, AllocFailed};

/// There was no memory for the call. What the call was to make is not there, and a `&mut` is as it was unless
/// the call says otherwise.
#[derive(Clone, Copy, Debug, PartialEq, Eq)]
pub struct NoMemory;

impl From<AllocError> for NoMemory {
    fn from(_: AllocError) -> Self {
        NoMemory
    }
}

impl<T: Drop> From<AllocFailed<T>> for NoMemory {
    fn from(_: AllocFailed<T>) -> Self {
        NoMemory
    }
}
