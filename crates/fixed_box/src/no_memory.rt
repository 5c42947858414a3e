//! The one error of the suite for want of memory, and how the errors of allocation become it.

use std::alloc::{AllocError, AllocFailed};

/// Memory ran out. Each crate of the suite answers want of memory by this one type.
#[derive(Clone, Copy, Debug, PartialEq, Eq)]
pub struct NoMemory;

impl From<AllocError> for NoMemory {
    fn from(_: AllocError) -> Self {
        NoMemory
    }
}

impl<T: Drop> From<AllocFailed<T>> for NoMemory {
    fn from(_: AllocFailed<T>) -> Self {
        NoMemory
    }
}
