// What a check fails with.
use std::alloc::{AllocError, AllocFailed};
use thiserror::Error;

/// There is no memory for the check.
#[derive(Clone, Copy, Debug, PartialEq, Eq, Error)]
#[error("out of memory")]
pub struct OutOfMemory;

impl From<AllocError> for OutOfMemory {
    fn from(_: AllocError) -> Self {
        OutOfMemory
    }
}

impl<T: Drop> From<AllocFailed<T>> for OutOfMemory {
    fn from(_: AllocFailed<T>) -> Self {
        OutOfMemory
    }
}

impl From<rv_mem::OutOfMemory> for OutOfMemory {
    fn from(_: rv_mem::OutOfMemory) -> Self {
        OutOfMemory
    }
}

impl From<foot_map::OutOfMemory> for OutOfMemory {
    fn from(_: foot_map::OutOfMemory) -> Self {
        OutOfMemory
    }
}
