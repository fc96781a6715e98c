// What calls that make sets of bytes fail with.
use std::alloc::{AllocError, AllocFailed};
use thiserror::Error;

/// There is no memory for the set that was asked for.
#[derive(Clone, Copy, Debug, PartialEq, Eq, Error)]
#[error("out of memory")]
pub struct OutOfMemory;

impl From<AllocError> for OutOfMemory {
    fn from(_: AllocError) -> Self {
        OutOfMemory
    }
}

impl<T: Drop> From<AllocFailed<T>> for OutOfMemory {
    fn from(_: AllocFailed<T>) -> Self {
        OutOfMemory
    }
}

impl From<dom_set::OutOfMemory> for OutOfMemory {
    fn from(_: dom_set::OutOfMemory) -> Self {
        OutOfMemory
    }
}

impl From<foot_map::OutOfMemory> for OutOfMemory {
    fn from(_: foot_map::OutOfMemory) -> Self {
        OutOfMemory
    }
}

impl From<rv_mem::OutOfMemory> for OutOfMemory {
    fn from(_: rv_mem::OutOfMemory) -> Self {
        OutOfMemory
    }
}
