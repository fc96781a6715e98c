// What calls that need memory fail with.
use std::alloc::{AllocError, AllocFailed};
use thiserror::Error;

/// There is no memory of the machine that runs this for what was asked.
#[derive(Clone, Copy, Debug, PartialEq, Eq, Error)]
#[error("out of memory")]
pub struct OutOfMemory;

impl From<AllocError> for OutOfMemory {
    fn from(_: AllocError) -> Self {
        OutOfMemory
    }
}

impl<T: Drop> From<AllocFailed<T>> for OutOfMemory {
    fn from(_: AllocFailed<T>) -> Self {
        OutOfMemory
    }
}

impl From<dom_set::OutOfMemory> for OutOfMemory {
    fn from(_: dom_set::OutOfMemory) -> Self {
        OutOfMemory
    }
}

impl From<data_bytes::OutOfMemory> for OutOfMemory {
    fn from(_: data_bytes::OutOfMemory) -> Self {
        OutOfMemory
    }
}

impl From<part_state::OutOfMemory> for OutOfMemory {
    fn from(_: part_state::OutOfMemory) -> Self {
        OutOfMemory
    }
}
