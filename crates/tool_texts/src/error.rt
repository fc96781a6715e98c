// What answering fails with.
use std::alloc::{AllocError, AllocFailed};
use thiserror::Error;

/// There is no memory for the answer.
#[derive(Clone, Copy, Debug, PartialEq, Eq, Error)]
#[error("out of memory")]
pub struct OutOfMemory;

impl From<AllocError> for OutOfMemory {
    fn from(_: AllocError) -> Self {
        OutOfMemory
    }
}

impl From<cover_sweep::OutOfMemory> for OutOfMemory {
    fn from(_: cover_sweep::OutOfMemory) -> Self {
        OutOfMemory
    }
}

impl From<run_order::OutOfMemory> for OutOfMemory {
    fn from(_: run_order::OutOfMemory) -> Self {
        OutOfMemory
    }
}

impl From<rv_system::OutOfMemory> for OutOfMemory {
    fn from(_: rv_system::OutOfMemory) -> Self {
        OutOfMemory
    }
}

impl From<trace_text::OutOfMemory> for OutOfMemory {
    fn from(_: trace_text::OutOfMemory) -> Self {
        OutOfMemory
    }
}

impl<T: Drop> From<AllocFailed<T>> for OutOfMemory {
    fn from(_: AllocFailed<T>) -> Self {
        OutOfMemory
    }
}
