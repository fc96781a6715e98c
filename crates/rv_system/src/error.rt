// What calls fail with.
use std::alloc::{AllocError, AllocFailed};
use thiserror::Error;

/// There is no memory of the machine that runs this for what was asked.
#[derive(Clone, Copy, Debug, PartialEq, Eq, Error)]
#[error("out of memory")]
pub struct OutOfMemory;

impl From<AllocError> for OutOfMemory {
    fn from(_: AllocError) -> Self {
        OutOfMemory
    }
}

impl<T: Drop> From<AllocFailed<T>> for OutOfMemory {
    fn from(_: AllocFailed<T>) -> Self {
        OutOfMemory
    }
}

impl From<rv_mem::OutOfMemory> for OutOfMemory {
    fn from(_: rv_mem::OutOfMemory) -> Self {
        OutOfMemory
    }
}

/// Why a run ended before its schedule.
#[derive(Clone, Copy, Debug, PartialEq, Eq, Error)]
pub enum Stop {
    /// There is no memory for what it would tell.
    #[error("out of memory")]
    OutOfMemory,
    /// The machine has no step at this position of the schedule, counted from 0.
    #[error("outside at {at}")]
    Outside { at: usize },
}
