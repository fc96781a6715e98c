// What calls that make a text or a list fail with.
use std::alloc::AllocError;
use thiserror::Error;

/// There is no memory of the machine that runs this for what was asked.
#[derive(Clone, Copy, Debug, PartialEq, Eq, Error)]
#[error("out of memory")]
pub struct OutOfMemory;

impl From<AllocError> for OutOfMemory {
    fn from(_: AllocError) -> Self {
        OutOfMemory
    }
}
