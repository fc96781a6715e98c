// Why a line cannot be read or solved.
use dom_set::OutOfMemory;
use std::alloc::{AllocError, AllocFailed};
use std::fmt;

/// Why a line cannot be read or solved.
#[derive(Clone, Copy)]
pub enum Stop {
    /// The line is no problem with an answer.
    Malformed,
    /// Memory ran out.
    OutOfMemory,
}

impl fmt::Display for Stop {
    fn fmt<W: fmt::Write>(&self, f: &mut fmt::Formatter<W>) -> fmt::Result {
        match self {
            Stop::Malformed => write!(f, "no problem with an answer"),
            Stop::OutOfMemory => write!(f, "out of memory"),
        }
    }
}

impl From<OutOfMemory> for Stop {
    fn from(_e: OutOfMemory) -> Stop {
        Stop::OutOfMemory
    }
}

impl From<AllocError> for Stop {
    fn from(_e: AllocError) -> Stop {
        Stop::OutOfMemory
    }
}

impl<T: Drop> From<AllocFailed<T>> for Stop {
    fn from(_e: AllocFailed<T>) -> Stop {
        Stop::OutOfMemory
    }
}
