// Why a line of a file can't be read, or a row can't be run.
use std::alloc::{AllocError, AllocFailed};
use std::fmt;

/// Why a line can't be read, or a row can't be run.
#[derive(Clone, Copy)]
pub enum Stop {
    /// Memory ran out.
    OutOfMemory,
    /// The line's first word is none of the language's.
    Key,
    /// What stands behind the line's first word isn't what it takes.
    Value,
    /// A row changes or cuts its input where it has no byte.
    Place,
}

impl fmt::Display for Stop {
    fn fmt<W: fmt::Write>(&self, f: &mut fmt::Formatter<W>) -> fmt::Result {
        match self {
            Stop::OutOfMemory => write!(f, "out of memory"),
            Stop::Key => write!(f, "unknown word"),
            Stop::Value => write!(f, "wrong value"),
            Stop::Place => write!(f, "no such place in the input"),
        }
    }
}

impl From<AllocError> for Stop {
    fn from(_e: AllocError) -> Stop {
        Stop::OutOfMemory
    }
}

impl<T: Drop> From<AllocFailed<T>> for Stop {
    fn from(_e: AllocFailed<T>) -> Stop {
        Stop::OutOfMemory
    }
}
