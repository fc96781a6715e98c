// What writing and reading fail with.
ghost use Rattle.std.specs.Prelude.{◌≡◌};

use std::alloc::AllocError;
use thiserror::Error;

/// There is no memory for what was asked.
#[derive(Clone, Copy, Debug, PartialEq, Eq, Error)]
#[error("out of memory")]
pub struct OutOfMemory;

impl From<AllocError> for OutOfMemory {
    fn from(_: AllocError) -> Self {
        OutOfMemory
    }
}

/// Why a file can't be read.
#[derive(Clone, Copy, Debug, PartialEq, Eq, Error)]
pub enum ReadError {
    /// The first part that is wrong: 1 the ELF header or the size of the file, 2 the program headers, 3 the
    /// notes, 4 the records, 5 the template, also against the harts and names of the notes, 6 the words of
    /// memory and the entry.
    #[error("malformed part {part}")]
    Malformed { part: u8 },
    #[error("out of memory")]
    OutOfMemory,
}
