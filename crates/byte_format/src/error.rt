// Why a piece can't be read.
ghost use Rattle.std.specs.Prelude.{◌≡◌};
ghost use Rattle.byte_format.specs.declared.error.PieceError.TheVariants.{OutOfMemory as NoMemory};

use std::alloc::{AllocError, AllocFailed};
use thiserror::Error;

/// Why a piece can't be read.
#[derive(Clone, Copy, Debug, PartialEq, Eq, Error)]
pub enum PieceError {
    /// The bytes don't spell it.
    #[error("malformed")]
    Malformed,
    #[error("out of memory")]
    OutOfMemory,
}

impl From<AllocError> for PieceError {
    ghost from_gives = { λ _ e. e ≡ NoMemory };

    fn from(_: AllocError) -> Self {
        PieceError::OutOfMemory
    }
}

impl<T: Drop> From<AllocFailed<T>> for PieceError {
    ghost from_gives = { λ _ e. e ≡ NoMemory };

    fn from(_: AllocFailed<T>) -> Self {
        PieceError::OutOfMemory
    }
}
