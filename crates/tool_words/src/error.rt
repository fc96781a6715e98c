// Why words are no command.
ghost use Rattle.std.specs.Prelude.{◌≡◌};
ghost use Rattle.tool_words.specs.declared.error.NoCommand.TheVariants.{OutOfMemory as NoMemory};

use std::alloc::{AllocError, AllocFailed};
use thiserror::Error;

/// Why words are no command.
#[derive(Clone, Copy, Debug, PartialEq, Eq, Error)]
pub enum NoCommand {
    /// The program takes no such words. A wish for help or for the version is among them.
    #[error("usage")]
    Usage,
    /// There is no memory to read them.
    #[error("out of memory")]
    OutOfMemory,
}

impl From<AllocError> for NoCommand {
    ghost from_gives = { λ _ e. e ≡ NoMemory };

    fn from(_: AllocError) -> Self {
        NoCommand::OutOfMemory
    }
}

impl<T: Drop> From<AllocFailed<T>> for NoCommand {
    ghost from_gives = { λ _ e. e ≡ NoMemory };

    fn from(_: AllocFailed<T>) -> Self {
        NoCommand::OutOfMemory
    }
}
