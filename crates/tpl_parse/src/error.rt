// Why a text is not read.
ghost use Rattle.std.specs.Prelude.{◌≡◌};
ghost use Rattle.tpl_lang.specs.declared.fault.Kind.TheVariants.{Unexpected};
ghost use Rattle.tpl_parse.specs.Answers.{trouble_of};
ghost use Rattle.tpl_parse.specs.declared.error.Trouble.TheVariants.{Memory};

use dom_set::OutOfMemory;
use std::alloc::AllocError;
use thiserror::Error;
use tpl_cursor::Stop;
use tpl_lang::{Fault, Kind};

/// Why a text was not read.
#[derive(Clone, Copy, Debug, PartialEq, Eq, Error)]
pub enum ParseError {
    /// The text is no template.
    #[error("template line {}: fault {}", .0.line, .0.kind as u8)]
    Fault(Fault),
    /// Memory ran out, which says nothing about the text.
    #[error("out of memory")]
    OutOfMemory,
}

/// Why a line was not read.
#[derive(Clone, Copy, Debug, PartialEq, Eq)]
pub(crate) enum Trouble {
    Memory,
    Fault(Kind),
}

impl From<OutOfMemory> for Trouble {
    ghost from_gives = { λ _ e. e ≡ Memory };

    fn from(_: OutOfMemory) -> Trouble {
        Trouble::Memory
    }
}

impl From<AllocError> for Trouble {
    ghost from_gives = { λ _ e. e ≡ Memory };

    fn from(_: AllocError) -> Trouble {
        Trouble::Memory
    }
}

impl From<Stop> for Trouble {
    ghost from_gives = { λ s e. e ≡ trouble_of s };

    fn from(stop: Stop) -> Trouble {
        match stop {
            Stop::Memory => Trouble::Memory,
            Stop::Unexpected => Trouble::Fault(Kind::Unexpected),
        }
    }
}
