//! A log of what changes replaced, which gives the later entries back, last first.
#![tactic(auto)]

mod error;
mod log;

pub use error::OutOfMemory;
pub use log::Log;
