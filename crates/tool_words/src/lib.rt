//! The words of the commands: what the program can be asked to do, and how much each command reads.
#![tactic(auto)]

mod command;
mod error;
mod laws;
mod reading;

pub use command::{Command, Effort};
pub use error::NoCommand;
pub use laws::words_law;
