//! The texts of the tool: the report of a certificate, line by line, and what is said of a text, a file or a search;
//! and how long they can be.
#![tactic(auto)]

mod error;
mod faults;
mod harts;
mod laws;
mod names;
mod printing;
mod rest;
mod runs;
mod steps;
mod verdicts;

pub use error::OutOfMemory;
pub use faults::fault_text;
pub use laws::length_laws;
pub use printing::report;
pub use runs::events;
pub use verdicts::{gave_up, malformed, verdict};
