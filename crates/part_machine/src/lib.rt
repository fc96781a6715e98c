//! The machine while a test is made: a start that grows, what each hart did from it, and where harts and memory stand.
//! Each change has an entry that says how to undo it, last first; undoing takes no memory. Contracts see the machine as a
//! `Whole`, and each call as what it does to that.
#![tactic(auto)]

mod entry;
mod error;
mod notes;
mod running;
mod trace;

pub use entry::Entry;
pub use error::OutOfMemory;
pub use notes::{Note, Notes};
pub use running::{Running, copy_of};
pub use trace::Trace;
