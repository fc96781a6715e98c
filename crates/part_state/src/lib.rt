//! A test while it is being made. `Part` has a start that grows, harts that run from it, and a log of what each change
//! replaced; it goes back to each earlier test by a mark, without a copy and without memory. At every time it is a test
//! so far, from every system that begins as its start says; what is made of it at the end is a certificate that is sound.
#![tactic(auto)]

mod error;
mod finishing;
mod laws;
mod logged;
mod part;
mod probe;
mod starting;

pub use error::OutOfMemory;
pub use laws::{file_sizes, told_places};
pub use part::Part;
pub use probe::Probe;
