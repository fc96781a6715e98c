//! The demo: a template that is made from a number, how often a test of it fetches each operation, and the summary of
//! such a test.
#![tactic(auto)]

mod counting;
mod error;
mod laws;
mod summing;
mod template;

pub use counting::counts;
pub use error::OutOfMemory;
pub use laws::demo_laws;
pub use summing::summary;
pub use template::make;
