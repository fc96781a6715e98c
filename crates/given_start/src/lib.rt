//! The machine as a start gives it: RAM of a template's regions, and a hart of which just a state is known. From it the
//! harts of a certificate run, and a test begins.
#![tactic(auto)]

mod harts;
mod regions;

pub use harts::hart_in;
pub use regions::ram_of;
