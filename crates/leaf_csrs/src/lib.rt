//! The ways of CSR instructions where a leaf stands: how an instruction may use each register, what that says of its
//! variables, and which accesses are refused. It stands on `leaf_stand` and `leaf_link`. It promises that each set has just
//! the words that the usage lets through, and that the ways of all registers and usages are together those of the
//! definition.
#![tactic(auto)]

mod accesses;
mod laws;
mod numbers;
mod refused;
mod usage;

pub use laws::{denied_are_refused, granted_are_usages};
pub use refused::refused_cut;
pub use usage::{Usage, usage_cut, usages_of};
