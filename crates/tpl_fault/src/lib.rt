//! The least fault of a statement where it stands, behind the lines so far.
#![tactic(auto)]

mod finding;
mod names;
mod order;
mod ram;
mod sets;
mod starts;

pub use finding::find_fault;
pub use order::is_finished;
