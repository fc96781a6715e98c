//! The domains of a case's variables while a solver works on them, and what each relation of the case
//! says of them: values with which it cannot be met are taken away, and none that fits is lost.
#![tactic(auto)]

mod domains;
mod equalities;
mod inside;
mod narrowing;
mod orders;
mod rows;
mod standings;
mod sums;
mod tables;
mod targets;
mod writes;

pub use dom_set::OutOfMemory;
pub use domains::Domains;
pub use narrowing::Losses;
