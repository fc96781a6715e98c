//! The ways of loads and stores: an address may be misaligned, its translation or the access may fail, it may lead to a known
//! word, or to a word of the pool that the access starts. It stands on `data_ways`, which tells where addresses lead with
//! which new page table entries, on `data_bytes`, whose sets say what may be done with which byte, and on the definitions of
//! `leaf_link`. It promises that what each goal says of a variable is told as a set exactly, and that the ways of all goals are
//! together those of the definition.
#![tactic(auto)]

mod accesses;
mod cuts;
mod goal;
mod laws;
mod targets;

pub use accesses::Accesses;
pub use cuts::{AddressCuts, goal_apart, goal_cut, goal_leads};
pub use data_ways::{DataEnd, DataWay};
pub use goal::{Goal, misses};
pub use laws::accesses_are_goals;
pub use targets::{Targets, targets_of};
