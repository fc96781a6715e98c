//! What a statement without a fault adds to what the lines so far have said.
#![tactic(auto)]

mod applying;
mod blocks;
mod heads;
mod sets;
mod starts;
mod wishes;

pub use applying::apply;
