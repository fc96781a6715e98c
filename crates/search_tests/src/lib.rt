//! Tests of the search by its public calls, on a test that is kept as the list of its changes.
#![tactic(auto)]

#[cfg(test)]
mod bodies;
mod fits;
mod listed;
#[cfg(test)]
mod rows;
#[cfg(test)]
mod searches;

pub use fits::can_search;
pub use listed::{Change, ListedTest, ListedWhole, listed_law};
