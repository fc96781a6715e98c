//! Tests of leaves as problems: worked leaves, posed and solved, as rows of a table.
#![tactic(auto)]

#[cfg(test)]
mod fetches;
#[cfg(test)]
mod operations;
#[cfg(test)]
mod reading;
#[cfg(test)]
mod worked;
