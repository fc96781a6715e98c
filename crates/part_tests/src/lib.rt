//! Tests of a test that is being made, by its public calls.
#![tactic(auto)]

#[cfg(test)]
mod seen;
#[cfg(test)]
mod steps;
#[cfg(test)]
mod walk;
#[cfg(test)]
mod worked;
