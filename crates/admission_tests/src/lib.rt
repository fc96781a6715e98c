//! Tests of which records a template admits.
#![tactic(auto)]

#[cfg(test)]
mod admission;
