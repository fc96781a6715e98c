//! Tests of the translation of addresses, by its public calls.
#![tactic(auto)]

#[cfg(test)]
mod walks;
