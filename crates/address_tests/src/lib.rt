//! Tests of where addresses lead while page table entries may still be chosen, by public calls.
#![tactic(auto)]

#[cfg(test)]
mod cases;
#[cfg(test)]
mod combinations;
#[cfg(test)]
mod row_tests;
