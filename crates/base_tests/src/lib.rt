//! Tests of instructions, CSRs, scripts and memory, by their public calls.
#![tactic(auto)]

#[cfg(test)]
mod csr_tests;
#[cfg(test)]
mod instruction_tests;
#[cfg(test)]
mod memory_tests;
#[cfg(test)]
mod script_tests;
