//! Tests of steps of a hart, by the machine's public calls.
#![tactic(auto)]

#[cfg(test)]
mod cases;
#[cfg(test)]
mod csr_tests;
#[cfg(test)]
mod fixtures;
#[cfg(test)]
mod instruction_tests;
#[cfg(test)]
mod sight_tests;
#[cfg(test)]
mod translation_tests;
#[cfg(test)]
mod trap_tests;
