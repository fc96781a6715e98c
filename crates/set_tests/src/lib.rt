//! Tests of sets, logs, binary formats and streams, by their public calls.
#![tactic(auto)]

#[cfg(test)]
mod byte_tests;
#[cfg(test)]
mod log_tests;
#[cfg(test)]
mod masked_tests;
#[cfg(test)]
mod set_tests;
#[cfg(test)]
mod stream_tests;
