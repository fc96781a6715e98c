//! Tests of pages of bits, of footprints and of what accesses may do with bytes, by their public calls.
#![tactic(auto)]

#[cfg(test)]
mod bytes;
#[cfg(test)]
mod maps;
#[cfg(test)]
mod pages;
#[cfg(test)]
mod random;
