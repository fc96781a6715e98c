//! Sums, differences and halves of sets of words, modulo 2^32. Each holds all that is asked for, and perhaps more; how much
//! more is no clause's. Of sums and differences only those in a domain are asked for. They are
//! found by ranges around the elements and by the low bits of these, each alone. Differences in a domain whose words are
//! all from -2,048 to 2,047, as those of an immediate, are found by both together: the elements are taken as numbers that
//! are a power of two apart, and `near_marks` marks what two of these give. It stands on `dom_set`, `lane_bits` and
//! `near_marks` alone, and `fd_narrow` cuts domains by it.
#![tactic(auto)]

mod near;
mod ranges;
mod remainders;
mod sums;

pub use dom_set::OutOfMemory;
pub use ranges::{HALF, Span, ends, halved, meet, shifted, words_of};
pub use sums::{differences_within, sums_within};
