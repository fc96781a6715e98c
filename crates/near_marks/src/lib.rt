//! Sums of two lists of numbers that are near a multiple of 2^32, modulo 2^32: less than 4,096 from one up. The numbers of
//! a list stand a power of two apart, many at once. What two of them give is marked, or all where there are too many pairs
//! to look at; pairs that give nothing but what is marked are passed over, many at once by their ends and by what they leave
//! when they are divided by 64. Where many stand close together, pages of bits tell of each number that is not marked
//! whether two of them give it. No call takes memory; how much is marked beside the sums is no clause's. It stands on
//! `lane_bits` alone, and `set_sums` finds differences of sets by it.
#![tactic(auto)]

mod close;
mod grid;
mod marks;
mod pairs;
mod rests;
mod steps;

pub use marks::Marks;
pub use pairs::mark_pairs;
pub use steps::{REACH, Steps, WORDS};
