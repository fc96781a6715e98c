//! Sets of numbers below 4,096, such as the offsets of a page's bytes. A `PageBits` is 512 bytes, a bit
//! for each number, worked on in lanes of `std::simd`. No call takes memory.
#![tactic(auto)]

mod laws;
mod page;

pub use laws::page_laws;
pub use page::PageBits;
