//! The pieces that sets of 32-bit numbers are kept as. A pattern is the numbers that have given bits under a mask, a run
//! those of a range that match a pattern, a piece a run but for its hole, the numbers of a second pattern. Each call says
//! exactly which numbers its result holds (those of a piece in a range, in common with another, which another leaves,
//! moved by a distance, or the words of which the bits under a mask are one of them), how many there are, or which is the
//! first or the last; but `pages_end` may stop early, and `bits_under`, `is_within` and `wider_hole` may tell nothing where
//! there is something to tell. What is more than one piece is appended to a list, and the contract says how many pieces of
//! it hold a number. No call's time grows with how many numbers a piece holds, but that of `push_moved_piece` where it
//! splits a piece; `dom_set`, which keeps lists of pieces, says how many pieces its calls make.
#![tactic(auto)]

mod error;
mod holes;
mod masked;
mod moved;
mod parts;
mod pattern;
mod piece;
mod run;
mod steps;

pub use error::OutOfMemory;
pub use holes::{greater, lesser};
pub use masked::push_masked_piece;
pub use moved::push_moved_piece;
pub use parts::{count_both, push_less, push_outside_hole, push_piece, push_run};
pub use pattern::Pattern;
pub use piece::Piece;
pub use run::Run;
pub use steps::{END, low_bits, step};
