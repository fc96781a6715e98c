//! Binary formats made of numbers with the least byte first and of pieces one behind the other. Small functions write
//! a number or padding at the end of a buffer, or read one at the front of a slice. The specifications hold
//! what is written, and readers that are put together from smaller ones; one law for each way to put
//! them together says that what is read is written so, and what is written so is read.
#![tactic(auto)]

mod error;
mod reading;
mod writing;

pub use error::PieceError;
pub use reading::{
    after, after_half, after_padding, after_word, byte_of, half_of, padded_of, word_of,
};
pub use writing::{put_byte, put_half, put_padding, put_short, put_size, put_word};
