//! The memory of harts, by aligned words: RAM as a list of regions, a memory that knows all of it, and
//! one that knows some of its words. A step of a hart reads by `Words` and stores by `Mem`.
#![tactic(auto)]

mod bytes;
mod error;
mod full;
mod part;
mod ram;
mod words;

pub use error::OutOfMemory;
pub use full::FullMem;
pub use part::PartMem;
pub use ram::Ram;
pub use words::{Mem, Seen, Words};
