//! The translation of addresses by Sv32 (Privileged, 4.3): the rules of page table entries one by one,
//! and `walk`, which reads the entries of an address from a memory of which some words may not be known.
#![tactic(auto)]

mod ending;
mod entries;
mod entry;
mod walking;

pub use ending::{Walk, WalkEnd};
pub use entries::Entries;
pub use entry::{
    EntryFlag, Kind, View, is_closed, is_invalid, is_pointer, is_reserved, is_unaligned,
};
pub use walking::{is_translated, walk};
