//! Rows of tables, word by word, and memories by their words, for the crates of tests that read them.
#![tactic(auto)]

mod memory;
mod row;

pub use memory::memory_of;
pub use row::{Row, number_of, role_of};
