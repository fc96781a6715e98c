//! Where addresses lead when page table entries may still be chosen: `rows` tells of a set of
//! addresses, and of every choice of entries of given forms where none is known yet, where the
//! translation then ends. Each address with such a choice is in exactly one row.
#![tactic(auto)]

mod laws;
mod making;
mod root_entries;
mod scene;
mod second_entries;
mod values;

pub use dom_set::OutOfMemory;
pub use laws::rows_are_walks;
pub use making::rows;
pub use row_parts::{Forms, Row, RowEnd};
pub use values::has_value;
