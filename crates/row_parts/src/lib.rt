//! What rows of addresses are made of: the forms of new page table entries, entries that lead alike in
//! groups, the addresses whose entries are seen alike, and the rows of addresses that lead to one frame.
#![tactic(auto)]

mod alike;
mod blocks;
mod classes;
mod diagonal;
mod forms;
mod numbers;
mod pages;
mod ram_part;
mod row;
mod splitting;
mod target;

pub use alike::{Entries, Group, grouped};
pub use blocks::{Choice, Cover, chosen};
pub use classes::{ClassPart, Level, is_same, kinds_of, table_in, word_at};
pub use diagonal::{counts, off_diagonal};
pub use dom_set::OutOfMemory;
pub use forms::{Forms, form_law};
pub use numbers::set_of;
pub use pages::{Indices, indices_of, page_of};
pub use row::{News, Row, RowEnd, copy_of, is_empty};
pub use splitting::{push_all, push_reached};
pub use target::{Target, is_same_target, root_target, second_target};
