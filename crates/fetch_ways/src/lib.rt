//! Where the pc of a hart leads while page table entries of its fetch may still be chosen: the choices of new entries whose
//! walks race with nothing and lead to no known word, by where they lead; the forms of new entries as sets; and how many pairs
//! of them there are. It stands on `addr_rows`, which tells where addresses lead, on `foot_map`, and on the definitions of
//! `leaf_link`. It promises that each choice whose walk keeps is in a way with its end, and that a way holds nothing else.
#![tactic(auto)]

mod forms;
mod making;
mod walker;
mod way;

pub use dom_set::OutOfMemory;
pub use forms::{EntryForms, entry_forms, fetch_pairs};
pub use making::fetch_ways;
pub use row_parts::Forms;
pub use way::{FetchEnd, FetchWay};
