//! Sets of words that are asked for by value: the words of which legal ones of a control and status register come, the
//! addresses of the registers for which a word is legal, the indices at which tables have values, the words between two
//! ranks of an order, and the words that jump into a set. The only error of its calls is want of memory. It stands on sets,
//! on sums of sets and on the table of registers, and `fd_narrow` cuts domains by it.
#![tactic(auto)]

mod addresses;
mod changes;
mod legal;
mod orders;
mod sources;
mod tables;
mod targets;

pub use addresses::legal_addresses;
pub use changes::Change;
pub use dom_set::OutOfMemory;
pub use orders::{Order, between, rank_ends};
pub use sources::{Made, legal_sources};
pub use tables::{Entries, entries_among, other_indices, refused_indices};
pub use targets::with_odd;
