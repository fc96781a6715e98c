//! Where the addresses of loads and stores lead while page table entries of their translation may still be chosen: the choices of
//! addresses and new entries whose walks race with nothing, by where they lead; and, for a store, do not read a known entry of
//! the very word that it stores to. It stands on `addr_rows`, which tells where addresses lead, on `foot_map`, and on the
//! definitions of `leaf_link`. It promises that each choice whose walk keeps is in a way with its end, and that a way holds
//! nothing else.
#![tactic(auto)]

mod barring;
mod leading;
mod making;
mod pointers;
mod walker;
mod way;

pub use data_bytes::DataAccess;
pub use dom_set::OutOfMemory;
pub use leading::reaching;
pub use making::data_ways;
pub use row_parts::{Forms, off_diagonal};
pub use way::{DataEnd, DataWay};
