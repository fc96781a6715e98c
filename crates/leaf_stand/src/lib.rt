//! What is known where a leaf of a template stands, and what that says of a step: which operations the atoms and a known
//! word allow, the ways in which the step of each may end (those of CSR instructions and of loads and stores stand in
//! `leaf_csrs` and `data_goals`), the domains of its variables, first cases, and what atoms and known registers say of
//! values. Where loads or stores may be posed it owns what they may do. It stands on `leaf_link`,
//! `data_goals`, `fd_prob` and `dom_set`. It promises that each set has just the words that the definition lets through,
//! and each answer is the definition's.
#![tactic(auto)]

mod atoms;
mod csrs;
mod cuts;
mod domains;
mod fetch_cases;
mod first_cases;
mod formats;
mod kind;
mod laws;
mod operations;
mod relations;
mod shape;
mod shared;
mod stand;
mod way;

pub use atoms::{all_judged, are_between, speak_of};
pub use formats::{FOURS, Spans};
pub use kind::{Kind, is_data, kind_of};
pub use laws::leaves_are_between;
pub use relations::{push_atoms, push_taken};
pub use shape::{End, Shape, same_var};
pub use stand::{Name, Stand};
pub use way::{Aim, Way};
