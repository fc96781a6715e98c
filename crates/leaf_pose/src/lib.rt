//! Leaves of templates posed as problems, from what is known where they stand: for each operation and each way in which
//! its step may end, a case of domains and relations; of a CSR instruction one for each register and usage; of a load
//! or store one for each goal of each way; of a fetch one for each of its ways. It stands on `leaf_csrs`, `leaf_stand`,
//! `data_goals`, `data_ways` and `fetch_ways`. It promises that the problem is the definition's at every turn that the
//! stand tells, and what is added for a bias is the bias.
#![tactic(auto)]

mod cases;
mod csrs;
mod extras;
mod fetches;
mod firsts;
mod goals;
mod operations;
mod problem;
mod relations;
mod shaped;

pub use dom_set::OutOfMemory;
pub use extras::extra_of;
pub use fetches::{fault_problem, fetch_problem};
pub use leaf_stand::{End, Name, Shape, Stand, are_between, is_data, leaves_are_between, same_var};
pub use problem::{Posed, problem_of};
