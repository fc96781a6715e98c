//! Problems as rows of tables write them, for the tests of the crates that work on problems.
#![tactic(auto)]

mod reading;

pub use reading::{assignment_of, case_of, number, problem_of, relations, set_of, variable_of};
