//! Leaves of templates as problems, and what fits them as candidates for the next step. What a candidate is says
//! `specs/Candidates.antt`, over the machine's own script; what a problem is says `specs/Cases.antt`; that they are one
//! to one, in the order and with the space of the turn, and which biases are kept, are the laws of this crate. Each
//! law is the contract of a function that does nothing.
#![tactic(auto)]

mod bias_laws;
mod fetch_laws;
mod leaf_laws;
mod operation_laws;
mod row_laws;
mod truth_laws;
mod witness_laws;

pub use bias_laws::{biases_are_atoms, biases_are_kept, biases_in_cases, extras_are_biases};
pub use fetch_laws::{
    entries_are_by_places, fault_problems_are_exact, faults_are_exact, fetch_answers_are_exact,
    fetch_firsts_exist, fetch_problems_are_exact, fetches_are_exact, fetches_have_one_answer,
};
pub use leaf_laws::{
    candidates_are_in_domains, firsts_exist, leaf_problems_are_exact, order_is_kept,
    problems_are_exact, spaces_are_exact, turn_answers_are_exact, turns_have_one_answer,
    values_are_by_places,
};
pub use operation_laws::{
    accesses_are_exact, domains_are_of_operations, operations_are_exact, ways_are_built,
    ways_are_exact,
};
pub use row_laws::{data_rows_exist, rows_serve_leaves};
pub use truth_laws::{leaves_are_true, met_atoms_are_true, steps_are_fetched};
pub use witness_laws::{answers_are_possible, leaves_are_possible, walks_are_possible};
