//! Steps of a hart as rows of tables write them, and what a step says as values that can be compared, for the tests of the
//! machine.
#![tactic(auto)]

mod case;
mod told;

pub use case::{Case, Ending, RAM, Values, case_of, csr_named};
pub use told::{
    Done, MSTATUS, TO_MACHINE, TO_SUPERVISOR, Told, fetched, first_six, retired, saved_by, told_by,
    trapped,
};
