//! The parts of a certificate, from the machine of a test that was made: harts as states, records, the words of the
//! start by ascending address with their last values, choices, and the names that have a value.
#![tactic(auto)]

mod choices;
mod names;
mod records;
mod states;
mod words;

pub use choices::choices_of;
pub use names::names_of;
pub use part_machine::OutOfMemory;
pub use records::copy_traces;
pub use states::states_of;
pub use words::{last_of, words_of};
