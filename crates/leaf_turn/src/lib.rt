//! A leaf's turn on a test in the making: the answer of its fetch, with the page table entries that it starts; what is
//! known where its hart then stands, the answer of the leaf, and the step of an answer, with the places that it starts.
//! It stands on `fetch_ways`, `data_bytes`, `data_ways`, `leaf_pose`, `turn_laws`, `part_state` and `fd_solve`. It
//! promises that an answer is that of the leaf's turn over candidates, and that the step is that of the answer.
#![tactic(auto)]

mod answer;
mod built;
mod entering;
mod error;
mod fault;
mod known;
mod laws;
mod memory;
mod stand;
mod taking;
mod wishes;

pub use answer::{answer_of, leaf_answer};
pub use built::{leaves_with_accesses_are_posable, lets_data};
pub use entering::{Entered, enter_fetch, root_of};
pub use error::OutOfMemory;
pub use fault::fault_answer;
pub use known::known_is_words;
pub use laws::{answers_are_found, answers_are_playable, takings_are_one};
pub use stand::{names_of, sources_of, stand_of};
pub use taking::{Fetch, Step, take};
pub use wishes::{biases_of, mandatory_of};
