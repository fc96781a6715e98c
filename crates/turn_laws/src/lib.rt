//! What becomes of a test in the making when the step of a leaf is taken: its new places are given one by one, and it
//! is then the next step of the hart, and races with nothing; and what becomes of it while the page table entries of a
//! fetch are given. Laws alone, each the contract of a function that does nothing; `leaf_turn` stands on them.
#![tactic(auto)]

mod laws;

pub use laws::{
    entries_are_next, given_places_are_known, places_are_next, played_steps_are_next, starts_grow,
    steps_are_of_candidates, steps_are_played,
};
