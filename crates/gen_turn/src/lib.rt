//! Leaf turns, labels and choices on the test of a template: what the search for the test works on. A leaf turn answers
//! the fetch of its hart and starts its page table entries, answers the leaf where the pc leads, starts the places of
//! the answer, takes its step, binds names, and lists the biases that were not kept. It stands on `leaf_turn` and
//! `gen_search`. It promises that what is made of a template is what its search comes to, and that a certificate is
//! valid.
#![tactic(auto)]

mod binding;
mod draft;
mod dropping;
mod laws;
mod leaf;
mod making;

pub use draft::{Draft, DraftWhole};
pub use laws::{
    done_tests_are_certified, generated_is_one, searches_have_one_result, templates_are_ready,
    texts_tell_what_is_made, turns_have_one_answer,
};
pub use making::{Found, Generated, generate};
