//! A step as a script of questions: what it asks of registers, CSRs and memory one after another,
//! and what it then does. The types of places and accesses, the folds of a script on partial and on
//! whole states, and the laws that hold of every script stand here, so that no instruction owes a proof of them.
#![tactic(auto)]

mod access;
mod laws;
mod place;

pub use access::{Access, Accesses, Role};
pub use laws::{
    answers_are_those_of_whole_states, answers_go_on, more_knowledge_changes_nothing, play_laws,
    steps_are_local,
};
pub use place::Place;
