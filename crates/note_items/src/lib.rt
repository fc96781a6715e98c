//! The items of a file's notes as bytes: the states of harts, their records, words, values of places and names, and dropped biases. What is written is a definition of the item, and reading gives
//! just what is written so; an item that no file may have is malformed.
#![tactic(auto)]

mod checks;
mod reading;
mod writing;

pub use reading::{drops_of, pairs_of, states_in, states_of, traces_in, words_of};
pub use writing::{put_dropped, put_pairs, put_states, put_traces, put_words};
