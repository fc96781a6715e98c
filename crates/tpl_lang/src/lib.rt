//! The template language: its words, its grammar, what the lines of a text say, and which texts are templates.
#![tactic(auto)]

mod fault;
mod laws;
mod mark;
mod phrase;
mod words;

pub use fault::{Fault, Kind};
pub use laws::{
    judged_length_law, kind_law, language_laws, leaf_law, statement_law, template_law, word_law,
};
pub use mark::Mark;
pub use phrase::{Element, Numeral, OutcomeElement};
pub use words::{KEYS, Key, csr_of, key_of, op_number, op_of};
