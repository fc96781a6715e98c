//! The statement that the tokens of a line of a template are, as it is spelled.
#![tactic(auto)]

mod statement;

pub use statement::read_statement;
