//! The parser of templates: the lines of a text, one after another, and the first faulty one with its fault.
#![tactic(auto)]

mod error;
mod read;

pub use error::ParseError;
pub use read::parse;
