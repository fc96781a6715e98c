//! What lies in a template's text: its lines, their tokens, the numbers and words that tokens are, and statements whose
//! words lie in it.
#![tactic(auto)]

mod lines;
mod number;
mod text;
mod token;
mod word;

pub use lines::{has_bad_byte, length_until, split_line, strip};
pub use text::{AtomText, DomainText, SetText, Statement, WishText};
pub use token::{Token, tokens};
pub use word::{is_reserved, register_of};
