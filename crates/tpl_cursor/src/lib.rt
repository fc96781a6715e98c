//! The parts of a template's statements as they are spelled: what is read of the tokens of a line, from the first on.
#![tactic(auto)]

mod atoms;
mod cursor;
mod stop;

pub use cursor::Cursor;
pub use stop::Stop;
