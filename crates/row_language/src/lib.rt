//! The language of the rows of the whole tool: what the lines of a file say, and whether an answer is one that a row may give. Who answers, a `Program`, is given by the caller. `docs/ROWS.md` has
//! the language.
#![tactic(auto)]

mod answer;
mod compare;
mod hex;
mod lines;
mod parts;
mod reader;
mod row;
mod stop;

pub use answer::{Answer, Program};
pub use reader::Reader;
pub use row::{Pace, Row, Told};
pub use stop::Stop;
