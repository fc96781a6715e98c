//! The commands, and what each answers to the bytes that it read: a status, and the texts that tell it.
#![tactic(auto)]

mod answer;
mod command;
mod demonstrating;
mod error;
mod generating;
mod laws;
mod lines;
mod replaying;
mod running;
mod showing;
mod test;

pub use answer::{Answer, Status};
pub use command::answer_to;
pub use error::OutOfMemory;
pub use laws::answer_laws;
pub use tool_words::{Command, Effort, NoCommand, words_law};
