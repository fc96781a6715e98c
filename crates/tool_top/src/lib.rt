//! The top call. `run` does what a command's words ask for, over any source and any sinks, and carries the promise of the whole tool; `words_of` makes the words of a program's arguments.
#![tactic(auto)]

mod command;
mod words;
mod writing;

pub use command::run;
pub use tool_texts::{Command, Effort, NoCommand};
pub use words::{ArgList, words_of};
