// The commands: the words that ask for each, and how much it reads.
ghost use Rattle.std.specs.Prelude.{◌≡◌, map, string_bytes, IfOk, IfErr};
ghost use Rattle.tool_words.specs.declared.command.Command.{Command as ACommand};
ghost use Rattle.tool_words.specs.Commands.{limit_of, IsCommand};

use crate::error::NoCommand;
use crate::reading::{command_in, named};
use std::alloc::Global;
use tpl_ast::{MAX_FILE, MAX_TEXT};

/// What a search for a test goes by.
#[derive(Clone, Copy, Debug, PartialEq, Eq)]
pub struct Effort {
    /// The seed of the draws.
    pub seed: u64,
    /// The budget of each problem, the most combinations that a search for its answer may have to look at.
    pub nodes: u64,
    /// The most leaf turns.
    pub turns: u64,
}

/// What the program can be asked to do.
#[derive(Clone, Copy, Debug, PartialEq, Eq)]
pub enum Command {
    /// `gen`: the file of a template's test, and its report.
    Gen(Effort),
    /// `replay`: whether the certificate of a file is valid.
    Replay,
    /// `exec`: the steps of an interleaving of a file's harts, which is drawn by this number.
    Exec(u64),
    /// `show`: the report of a file.
    Show,
    /// `demo`: a summary of the test of a made template of so many steps.
    Demo(u32),
}

impl Command {
    /// What the words after the program's name ask for. `Usage` comes where they ask for nothing.
    pub fn asked(alloc: Global, words: &[String]) -> Result<Self, NoCommand>
        ensures found { IfOk result (λ c. IsCommand (map (λ s. string_bytes s) words.now) c) }
        ensures only { IfOk result (λ c. (other : ACommand) → IsCommand (map (λ s. string_bytes s) words.now) other → c ≡ other) }
        ensures usage { IfErr result (λ e. e ≡ NoCommand.Usage → (command : ACommand) → IsCommand (map (λ s. string_bytes s) words.now) command → ⊥) }
    {
        let words = named(alloc, words)?;
        command_in(alloc, words.as_slice())
    }

    /// How many bytes it takes at most: one more than its input may have, or 0 where it reads nothing.
    pub fn limit(self) -> usize
        ensures { result ≡ limit_of self }
    {
        match self {
            Command::Gen(_) => MAX_TEXT + 1,
            Command::Replay => MAX_FILE + 1,
            Command::Exec(_) => MAX_FILE + 1,
            Command::Show => MAX_FILE + 1,
            Command::Demo(_) => 0,
        }
    }
}
