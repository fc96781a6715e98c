// The words of the command line.
ghost use Rattle.std.specs.Prelude.{◌≡◌, ◌≢◌, ℕ, [], ◌∷◌, ◌++◌, drop, map, string_bytes, IfOk, IfErr, OnOk, OnErr, MatchResult};
ghost use Rattle.std.specs.Vec.Iter.{into_iter_items};
ghost use Rattle.std.specs.IoError.{error_kind};
ghost use Rattle.tool_words.specs.declared.command.Command.{Command as ACommand};
ghost use Rattle.tool_top.specs.Words.{AreBehindName};
ghost use Rattle.tool_words.specs.Commands.{IsCommand};

use std::alloc::{AllocError, Global};
use std::env::Args;
use std::io;
use std::io::ErrorKind;
use std::marker::Model;
use tool_texts::{Command, NoCommand};

/// The words after the program's name, which a contract sees as the list of their bytes.
#[derive(Drop)]
pub struct ArgList {
    texts: Vec<String>,
}

impl Model for ArgList {
    ghost use Rattle.std.specs.Prelude.{List, ℕ, map, string_bytes};

    ghost Value = { List (List ℕ) };

    ghost view = { λ a. map (λ s. string_bytes s) a.texts.items };
}

impl ArgList {
    /// No words.
    pub fn new(alloc: Global) -> Self
        ensures { result ≡ [] }
    {
        ArgList {
            texts: Vec::new(alloc),
        }
    }

    /// The words behind the first one of a program's arguments, its own name.
    pub fn from_args(alloc: Global, args: Args) -> Result<Self, AllocError>
        ensures { IfOk result (λ a. AreBehindName a args) }
    {
        let mut texts: Vec<String> = args.collect(alloc)?;
        if !texts.is_empty() {
            texts.remove(0);
        }
        Ok(ArgList { texts })
    }

    /// Puts a word at the end. Without memory for it the list stays as it is.
    pub fn push(&mut self, alloc: Global, word: &str) -> Result<(), AllocError>
        ensures ok { OnOk result (self.new ≡ self.old ++ word.now ∷ []) }
        ensures err { OnErr result (self.new ≡ self.old) }
    {
        let text = String::from_str(alloc, word)?;
        self.texts.push(text)?;
        Ok(())
    }

    /// What the words ask for. `Usage` comes where they ask for nothing.
    pub fn command(&self, alloc: Global) -> Result<Command, NoCommand>
        ensures found { IfOk result (λ c. IsCommand self.now c) }
        ensures only { IfOk result (λ c. (other : ACommand) → IsCommand self.now other → c ≡ other) }
        ensures usage { IfErr result (λ e. e ≡ NoCommand.Usage → (command : ACommand) → IsCommand self.now command → ⊥) }
    {
        Command::asked(alloc, self.texts.as_slice())
    }
}

/// The words of a program's arguments, or memory ran out. The program takes no word that is not
/// UTF-8: with such a word among them no word is passed on.
pub fn words_of(alloc: Global, args: io::Result<Args>) -> Result<ArgList, AllocError>
    // The arguments can be told, or one of them is not UTF-8.
    ensures words { IfOk result (λ a. MatchResult args (λ it. AreBehindName a it) (λ e. (error_kind e ≡ ErrorKind.InvalidData) × (a ≡ []))) }

    // Never for an argument that is not UTF-8.
    ensures none { IfErr result (λ _. MatchResult args (λ _. Unit) (λ e. error_kind e ≢ ErrorKind.InvalidData)) }
{
    match args {
        Ok(args) => ArgList::from_args(alloc, args),
        Err(e) if e.kind() == ErrorKind::InvalidData => Ok(ArgList::new(alloc)),
        Err(_) => Err(AllocError),
    }
}
