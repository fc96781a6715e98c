// The words of the command line, as `clap` reads them.
ghost use Rattle.std.specs.Prelude.{◌≡◌, ◌∷◌, map, codes, false, string_bytes, IfOk, IfErr};
ghost use Rattle.clap.specs.declared.builder.command.Command.TheViews.{out-Command as fields_of};
ghost use Rattle.clap.specs.Words.{app_of, fault_of, found_of, kind_of, rows_of, rule_of, subcommand_rows_of, FailsBy, HasMatchesOf};
ghost use Rattle.tool_words.specs.declared.command.Command.{Command as ACommand};
ghost use Rattle.tool_words.specs.App.{demo_app, exec_app, gen_app, number_rule, testgen_app};
ghost use Rattle.tool_words.specs.Commands.{asked_by, asked_in, effort_in, number_in, IsAsked};

use crate::command::{Command, Effort};
use crate::error::NoCommand;
use clap::builder::ValueParser;
use clap::error::ErrorKind;
use clap::{Arg, ArgAction, ArgMatches, Error};
use std::alloc::{AllocError, Global};

/// The words behind the program's own name.
pub fn named<'a>(alloc: Global, words: &'a [String]) -> Result<Vec<&'a str>, AllocError>
    ensures { IfOk result (λ v. map (λ w. w.now) v.items ≡ codes "testgen" ∷ map (λ s. string_bytes s) words.entry.now) }
{
    let mut texts = Vec::new(alloc);
    texts.push("testgen")?;
    for word in words {
        texts.push(word.as_str())?;
    }
    Ok(texts)
}

/// What these words ask for, the program's name first.
pub fn command_in<'a>(alloc: Global, words: &'a [&'a str]) -> Result<Command, NoCommand>
    ensures found { IfOk result (λ c. IsAsked (map (λ w. w.now) words.entry.now) c) }
    ensures usage { IfErr result (λ e. e ≡ NoCommand.Usage → (command : ACommand) → IsAsked (map (λ w. w.now) words.entry.now) command → ⊥) }
{
    match matches_of(alloc, words) {
        Ok(matches) => asked(&matches).ok_or(NoCommand::Usage),
        Err(error) => Err(refusal(&error)),
    }
}

/// What `clap` finds in the words.
fn matches_of<'a>(alloc: Global, words: &'a [&'a str]) -> Result<ArgMatches<'a>, Error>
    ensures kinds { FailsBy (fault_of testgen_app (map (λ w. w.now) words.entry.now)) result }
    ensures matches { IfOk result (HasMatchesOf testgen_app (map (λ w. w.now) words.entry.now)) }
{
    testgen(alloc)?.try_get_matches_from(words)
}

/// The program's command line.
fn testgen<'a>(alloc: Global) -> Result<clap::Command<'a>, AllocError>
    ensures { IfOk result (λ c. app_of c ≡ testgen_app) }
{
    let whole = clap::Command::new(alloc, "testgen")
        .subcommand_required(true)
        .subcommand(generate(alloc)?)?
        .subcommand(clap::Command::new(alloc, "replay"))?
        .subcommand(execute(alloc)?)?
        .subcommand(clap::Command::new(alloc, "show"))?
        .subcommand(demonstrate(alloc)?)?;
    Ok(whole)
}

/// `gen`, with its options.
fn generate<'a>(alloc: Global) -> Result<clap::Command<'a>, AllocError>
    ensures app { IfOk result (λ c. app_of c ≡ gen_app) }
    ensures local { IfOk result (λ c. (fields_of c).has_globals ≡ false) }
{
    let seed = number(alloc, "seed", 0, u64::MAX)
        .long("seed")
        .required(true);
    let nodes = number(alloc, "nodes", 1, 1_000_000_000)
        .long("nodes")
        .default_value("67108864");
    let turns = number(alloc, "turns", 1, 1_000_000)
        .long("turns")
        .default_value("65536");
    let command = clap::Command::new(alloc, "gen")
        .arg(seed)?
        .arg(nodes)?
        .arg(turns)?;
    Ok(command)
}

/// `exec`, with its option.
fn execute<'a>(alloc: Global) -> Result<clap::Command<'a>, AllocError>
    ensures app { IfOk result (λ c. app_of c ≡ exec_app) }
    ensures local { IfOk result (λ c. (fields_of c).has_globals ≡ false) }
{
    let order = number(alloc, "order", 0, u64::MAX)
        .long("order")
        .required(true);
    clap::Command::new(alloc, "exec").arg(order)
}

/// `demo`, with its number.
fn demonstrate<'a>(alloc: Global) -> Result<clap::Command<'a>, AllocError>
    ensures app { IfOk result (λ c. app_of c ≡ demo_app) }
    ensures local { IfOk result (λ c. (fields_of c).has_globals ≡ false) }
{
    let steps = number(alloc, "steps", 0, 2_000).required(true);
    clap::Command::new(alloc, "demo").arg(steps)
}

/// An argument that takes one number between two bounds.
fn number<'a>(alloc: Global, id: &'a str, least: u64, most: u64) -> Arg<'a>
    ensures rule { rule_of result ≡ number_rule id.entry.now least most }
    ensures local { result.global ≡ false }
{
    Arg::new(alloc, id)
        .action(ArgAction::Set)
        .value_parser(ValueParser::unsigned(least, most))
}

/// Why the words were refused.
fn refusal(error: &Error) -> NoCommand
    ensures memory { result ≡ NoCommand.Usage → kind_of error.now ≡ ErrorKind.OutOfMemory → ⊥ }
    ensures usage { (kind_of error.now ≡ ErrorKind.OutOfMemory → ⊥) → result ≡ NoCommand.Usage }
{
    if error.kind() == ErrorKind::OutOfMemory {
        NoCommand::OutOfMemory
    } else {
        NoCommand::Usage
    }
}

/// What the matches ask for.
fn asked<'a>(matches: &ArgMatches<'a>) -> Option<Command>
    ensures { result ≡ asked_in (subcommand_rows_of matches.now) }
{
    let (name, rows) = matches.subcommand()?;
    asked_of(name, rows)
}

/// What the matches of the subcommand with this name ask for.
fn asked_of<'a>(name: &str, matches: &ArgMatches<'a>) -> Option<Command>
    ensures { result ≡ asked_by name.now (rows_of (found_of matches.now)) }
{
    match name {
        "gen" => Some(Command::Gen(effort(matches)?)),
        "replay" => Some(Command::Replay),
        "exec" => Some(Command::Exec(long_number(matches, "order")?)),
        "show" => Some(Command::Show),
        "demo" => Some(Command::Demo(short_number(matches, "steps")?)),
        _ => None,
    }
}

/// What a search goes by.
fn effort<'a>(matches: &ArgMatches<'a>) -> Option<Effort>
    ensures { result ≡ effort_in (rows_of (found_of matches.now)) }
{
    Some(Effort {
        seed: long_number(matches, "seed")?,
        nodes: long_number(matches, "nodes")?,
        turns: long_number(matches, "turns")?,
    })
}

/// The number of this argument, of 64 bits at most.
fn long_number<'a>(matches: &ArgMatches<'a>, id: &str) -> Option<u64>
    ensures { result ≡ number_in 64 id.now (rows_of (found_of matches.now)) }
{
    matches.get_one::<u64>(id)
}

/// The number of this argument, of 32 bits at most.
fn short_number<'a>(matches: &ArgMatches<'a>, id: &str) -> Option<u32>
    ensures { result ≡ number_in 32 id.now (rows_of (found_of matches.now)) }
{
    matches.get_one::<u32>(id)
}
