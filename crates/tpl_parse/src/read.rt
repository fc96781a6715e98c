// The lines of a text, each judged after those before it.
ghost use Rattle.std.specs.Prelude.{◌≡◌, ◌≤◌, ◌<◌, length, Err, IfOk};
ghost use Rattle.tpl_lang.specs.declared.fault.Kind.TheVariants.{TooLong};
ghost use Rattle.tpl_lang.specs.Lines.{lines};
ghost use Rattle.tpl_lang.specs.Parsing.{Parses, fault, parses, said, said_by, line_parsed, lines_parsed, tokens_parsed};
ghost use Rattle.tpl_lang.specs.Known.{nothing};
ghost use Rattle.tpl_parse.specs.declared.error.ParseError.TheVariants as errors;
ghost use Rattle.tpl_parse.specs.Answers.{Answers, IsSaid, Meets, at_line};
ghost use Rattle.tpl_state.specs.Internal.State.{known};
ghost use Rattle.tpl_token.specs.Internal.Views.{views};
ghost use Rattle.tpl_ast.specs.Limits.{most_text};

use crate::error::{ParseError, Trouble};
use std::alloc::Global;
use tpl_apply::apply;
use tpl_ast::{Items, MAX_TEXT, Template};
use tpl_fault::{find_fault, is_finished};
use tpl_judge::vectors_of;
use tpl_lang::{Fault, Kind};
use tpl_phrase::read_statement;
use tpl_state::State;
use tpl_token::{Token, has_bad_byte, length_until, split_line, strip, tokens};

#[tactic(auto, unfolding(tpl_lang::specs::Parsing::tokens_parsed), using(crate::proofs::Faults::faultless))]
fn read_tokens(
    alloc: Global,
    state: &mut State,
    line: u32,
    tokens: &[Token<'_>],
    last: bool,
) -> Result<(), Trouble>
    ensures { Meets (known state.new) result (tokens_parsed (known state.old) line (views tokens.now) last) }
{
    if tokens.is_empty() {
        if last && !is_finished(state) {
            return Err(Trouble::Fault(Kind::Unexpected));
        }
        return Ok(());
    }
    let statement = read_statement(alloc, tokens)?;
    if let Some(kind) = find_fault(alloc, state, &statement, last)? {
        return Err(Trouble::Fault(kind));
    }
    apply(alloc, state, line, &statement)?;
    Ok(())
}

#[tactic(auto, unfolding(tpl_lang::specs::Parsing::line_parsed))]
fn read_line(
    alloc: Global,
    state: &mut State,
    line: u32,
    bytes: &[u8],
    last: bool,
) -> Result<(), Trouble>
    ensures { Meets (known state.new) result (line_parsed (known state.old) line bytes.now last) }
{
    if has_bad_byte(bytes) {
        return Err(Trouble::Fault(Kind::BadByte));
    }
    let statement = &bytes[..length_until(bytes, b'#')];
    let Some(tokens) = tokens(alloc, statement)? else {
        return Err(Trouble::Fault(Kind::Unexpected));
    };
    read_tokens(alloc, state, line, &tokens, last)
}

/// What all lines have said.
fn finish(alloc: Global, state: State, text: Items<u8>) -> Result<Template, ParseError>
    ensures said { IsSaid (said (known state)) result }
    ensures text { IfOk result (λ t. t.text ≡ text) }
{
    let Ok(vectors) = vectors_of(alloc, state.vectors, &state.pool) else {
        return Err(ParseError::OutOfMemory);
    };
    let Ok(names) = state.names.into_decls(alloc) else {
        return Err(ParseError::OutOfMemory);
    };
    Ok(Template {
        text,
        ram: Items::from_vec(state.ram),
        pool: Items::from_vec(state.pool),
        tables: Items::from_vec(state.tables),
        flags: Items::from_vec(state.flags),
        vectors,
        words: Items::from_vec(state.words),
        names,
        harts: Items::from_vec(state.harts),
    })
}

fn refuse(trouble: Trouble, line: u32) -> ParseError
    ensures { result ≡ at_line line trouble }
{
    match trouble {
        Trouble::Memory => ParseError::OutOfMemory,
        Trouble::Fault(kind) => ParseError::Fault(Fault { line, kind }),
    }
}

/// What all lines have said, or the first faulty one and its fault.
fn read_lines(alloc: Global, text: &[u8]) -> Result<State, ParseError>
    requires { length text.now ≤ most_text }
    ensures { Answers (λ s. said (known s)) result (lines_parsed nothing 1 (lines text.now)) }
{
    let mut state = State::new(alloc);
    let mut line: u32 = 1;
    let mut rest = text;
    loop {
        let (bytes, behind) = split_line(rest);
        match behind {
            None => {
                return match read_line(alloc, &mut state, line, bytes, true) {
                    Ok(()) => Ok(state),
                    Err(trouble) => Err(refuse(trouble, line)),
                };
            }
            Some(after) => {
                if let Err(trouble) = read_line(alloc, &mut state, line, strip(bytes), false) {
                    return Err(refuse(trouble, line));
                }
                line += 1;
                rest = after;
            }
        }
    }
}

/// The template that a text says, or its first faulty line with the least kind of fault on it.
#[tactic(auto, unfolding(tpl_lang::specs::Parsing::parses))]
pub fn parse(alloc: Global, text: &[u8]) -> Result<Template, ParseError>
    ensures said { Answers said_by result (parses text.now) }
    ensures text { IfOk result (λ t. t.text ≡ text.now) }
    ensures template { IfOk result (λ t. Parses t.text t) }
    // A text that is too long takes no memory to refuse.
    ensures long { most_text < length text.now → result ≡ Err (errors.Fault (fault 0 TooLong)) }
{
    if text.len() > MAX_TEXT {
        return Err(ParseError::Fault(Fault {
            line: 0,
            kind: Kind::TooLong,
        }));
    }
    let state = read_lines(alloc, text)?;
    match Items::from_slice(alloc, text) {
        Ok(text) => finish(alloc, state, text),
        Err(_) => Err(ParseError::OutOfMemory),
    }
}
