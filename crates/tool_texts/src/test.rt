// The test of a template's text.
ghost use Rattle.std.specs.Prelude.{◌≡◌, ℕ, List, [], true, false, IfOk, IfErr, Err};
ghost use Rattle.tpl_admit.specs.WellFormed.{IsWellFormed};
ghost use Rattle.trace_text.specs.Report.{report_text};
ghost use Rattle.tpl_ast.specs.declared.template.Template.{Template as ATemplate};
ghost use Rattle.tpl_lang.specs.Parsing.{Parses, parses};
ghost use Rattle.gen_turn.specs.Generating.{IsGivenUp};
ghost use Rattle.tool_words.specs.declared.command.Effort.{Effort as AnEffort};
ghost use Rattle.tool_texts.specs.Answers.{number_of};
ghost use Rattle.tool_texts.specs.Tests.{IsRefusal, IsTest};
ghost use Rattle.tool_texts.specs.Internal.Reasons.{TellsNone};

use crate::OutOfMemory;
use crate::answer::{Answer, Status};
use gen_turn::{Generated, generate};
use std::alloc::Global;
use tool_words::Effort;
use tpl_admit::Cert;
use tpl_ast::Template;
use tpl_lang::Fault;
use tpl_parse::{ParseError, parse};
use trace_text::{fault_text, gave_up, report};

/// Why no test of a text is given.
#[derive(Drop)]
pub(crate) enum NoTest {
    /// The text is no template, or the search gave up: the status, and the line that says why.
    Refused(Status, Vec<u8>),
    OutOfMemory,
}

/// What is answered where no test of a text is given.
pub(crate) fn refused(alloc: Global, why: NoTest) -> Result<Answer, OutOfMemory>
    ensures out { IfOk result (λ a. a.out.items ≡ []) }
    ensures report { (by : AnEffort) (text : List ℕ) → TellsNone by text why → IfOk result (λ a. IsRefusal by text (number_of a.status) a.report.items) }
{
    match why {
        NoTest::Refused(status, line) => Ok(Answer::to_report(alloc, status, line)),
        NoTest::OutOfMemory => Err(OutOfMemory),
    }
}

/// The test of the template that the bytes are.
pub(crate) fn test_of(alloc: Global, effort: &Effort, bytes: &[u8]) -> Result<Cert, NoTest>
    ensures test { IfOk result (IsTest effort.now bytes.now) }
    ensures none { IfErr result (TellsNone effort.now bytes.now) }
{
    match parse(alloc, bytes) {
        Ok(template) => searched(alloc, effort, template),
        Err(ParseError::Fault(fault)) => Err(faulty(alloc, &fault)),
        Err(ParseError::OutOfMemory) => Err(NoTest::OutOfMemory),
    }
}

/// The test of a template.
fn searched(alloc: Global, effort: &Effort, template: Template) -> Result<Cert, NoTest>
    requires { Parses template.text template }
    ensures test { IfOk result (IsTest effort.now template.text) }
    ensures none { IfErr result (TellsNone effort.now template.text) }
{
    match generate(alloc, template, effort.seed, effort.nodes, effort.turns) {
        Ok(Generated::Done(certificate)) => Ok(certificate),
        Ok(
            Generated::GaveUp {
                none_fits,
                spent,
                last_line,
            },
        ) => Err(given_up(alloc, none_fits, spent, last_line)),
        Err(_) => Err(NoTest::OutOfMemory),
    }
}

/// That bytes are no template, with the line that tells what is wrong with them.
fn faulty(alloc: Global, fault: &Fault) -> NoTest
    ensures { (by : AnEffort) (bytes : List ℕ) → parses bytes ≡ Err fault.now → TellsNone by bytes result }
{
    match fault_text(alloc, fault) {
        Ok(line) => NoTest::Refused(Status::NoTemplate, line.into_bytes()),
        Err(_) => NoTest::OutOfMemory,
    }
}

/// That the search for a test of the template of the bytes gave up, with the line that tells its numbers.
fn given_up(alloc: Global, none_fits: u64, spent: u64, last_line: u32) -> NoTest
    ensures { (by : AnEffort) (bytes : List ℕ) (t : ATemplate) → Parses bytes t
        → IsGivenUp t by.seed by.nodes by.turns none_fits spent last_line → TellsNone by bytes result }
{
    match gave_up(alloc, none_fits, spent, last_line) {
        Ok(line) => NoTest::Refused(Status::GaveUp, line.into_bytes()),
        Err(_) => NoTest::OutOfMemory,
    }
}

/// The report of a test.
pub(crate) fn report_of(alloc: Global, certificate: &Cert) -> Result<Vec<u8>, OutOfMemory>
    requires { IsWellFormed certificate.now }
    ensures { IfOk result (λ v. v.items ≡ report_text certificate.now) }
{
    match report(alloc, certificate) {
        Ok(text) => Ok(text.into_bytes()),
        Err(_) => Err(OutOfMemory),
    }
}
