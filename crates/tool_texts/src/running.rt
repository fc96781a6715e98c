// What `exec` answers.
ghost use Rattle.std.specs.Prelude.{◌≡◌, ◌<◌, ◌≤◌, ◌+◌, ◌^◌, ◌++◌, ℕ, List, [], map, length, IfOk};
ghost use Rattle.std.specs.List.{AllByRecursion};
ghost use Rattle.tpl_ast.specs.Limits.{most_records, text_room};
ghost use Rattle.tpl_admit.specs.WellFormed.{IsRecord, IsWellFormed};
ghost use Rattle.rv_system.specs.Runs.{stopped_hart};
ghost use Rattle.run_order.specs.Orders.{turns_in};
ghost use Rattle.replay_check.specs.declared.verdict.Verdict.TheVariants.{Yes, No};
ghost use Rattle.trace_text.specs.Events.{events_text};
ghost use Rattle.trace_text.specs.Verdicts.{verdict_text};
ghost use Rattle.tool_texts.specs.Answers.{number_of};
ghost use Rattle.tool_texts.specs.Files.{IsFileOf};
ghost use Rattle.tool_texts.specs.Exec.{ExecAnswers, drawn_run, drawn_turns, run_text, verdict_behind};

use crate::OutOfMemory;
use crate::answer::Answer;
use crate::lines::{no_file, status_of, verdict_line};
use elf_image::{ReadError, read};
use replay_check::{Verdict, check};
use run_order::{drawn_order, order_laws};
use rv_hart::Record;
use rv_system::{Execution, execute, sound_certificates_are_faithful};
use std::alloc::Global;
use tpl_admit::Cert;
use tpl_ast::Items;
use tpl_lang::template_law;
use trace_text::{events, length_laws};

/// What `exec` answers to the bytes that it read.
pub(crate) fn exec_answer(alloc: Global, number: u64, bytes: &[u8]) -> Result<Answer, OutOfMemory>
    ensures answer { IfOk result (λ a. ExecAnswers number bytes.now (number_of a.status) a.out.items a.report.items) }
    ensures out_size { IfOk result (λ a. length a.out.items < text_room) }
{
    match read(alloc, bytes) {
        Ok(certificate) => executed(alloc, number, &certificate),
        Err(ReadError::Malformed { part }) => no_file(alloc, part),
        Err(ReadError::OutOfMemory) => Err(OutOfMemory),
    }
}

/// What is answered to the file of a certificate.
fn executed(alloc: Global, number: u64, certificate: &Cert) -> Result<Answer, OutOfMemory>
    requires { IsWellFormed certificate.now }
    ensures answer { (bytes : List ℕ) → IsFileOf bytes certificate.now → IfOk result (λ a. ExecAnswers number bytes (number_of a.status) a.out.items a.report.items) }
    ensures out_size { IfOk result (λ a. length a.out.items < text_room) }
{
    // A valid certificate is faithful, and the system with zero elsewhere begins as it says.
    sound_certificates_are_faithful();
    // Each hart has as many turns as records.
    order_laws();
    // A verdict has its room behind the text of a run.
    length_laws();
    let text = text_of_run(alloc, number, certificate)?;
    match check(alloc, certificate) {
        Ok(verdict) => told(alloc, text, &verdict),
        Err(_) => Err(OutOfMemory),
    }
}

/// The text of the run of a certificate's harts in the order that a number draws.
fn text_of_run(alloc: Global, number: u64, certificate: &Cert) -> Result<Vec<u8>, OutOfMemory>
    requires { IsWellFormed certificate.now }
    ensures text { IfOk result (λ v. v.items ≡ run_text number certificate.now) }
    ensures size { IfOk result (λ v. length v.items + 256 < text_room) }
{
    // How long texts can be.
    length_laws();
    let run = run_of_file(alloc, number, certificate)?;
    let text = events(alloc, run.events.as_slice(), run.stopped)?;
    Ok(text.into_bytes())
}

/// The run of a certificate's harts in the order that a number draws.
fn run_of_file(alloc: Global, number: u64, certificate: &Cert) -> Result<Execution, OutOfMemory>
    requires { IsWellFormed certificate.now }
    ensures events { IfOk result (λ x. x.events.items ≡ (drawn_run number certificate.now).events) }
    ensures stopped { IfOk result (λ x. x.stopped ≡ stopped_hart (drawn_turns number certificate.now) (drawn_run number certificate.now)) }
    ensures fit { IfOk result (λ x. AllByRecursion (λ e. IsRecord e.1) x.events.items) }
    ensures few { IfOk result (λ x. length x.events.items ≤ most_records) }
{
    // The turns are those of harts.
    order_laws();
    let turns = turns_of(alloc, certificate.traces.as_slice())?;
    let order = drawn_order(alloc, number, turns.as_slice())?;
    Ok(execute(alloc, certificate, order.as_slice())?)
}

/// How many records each hart has.
fn turns_of(alloc: Global, traces: &[Items<Record>]) -> Result<Vec<u32>, OutOfMemory>
    requires { turns_in (map (λ t. length t) traces.now) < 2 ^ 32 }
    ensures { IfOk result (λ v. v.items ≡ map (λ t. length t) traces.now) }
{
    let mut turns = Vec::new(alloc);
    for trace in traces {
        turns.push(trace.len() as u32)?;
    }
    Ok(turns)
}

/// The text of a run, and the first failure behind it where there is one.
fn told(alloc: Global, text: Vec<u8>, answer: &Verdict) -> Result<Answer, OutOfMemory>
    ensures yes { answer.now ≡ Yes → IfOk result (λ a. number_of a.status ≡ 0) }
    ensures no { (kind hart step : ℕ) → answer.now ≡ No kind hart step → IfOk result (λ a. number_of a.status ≡ 10) }
    ensures out { IfOk result (λ a. a.out.items ≡ text.items ++ verdict_behind answer.now) }
    ensures report { IfOk result (λ a. a.report.items ≡ []) }
{
    let out = with_verdict(alloc, text, answer)?;
    Ok(Answer::to_out(alloc, status_of(answer), out))
}

/// Puts the line of the first failure behind a text, where there is one.
fn with_verdict(alloc: Global, mut text: Vec<u8>, answer: &Verdict) -> Result<Vec<u8>, OutOfMemory>
    ensures { IfOk result (λ v. v.items ≡ text.items ++ verdict_behind answer.now) }
{
    match *answer {
        Verdict::Yes => Ok(text),
        Verdict::No { .. } => {
            let line = verdict_line(alloc, answer)?;
            text.extend_from_slice(&line)?;
            Ok(text)
        }
    }
}
