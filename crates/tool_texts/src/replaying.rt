// What `replay` answers.
ghost use Rattle.std.specs.Prelude.{◌≡◌, List, ℕ, [], IfOk};
ghost use Rattle.tpl_admit.specs.WellFormed.{IsWellFormed};
ghost use Rattle.replay_check.specs.declared.verdict.Verdict.TheVariants.{Yes, No};
ghost use Rattle.trace_text.specs.Verdicts.{verdict_text};
ghost use Rattle.tool_texts.specs.Answers.{number_of};
ghost use Rattle.tool_texts.specs.Files.{IsFileOf};
ghost use Rattle.tool_texts.specs.Replay.{ReplayAnswers};

use crate::OutOfMemory;
use crate::answer::Answer;
use crate::lines::{no_file, status_of, verdict_line};
use elf_image::{ReadError, read};
use replay_check::{Verdict, check};
use std::alloc::Global;
use tpl_admit::Cert;

/// What `replay` answers to the bytes that it read.
pub(crate) fn replay_answer(alloc: Global, bytes: &[u8]) -> Result<Answer, OutOfMemory>
    ensures { IfOk result (λ a. ReplayAnswers bytes.now (number_of a.status) a.out.items a.report.items) }
{
    match read(alloc, bytes) {
        Ok(certificate) => checked(alloc, &certificate),
        Err(ReadError::Malformed { part }) => no_file(alloc, part),
        Err(ReadError::OutOfMemory) => Err(OutOfMemory),
    }
}

/// What is answered to the file of a certificate.
fn checked(alloc: Global, certificate: &Cert) -> Result<Answer, OutOfMemory>
    requires { IsWellFormed certificate.now }
    ensures { (bytes : List ℕ) → IsFileOf bytes certificate.now → IfOk result (λ a. ReplayAnswers bytes (number_of a.status) a.out.items a.report.items) }
{
    match check(alloc, certificate) {
        Ok(verdict) => told(alloc, &verdict),
        Err(_) => Err(OutOfMemory),
    }
}

/// A verdict, with its line.
fn told(alloc: Global, answer: &Verdict) -> Result<Answer, OutOfMemory>
    ensures yes { answer.now ≡ Yes → IfOk result (λ a. number_of a.status ≡ 0) }
    ensures no { (kind hart step : ℕ) → answer.now ≡ No kind hart step → IfOk result (λ a. number_of a.status ≡ 10) }
    ensures out { IfOk result (λ a. a.out.items ≡ verdict_text answer.now) }
    ensures report { IfOk result (λ a. a.report.items ≡ []) }
{
    match verdict_line(alloc, answer) {
        Ok(line) => Ok(Answer::to_out(alloc, status_of(answer), line)),
        Err(_) => Err(OutOfMemory),
    }
}
