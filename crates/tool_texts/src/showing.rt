// What `show` answers.
ghost use Rattle.std.specs.Prelude.{◌≡◌, List, ℕ, [], IfOk};
ghost use Rattle.tpl_admit.specs.WellFormed.{IsWellFormed};
ghost use Rattle.trace_text.specs.Report.{report_text};
ghost use Rattle.tool_texts.specs.Answers.{number_of};
ghost use Rattle.tool_texts.specs.Show.{ShowAnswers};

use crate::OutOfMemory;
use crate::answer::{Answer, Status};
use crate::lines::no_file;
use crate::test::report_of;
use elf_image::{ReadError, read};
use std::alloc::Global;
use tpl_admit::Cert;

/// What `show` answers to the bytes that it read.
pub(crate) fn show_answer(alloc: Global, bytes: &[u8]) -> Result<Answer, OutOfMemory>
    ensures { IfOk result (λ a. ShowAnswers bytes.now (number_of a.status) a.out.items a.report.items) }
{
    match read(alloc, bytes) {
        Ok(certificate) => shown(alloc, &certificate),
        Err(ReadError::Malformed { part }) => no_file(alloc, part),
        Err(ReadError::OutOfMemory) => Err(OutOfMemory),
    }
}

/// The report of a certificate.
fn shown(alloc: Global, certificate: &Cert) -> Result<Answer, OutOfMemory>
    requires { IsWellFormed certificate.now }
    ensures status { IfOk result (λ a. number_of a.status ≡ 0) }
    ensures out { IfOk result (λ a. a.out.items ≡ report_text certificate.now) }
    ensures report { IfOk result (λ a. a.report.items ≡ []) }
{
    let text = report_of(alloc, certificate)?;
    Ok(Answer::to_out(alloc, Status::Done, text))
}
