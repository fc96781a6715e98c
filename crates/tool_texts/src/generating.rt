// What `gen` answers.
ghost use Rattle.std.specs.Prelude.{◌≡◌, IfOk};
ghost use Rattle.tpl_admit.specs.WellFormed.{IsWellFormed};
ghost use Rattle.elf_image.specs.File.{file_bytes};
ghost use Rattle.trace_text.specs.Report.{report_text};
ghost use Rattle.tool_texts.specs.Answers.{number_of};
ghost use Rattle.tool_texts.specs.Gen.{GenAnswers};

use crate::OutOfMemory;
use crate::answer::{Answer, Status};
use crate::test::{refused, report_of, test_of};
use elf_image::write;
use std::alloc::Global;
use tool_words::Effort;
use tpl_admit::Cert;

/// What `gen` answers to the bytes that it read.
pub(crate) fn gen_answer(
    alloc: Global,
    effort: &Effort,
    bytes: &[u8],
) -> Result<Answer, OutOfMemory>
    ensures { IfOk result (λ a. GenAnswers effort.now bytes.now (number_of a.status) a.out.items a.report.items) }
{
    match test_of(alloc, effort, bytes) {
        Ok(test) => told(alloc, &test),
        Err(why) => refused(alloc, why),
    }
}

/// The file of a test, and its report.
fn told(alloc: Global, test: &Cert) -> Result<Answer, OutOfMemory>
    requires { IsWellFormed test.now }
    ensures status { IfOk result (λ a. number_of a.status ≡ 0) }
    ensures out { IfOk result (λ a. a.out.items ≡ file_bytes test.now) }
    ensures report { IfOk result (λ a. a.report.items ≡ report_text test.now) }
{
    let out = file_of(alloc, test)?;
    let report = report_of(alloc, test)?;
    Ok(Answer {
        status: Status::Done,
        out,
        report,
    })
}

/// The file of a test.
fn file_of(alloc: Global, test: &Cert) -> Result<Vec<u8>, OutOfMemory>
    requires { IsWellFormed test.now }
    ensures { IfOk result (λ v. v.items ≡ file_bytes test.now) }
{
    match write(alloc, test) {
        Ok(bytes) => Ok(bytes),
        Err(_) => Err(OutOfMemory),
    }
}
