// Lines that tell what a file is.
ghost use Rattle.std.specs.Prelude.{◌≡◌, List, ℕ, [], IfOk};
ghost use Rattle.tpl_admit.specs.declared.certificate.Cert.{Cert as ACert};
ghost use Rattle.replay_check.specs.declared.verdict.Verdict.TheVariants.{Yes, No};
ghost use Rattle.elf_image.specs.Parts.{IsFirstWrong};
ghost use Rattle.trace_text.specs.Verdicts.{verdict_text};
ghost use Rattle.tool_texts.specs.declared.answer.Status.TheVariants.{Done, Invalid};
ghost use Rattle.tool_texts.specs.Answers.{number_of};
ghost use Rattle.tool_texts.specs.Files.{IsFileOf, IsMalformed};

use crate::OutOfMemory;
use crate::answer::{Answer, Status};
use replay_check::Verdict;
use std::alloc::Global;
use trace_text::{malformed, verdict};

/// The status of a verdict.
pub(crate) fn status_of(answer: &Verdict) -> Status
    ensures yes { answer.now ≡ Yes → result ≡ Done }
    ensures no { (kind hart step : ℕ) → answer.now ≡ No kind hart step → result ≡ Invalid }
{
    match *answer {
        Verdict::Yes => Status::Done,
        Verdict::No { .. } => Status::Invalid,
    }
}

/// The line of a verdict.
pub(crate) fn verdict_line(alloc: Global, answer: &Verdict) -> Result<Vec<u8>, OutOfMemory>
    ensures { IfOk result (λ v. v.items ≡ verdict_text answer.now) }
{
    match verdict(alloc, answer) {
        Ok(line) => Ok(line.into_bytes()),
        Err(_) => Err(OutOfMemory),
    }
}

/// That bytes are no file, with the line that tells their first wrong part.
pub(crate) fn no_file(alloc: Global, part: u8) -> Result<Answer, OutOfMemory>
    ensures { (bytes : List ℕ) → IsFirstWrong bytes part → ((c : ACert) → IsFileOf bytes c → ⊥)
        → IfOk result (λ a. (number_of a.status ≡ 9) × (a.out.items ≡ []) × IsMalformed bytes a.report.items) }
{
    match malformed(alloc, part) {
        Ok(line) => Ok(Answer::to_report(alloc, Status::Malformed, line.into_bytes())),
        Err(_) => Err(OutOfMemory),
    }
}
