// What `demo` answers.
ghost use Rattle.std.specs.Prelude.{◌≡◌, ◌≤◌, [], IfOk};
ghost use Rattle.tpl_admit.specs.Validity.{IsValid};
ghost use Rattle.tpl_admit.specs.WellFormed.{IsWellFormed};
ghost use Rattle.cover_sweep.specs.Summary.{summary_text};
ghost use Rattle.tool_texts.specs.Answers.{number_of};
ghost use Rattle.tool_texts.specs.Demo.{DemoAnswers, demo_effort};

use crate::OutOfMemory;
use crate::answer::{Answer, Status};
use crate::test::{refused, test_of};
use cover_sweep::{demo_laws, make, summary};
use replay_check::{Verdict, check, one_verdict};
use std::alloc::Global;
use tool_words::Effort;
use tpl_admit::Cert;

/// What a demo's search goes by.
fn effort_of(n: u32) -> Effort
    ensures { result ≡ demo_effort n }
{
    Effort {
        seed: u64::from(n),
        nodes: 67_108_864,
        turns: 65_536,
    }
}

/// What `demo` answers.
pub(crate) fn demo_answer(alloc: Global, n: u32) -> Result<Answer, OutOfMemory>
    requires { n ≤ 2000 }
    ensures { IfOk result (λ a. DemoAnswers n (number_of a.status) a.out.items a.report.items) }
{
    // The template is a text of the language.
    demo_laws();
    let text = make(alloc, n)?;
    match test_of(alloc, &effort_of(n), &text) {
        Ok(test) => checked(alloc, n, &test),
        Err(why) => refused(alloc, why),
    }
}

/// The summary of a demo's test, once that is checked.
fn checked(alloc: Global, n: u32, test: &Cert) -> Result<Answer, OutOfMemory>
    requires well_formed { IsWellFormed test.now }
    requires valid { IsValid test.now }
    ensures status { IfOk result (λ a. number_of a.status ≡ 0) }
    ensures out { IfOk result (λ a. a.out.items ≡ summary_text n test.now) }
    ensures report { IfOk result (λ a. a.report.items ≡ []) }
{
    // A valid certificate has no failure.
    one_verdict();
    match check(alloc, test) {
        Ok(Verdict::Yes) => summed(alloc, n, test),
        Ok(Verdict::No { .. }) => unreachable!(),
        Err(_) => Err(OutOfMemory),
    }
}

/// The summary of a demo's test.
fn summed(alloc: Global, n: u32, test: &Cert) -> Result<Answer, OutOfMemory>
    requires { IsWellFormed test.now }
    ensures status { IfOk result (λ a. number_of a.status ≡ 0) }
    ensures out { IfOk result (λ a. a.out.items ≡ summary_text n test.now) }
    ensures report { IfOk result (λ a. a.report.items ≡ []) }
{
    let text = summary(alloc, n, test)?;
    Ok(Answer::to_out(alloc, Status::Done, text))
}
