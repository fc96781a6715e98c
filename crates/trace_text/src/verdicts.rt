// What is said of a file, and of a search that gave up.
ghost use Rattle.std.specs.Prelude.{◌≡◌, ◌++◌, OnOk, IfOk, string_bytes};
ghost use Rattle.trace_text.specs.Verdicts.{no_text, verdict_text, malformed_text, gave_up_text};

use crate::OutOfMemory;
use replay_check::Verdict;
use std::alloc::{AllocError, Global};
use std::fmt::Write;

#[tactic(auto, unfolding(crate::specs::Verdicts::no_text))]
fn push_no(text: &mut String, kind: u8, hart: u8, step: u32) -> Result<(), AllocError>
    ensures { OnOk result (string_bytes text.new ≡ string_bytes text.old ++ no_text kind hart step) }
{
    writeln!(text, "no {kind} hart {hart} step {step}")
}

fn push_verdict(text: &mut String, verdict: &Verdict) -> Result<(), AllocError>
    ensures { OnOk result (string_bytes text.new ≡ string_bytes text.old ++ verdict_text verdict.now) }
{
    match *verdict {
        Verdict::Yes => text.push_str("yes\n"),
        Verdict::No { kind, hart, step } => push_no(text, kind, hart, step),
    }
}

/// The verdict of a check as one line: `yes`, or the first failure.
pub fn verdict(alloc: Global, verdict: &Verdict) -> Result<String, OutOfMemory>
    ensures { IfOk result (λ s. string_bytes s ≡ verdict_text verdict.now) }
{
    let mut text = String::new(alloc);
    push_verdict(&mut text, verdict)?;
    Ok(text)
}

#[tactic(auto, unfolding(crate::specs::Verdicts::malformed_text))]
fn push_malformed(text: &mut String, part: u8) -> Result<(), AllocError>
    ensures { OnOk result (string_bytes text.new ≡ string_bytes text.old ++ malformed_text part) }
{
    writeln!(text, "malformed part {part}")
}

/// That bytes are no file, as one line with the number of their first wrong part.
pub fn malformed(alloc: Global, part: u8) -> Result<String, OutOfMemory>
    ensures { IfOk result (λ s. string_bytes s ≡ malformed_text part) }
{
    let mut text = String::new(alloc);
    push_malformed(&mut text, part)?;
    Ok(text)
}

#[tactic(auto, unfolding(crate::specs::Verdicts::gave_up_text))]
fn push_gave_up(
    text: &mut String,
    none_fits: u64,
    spent: u64,
    last_line: u32,
) -> Result<(), AllocError>
    ensures { OnOk result (string_bytes text.new ≡ string_bytes text.old ++ gave_up_text none_fits spent last_line) }
{
    writeln!(
        text,
        "gave up: none fits {none_fits}, spent {spent}, last line {last_line}"
    )
}

/// That a search gave up, as one line: how many leaf turns nothing fitted, of how many a problem was too large, and the
/// line of the last dead leaf, or 0 where none was dead.
pub fn gave_up(
    alloc: Global,
    none_fits: u64,
    spent: u64,
    last_line: u32,
) -> Result<String, OutOfMemory>
    ensures { IfOk result (λ s. string_bytes s ≡ gave_up_text none_fits spent last_line) }
{
    let mut text = String::new(alloc);
    push_gave_up(&mut text, none_fits, spent, last_line)?;
    Ok(text)
}
