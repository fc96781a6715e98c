// The events of a run.
ghost use Rattle.std.specs.Prelude.{◌≡◌, ◌<◌, ◌+◌, ◌++◌, ◌^◌, ℕ, [], OnOk, IfOk, length, slice_index, slice_set, string_bytes};
ghost use Rattle.trace_text.specs.Events.{event_lines, events_text, steps_of, stop_end, stop_head, stop_line, stop_text};
ghost use Rattle.trace_text.specs.Steps.{step_line};

use crate::OutOfMemory;
use crate::steps::push_step;
use rv_hart::Record;
use std::alloc::{AllocError, Global};
use std::fmt::Write;

/// How many steps each hart has made.
#[derive(Drop)]
struct Counts {
    steps: [usize; 256],
}

/// No steps.
fn no_counts() -> Counts
    ensures { (k : ℕ) → slice_index result.steps k ≡ 0 }
{
    Counts { steps: [0; 256] }
}

/// Writes the line of a hart's next step.
fn push_event(
    text: &mut String,
    counts: &mut Counts,
    hart: u8,
    did: &Record,
) -> Result<(), AllocError>
    requires { slice_index counts.old.steps hart + 1 < 2 ^ 64 }
    ensures hart { hart < 256 }
    ensures size { length counts.old.steps ≡ 256 }
    ensures text { OnOk result (string_bytes text.new ≡ string_bytes text.old ++ step_line hart (slice_index counts.old.steps hart) did.now) }
    ensures counts { OnOk result (counts.new.steps ≡ slice_set counts.old.steps hart (slice_index counts.old.steps hart + 1)) }
{
    let step = counts.steps[usize::from(hart)];
    push_step(text, usize::from(hart), step, did)?;
    counts.steps[usize::from(hart)] = step + 1;
    Ok(())
}

/// Writes the lines of events, and counts the steps of each hart.
fn push_events(
    text: &mut String,
    counts: &mut Counts,
    events: &[(u8, Record)],
) -> Result<(), AllocError>
    requires { (k : ℕ) → slice_index counts.old.steps k ≡ 0 }
    ensures text { OnOk result (string_bytes text.new ≡ string_bytes text.old ++ event_lines [] events.now) }
    ensures counts { OnOk result ((k : ℕ) → k < 256 → slice_index counts.new.steps k ≡ steps_of k events.now) }
{
    for event in events {
        push_event(text, counts, event.0, &event.1)?;
    }
    Ok(())
}

#[tactic(auto, unfolding(crate::specs::Events::stop_head))]
fn push_stop_head(text: &mut String, hart: u8) -> Result<(), AllocError>
    ensures { OnOk result (string_bytes text.new ≡ string_bytes text.old ++ stop_head hart) }
{
    write!(text, "outside hart {hart}")
}

#[tactic(auto, unfolding(crate::specs::Events::stop_end))]
fn push_stop_end(text: &mut String, step: usize) -> Result<(), AllocError>
    ensures { OnOk result (string_bytes text.new ≡ string_bytes text.old ++ stop_end step) }
{
    writeln!(text, " step {step}")
}

fn push_stop(text: &mut String, hart: u8, counts: &Counts) -> Result<(), AllocError>
    ensures hart { hart < 256 }
    ensures text { OnOk result (string_bytes text.new ≡ string_bytes text.old ++ stop_line hart (slice_index counts.now.steps hart)) }
{
    push_stop_head(text, hart)?;
    push_stop_end(text, counts.steps[usize::from(hart)])
}

/// Writes the events of a run, and where it stopped.
fn push_all(
    text: &mut String,
    events: &[(u8, Record)],
    stopped: Option<u8>,
) -> Result<(), AllocError>
    ensures { OnOk result (string_bytes text.new ≡ string_bytes text.old ++ events_text events.now stopped) }
{
    let mut counts = no_counts();
    push_events(text, &mut counts, events)?;
    match stopped {
        None => Ok(()),
        Some(hart) => push_stop(text, hart, &counts),
    }
}

/// The events of a run in their order, each with its hart's own step number; and where the run stopped at a hart, a last
/// line with that hart and the number of its steps.
pub fn events(
    alloc: Global,
    steps: &[(u8, Record)],
    stopped: Option<u8>,
) -> Result<String, OutOfMemory>
    ensures { IfOk result (λ s. string_bytes s ≡ events_text steps.now stopped) }
{
    let mut text = String::new(alloc);
    push_all(&mut text, steps, stopped)?;
    Ok(text)
}
