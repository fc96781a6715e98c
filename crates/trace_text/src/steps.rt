// The lines of steps.
ghost use Rattle.std.specs.Prelude.{◌≡◌, ◌++◌, OnOk, string_bytes};
ghost use Rattle.trace_text.specs.Steps.{access_text, accesses_text, outcome_text, rd_text, step_head, fetched_text, step_end, step_line, steps_text};

use crate::names::{letter_of, role_of};
use rv_hart::{Access, Outcome, Priv, Record};
use std::alloc::AllocError;
use std::fmt::Write;

#[tactic(auto, unfolding(crate::specs::Steps::access_text))]
fn push_access(text: &mut String, access: &Access) -> Result<(), AllocError>
    ensures { OnOk result (string_bytes text.new ≡ string_bytes text.old ++ access_text access.now) }
{
    let role = role_of(access.role);
    let (addr, size, value) = (access.addr, access.size, access.value);
    write!(text, " {role}@{addr:08x}:{size}={value:08x}")
}

#[tactic(auto, unfolding(crate::specs::Steps::accesses_text))]
fn push_accesses(text: &mut String, accesses: &[Access]) -> Result<(), AllocError>
    ensures { OnOk result (string_bytes text.new ≡ string_bytes text.old ++ accesses_text accesses.now) }
{
    for access in accesses {
        push_access(text, access)?;
    }
    Ok(())
}

#[tactic(auto, unfolding(crate::specs::Steps::outcome_text))]
fn push_outcome(text: &mut String, outcome: Outcome) -> Result<(), AllocError>
    ensures { OnOk result (string_bytes text.new ≡ string_bytes text.old ++ outcome_text outcome) }
{
    match outcome {
        Outcome::Retired => text.push_str("retire"),
        Outcome::Trap { cause, value, to } => {
            let name = letter_of(to);
            write!(text, "trap {cause} {value:08x} to {name}")
        }
    }
}

#[tactic(auto, unfolding(crate::specs::Steps::rd_text))]
fn push_rd(text: &mut String, rd: Option<(u8, u32)>) -> Result<(), AllocError>
    ensures { OnOk result (string_bytes text.new ≡ string_bytes text.old ++ rd_text rd) }
{
    match rd {
        None => Ok(()),
        Some((n, value)) => write!(text, " x{n}={value:08x}"),
    }
}

#[tactic(auto, unfolding(crate::specs::Steps::step_head))]
fn push_step_head(text: &mut String, hart: usize, step: usize, pc: u32) -> Result<(), AllocError>
    ensures { OnOk result (string_bytes text.new ≡ string_bytes text.old ++ step_head hart step pc) }
{
    write!(text, "step {hart} {step} pc {pc:08x} ")
}

#[tactic(auto, unfolding(crate::specs::Steps::fetched_text))]
fn push_fetched(text: &mut String, privilege: Priv, word: u32) -> Result<(), AllocError>
    ensures { OnOk result (string_bytes text.new ≡ string_bytes text.old ++ fetched_text privilege word) }
{
    let name = letter_of(privilege);
    write!(text, "{name} {word:08x} ")
}

#[tactic(auto, unfolding(crate::specs::Steps::step_end))]
fn push_next(text: &mut String, next: u32) -> Result<(), AllocError>
    ensures { OnOk result (string_bytes text.new ≡ string_bytes text.old ++ step_end next) }
{
    writeln!(text, " next {next:08x}")
}

#[tactic(auto, unfolding(crate::specs::Steps::step_line))]
pub(crate) fn push_step(
    text: &mut String,
    hart: usize,
    step: usize,
    did: &Record,
) -> Result<(), AllocError>
    ensures { OnOk result (string_bytes text.new ≡ string_bytes text.old ++ step_line hart step did.now) }
{
    push_step_head(text, hart, step, did.pc)?;
    push_fetched(text, did.privilege, did.word)?;
    push_outcome(text, did.outcome)?;
    push_rd(text, did.rd)?;
    push_accesses(text, did.accesses.as_slice())?;
    push_next(text, did.next_pc)
}

/// Writes the lines of a hart's steps.
#[tactic(auto, unfolding(crate::specs::Steps::steps_text))]
pub(crate) fn push_steps(
    text: &mut String,
    hart: usize,
    records: &[Record],
) -> Result<(), AllocError>
    ensures { OnOk result (string_bytes text.new ≡ string_bytes text.old ++ steps_text hart records.now) }
{
    let mut step = 0usize;
    for record in records {
        push_step(text, hart, step, record)?;
        step += 1;
    }
    Ok(())
}
