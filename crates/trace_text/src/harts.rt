// The lines of harts: where each starts, what it does and where it ends.
ghost use Rattle.std.specs.Prelude.{◌≡◌, ◌++◌, length, OnOk, string_bytes};
ghost use Rattle.trace_text.specs.Report.{state_head, state_csrs, state_line, place_line, places_text, hart_text, harts_text};

use crate::names::{letter_of, push_place};
use crate::steps::push_steps;
use rv_hart::Record;
use std::alloc::AllocError;
use std::fmt::Write;
use tpl_admit::{Cert, HartState};

#[tactic(auto, unfolding(crate::specs::Report::state_head))]
fn push_state_head(
    text: &mut String,
    word: &str,
    hart: usize,
    state: &HartState,
) -> Result<(), AllocError>
    ensures { OnOk result (string_bytes text.new ≡ string_bytes text.old ++ state_head word.now hart state.now) }
{
    let name = letter_of(state.privilege);
    let pc = state.pc;
    write!(text, "{word} {hart} pc {pc:08x} priv {name}")
}

#[tactic(auto, unfolding(crate::specs::Report::state_csrs))]
fn push_state_csrs(text: &mut String, state: &HartState) -> Result<(), AllocError>
    ensures { OnOk result (string_bytes text.new ≡ string_bytes text.old ++ state_csrs state.now) }
{
    let (mstatus, medeleg, satp) = (state.mstatus, state.medeleg, state.satp);
    writeln!(
        text,
        " mstatus {mstatus:08x} medeleg {medeleg:08x} satp {satp:08x}"
    )
}

#[tactic(auto, unfolding(crate::specs::Report::state_line))]
fn push_state(
    text: &mut String,
    word: &str,
    hart: usize,
    state: &HartState,
) -> Result<(), AllocError>
    ensures { OnOk result (string_bytes text.new ≡ string_bytes text.old ++ state_line word.now hart state.now) }
{
    push_state_head(text, word, hart, state)?;
    push_state_csrs(text, state)
}

#[tactic(auto, unfolding(crate::specs::Report::place_line))]
fn push_place_line(
    text: &mut String,
    word: &str,
    hart: usize,
    place: (u32, u32),
) -> Result<(), AllocError>
    ensures { OnOk result (string_bytes text.new ≡ string_bytes text.old ++ place_line word.now hart place) }
{
    let (key, value) = place;
    write!(text, "{word} {hart} ")?;
    push_place(text, key)?;
    writeln!(text, " {value:08x}")
}

#[tactic(auto, unfolding(crate::specs::Report::places_text))]
fn push_places(
    text: &mut String,
    word: &str,
    hart: usize,
    places: &[(u32, u32)],
) -> Result<(), AllocError>
    ensures { OnOk result (string_bytes text.new ≡ string_bytes text.old ++ places_text word.now hart places.now) }
{
    for place in places {
        push_place_line(text, word, hart, *place)?;
    }
    Ok(())
}

#[tactic(auto, unfolding(crate::specs::Report::hart_text))]
fn push_hart(
    text: &mut String,
    hart: usize,
    start: &HartState,
    records: &[Record],
    end: &HartState,
) -> Result<(), AllocError>
    ensures { OnOk result (string_bytes text.new ≡ string_bytes text.old ++ hart_text hart start.now records.now end.now) }
{
    push_state(text, "hart", hart, start)?;
    push_places(text, "start", hart, start.places.as_slice())?;
    push_steps(text, hart, records)?;
    push_state(text, "end", hart, end)?;
    push_places(text, "final", hart, end.places.as_slice())
}

/// Writes the lines of each hart.
#[tactic(auto, unfolding(crate::specs::Report::harts_text))]
pub(crate) fn push_harts(text: &mut String, cert: &Cert) -> Result<(), AllocError>
    requires traces { length cert.now.traces ≡ length cert.now.start }
    requires finals { length cert.now.finals ≡ length cert.now.start }
    ensures { OnOk result (string_bytes text.new ≡ string_bytes text.old ++ harts_text cert.now) }
{
    let start = cert.start.as_slice();
    let traces = cert.traces.as_slice();
    let finals = cert.finals.as_slice();
    for hart in 0..start.len() {
        push_hart(
            text,
            hart,
            &start[hart],
            traces[hart].as_slice(),
            &finals[hart],
        )?;
    }
    Ok(())
}
