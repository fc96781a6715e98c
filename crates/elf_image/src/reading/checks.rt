// Tests of values that were read.
ghost use Rattle.std.specs.Prelude.{◌≡◌, ◌<◌, ◌≤◌, ◌^◌, ◌&&◌, ◌==◌, IsTrue, length, nat_le, slice_get};
ghost use Rattle.tpl_ast.specs.States.{is_in_ram};
ghost use Rattle.tpl_admit.specs.WellFormed.{drop_place};
ghost use Rattle.tpl_lang.specs.Parsing.{said_by};
ghost use Rattle.elf_headers.specs.Runs.{total_words};
ghost use Rattle.elf_headers.specs.Internal.Checks.{are_runs, is_table};
ghost use Rattle.elf_image.specs.Internal.Checks.{are_harts, are_values, is_drop, are_dropped, is_rest, are_traces, are_in, is_named, are_named, is_fit};
ghost use Rattle.elf_image.specs.Internal.Views.{notes_view};
ghost use Rattle.tpl_ast.specs.Limits.{file_limits};

use crate::reading::notes::NoteDescs;
use elf_headers::{Run, Table};
use rv_hart::Record;
use std::cmp::min;
use tpl_admit::{Dropped, HartState};
use tpl_ast::{
    Items, MAX_ATOMS, MAX_CHOICES, MAX_DROPPED, MAX_HARTS, MAX_RECORDS, MAX_STEPS, NameDecl,
    Region, Template,
};

/// Whether all harts together have no more records than a file.
#[tactic(auto, unfolding(crate::specs::Internal::Checks::are_traces))]
pub fn are_traces(traces: &[Items<Record>]) -> bool
    ensures { result ≡ are_traces traces.now }
{
    let mut total = 0;
    for trace in traces {
        total = min(total + min(trace.len(), MAX_RECORDS + 1), MAX_RECORDS + 1);
    }
    total <= MAX_RECORDS
}

/// Whether the address lies in one of the regions.
fn is_in_ram(ram: &[Region], addr: u32) -> bool
    ensures { result ≡ is_in_ram ram.now addr }
{
    ram.iter()
        .any(|region| region.low <= addr && addr < region.high)
}

/// Whether all words lie in memory.
#[tactic(auto, unfolding(crate::specs::Internal::Checks::are_in))]
pub fn are_in(words: &[(u32, u32)], ram: &[Region]) -> bool
    ensures { result ≡ are_in ram.now words.now }
{
    words.iter().all(|word| is_in_ram(ram, word.0))
}

/// Whether there are one to four harts.
pub fn are_harts(states: &[HartState]) -> bool
    ensures value { result ≡ are_harts states.now }
    ensures few { IsTrue result → length states.now ≤ file_limits.harts }
{
    1 <= states.len() && states.len() <= MAX_HARTS
}

/// Whether the index of each name is above those before it.
fn are_values(names: &[(u32, u32)]) -> bool
    ensures { result ≡ are_values 0 names.now }
{
    let mut low = 0;
    for name in names {
        if u64::from(name.0) < low {
            return false;
        }
        low = u64::from(name.0) + 1;
    }
    true
}

/// Whether the bias is one of so many harts.
#[tactic(auto, unfolding(crate::specs::Internal::Checks::is_drop))]
fn is_drop(d: Dropped, harts: u32) -> bool
    ensures { result ≡ is_drop harts d }
{
    d.hart < harts && d.step < MAX_STEPS && d.atom < MAX_ATOMS as u32
}

/// Where the bias stands among all that could be dropped.
fn drop_place(d: Dropped) -> u64
    ensures value { result ≡ drop_place d }
    ensures small { result < 2 ^ 60 }
{
    let step = u64::from(d.hart) * u64::from(MAX_STEPS) + u64::from(d.step);
    step * MAX_ATOMS as u64 + u64::from(d.atom)
}

/// Whether the biases are those of so many harts, each once and by ascending hart, step and atom.
fn are_dropped(dropped: &[Dropped], harts: u32) -> bool
    ensures { result ≡ are_dropped harts 0 dropped.now }
{
    let mut low = 0;
    for one in dropped {
        let place = drop_place(*one);
        if place < low || !is_drop(*one, harts) {
            return false;
        }
        low = place + 1;
    }
    true
}

#[tactic(auto, unfolding(crate::specs::Internal::Checks::is_rest))]
pub fn is_rest(harts: u32, choices: &[u32], names: &[(u32, u32)], dropped: &[Dropped]) -> bool
    ensures { result ≡ is_rest harts (choices.now, (names.now, dropped.now)) }
{
    choices.len() <= MAX_CHOICES
        && are_values(names)
        && dropped.len() <= MAX_DROPPED
        && are_dropped(dropped, harts)
}

/// Whether the name is there, with the value in its set.
fn is_named(names: &[NameDecl], value: (u32, u32)) -> bool
    ensures { result ≡ is_named (slice_get names.now value.0) value.1 }
{
    match names.get(value.0 as usize) {
        None => false,
        Some(name) => name.set.has(value.1),
    }
}

fn are_named(names: &[NameDecl], values: &[(u32, u32)]) -> bool
    ensures { result ≡ are_named names.now values.now }
{
    values.iter().all(|value| is_named(names, *value))
}

/// Whether the template has as many harts as the notes, and the names of their values.
#[tactic(auto, unfolding(crate::specs::Internal::Checks::is_fit))]
pub fn is_fit(notes: &NoteDescs<'_>, template: &Template) -> bool
    ensures { result ≡ is_fit (notes_view notes.now) (said_by template.now) }
{
    template.harts.len() == notes.start.len()
        && are_named(template.names.as_slice(), notes.names.as_slice())
}
