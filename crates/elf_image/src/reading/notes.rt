// The notes and the records.
ghost use Rattle.std.specs.Prelude.{◌≡◌, ◌≤◌, IfOk, length, IfErr};
ghost use Rattle.byte_format.specs.Internal.Readers.{Gives, skip, whole};
ghost use Rattle.elf_headers.specs.Runs.{total_words};
ghost use Rattle.elf_image.specs.Notes.{note_name};
ghost use Rattle.elf_image.specs.Internal.PartReaders.{note_at, start_at, final_at, rest_at, notes_at, segment_notes_at, traces_at};
ghost use Rattle.elf_image.specs.Internal.Views.{notes_view};
ghost use Rattle.tpl_ast.specs.Limits.{file_limits};

use crate::reading::checks::{are_harts, are_traces, is_rest};
use byte_format::{PieceError, after, after_word, padded_of, word_of};
use elf_headers::{
    NAME, NAME_SIZE, NT_FINAL, NT_REST, NT_START, NT_TEMPLATE, NT_TRACES, Run, Table, VERSION,
};
use note_items::{drops_of, pairs_of, states_in, states_of, traces_in, words_of};
use rv_hart::Record;
use std::alloc::Global;
use tpl_admit::{Dropped, HartState};
use tpl_ast::Items;

/// What the notes tell, but for the records and the template, which are still bytes.
#[derive(Drop)]
pub struct NoteDescs<'a> {
    pub start: Items<HartState>,
    pub traces: &'a [u8],
    pub finals: Items<HartState>,
    pub last: Items<u32>,
    pub text: &'a [u8],
    pub choices: Items<u32>,
    pub names: Items<(u32, u32)>,
    pub dropped: Items<Dropped>,
}

#[tactic(auto, unfolding(crate::specs::Notes::note_name))]
fn after_name(bytes: &[u8]) -> Result<&[u8], PieceError>
    ensures gives { Gives (λ x. x.now) result (skip note_name bytes.now) }
    ensures malformed { IfErr result (λ e. e ≡ PieceError.Malformed) }
{
    after(bytes, &NAME)
}

/// The desc of a note of this type.
#[tactic(auto, unfolding(crate::specs::Internal::PartReaders::note_at))]
fn note_of(bytes: &[u8], kind: u32) -> Result<(&[u8], &[u8]), PieceError>
    ensures gives { Gives (λ x. (x.0.now, x.1.now)) result (note_at kind bytes.now) }
    ensures malformed { IfErr result (λ e. e ≡ PieceError.Malformed) }
{
    let rest = after_word(bytes, NAME_SIZE)?;
    let (size, rest) = word_of(rest)?;
    let rest = after_word(rest, kind)?;
    let rest = after_name(rest)?;
    padded_of(rest, size)
}

/// The states of the harts at the start.
#[tactic(auto, unfolding(crate::specs::Internal::PartReaders::start_at))]
fn start_of(alloc: Global, desc: &[u8]) -> Result<Items<HartState>, PieceError>
    ensures gives { Gives (λ x. x) result (whole start_at desc.now) }
    ensures few { IfOk result (λ x. length x ≤ file_limits.harts) }
{
    let rest = after_word(desc, VERSION)?;
    let (states, rest) = states_of(alloc, rest)?;
    if !are_harts(states.as_slice()) || !rest.is_empty() {
        return Err(PieceError::Malformed);
    }
    Ok(states)
}

/// The states of so many harts at the end, and the final values of so many words.
#[tactic(auto, unfolding(crate::specs::Internal::PartReaders::final_at))]
fn final_of(
    alloc: Global,
    desc: &[u8],
    harts: u32,
    total: u64,
) -> Result<(Items<HartState>, Items<u32>), PieceError>
    ensures { Gives (λ x. x) result (whole (final_at harts total) desc.now) }
{
    let (finals, rest) = states_in(alloc, harts, desc)?;
    let (last, rest) = words_of(alloc, rest)?;
    if last.len() as u64 != total || !rest.is_empty() {
        return Err(PieceError::Malformed);
    }
    Ok((finals, last))
}

/// The choices, the values of names and the dropped biases.
#[derive(Drop)]
struct Rest {
    choices: Items<u32>,
    names: Items<(u32, u32)>,
    dropped: Items<Dropped>,
}

#[tactic(auto, unfolding(crate::specs::Internal::PartReaders::rest_at))]
fn rest_of(alloc: Global, desc: &[u8], harts: u32) -> Result<Rest, PieceError>
    ensures { Gives (λ x. (x.choices, (x.names, x.dropped))) result (whole (rest_at harts) desc.now) }
{
    let (choices, rest) = words_of(alloc, desc)?;
    let (names, rest) = pairs_of(alloc, rest)?;
    let (dropped, rest) = drops_of(alloc, rest)?;
    if !is_rest(
        harts,
        choices.as_slice(),
        names.as_slice(),
        dropped.as_slice(),
    ) || !rest.is_empty()
    {
        return Err(PieceError::Malformed);
    }
    Ok(Rest {
        choices,
        names,
        dropped,
    })
}

#[tactic(auto, unfolding(crate::specs::Internal::PartReaders::notes_at))]
fn notes_of(alloc: Global, bytes: &[u8], total: u64) -> Result<(NoteDescs<'_>, &[u8]), PieceError>
    ensures gives { Gives (λ x. (notes_view x.0, x.1.now)) result (notes_at total bytes.now) }
    ensures few { IfOk result (λ x. length x.0.start ≤ file_limits.harts) }
{
    let (desc, rest) = note_of(bytes, NT_START)?;
    let start = start_of(alloc, desc)?;
    let harts = start.len() as u32;
    let (traces, rest) = note_of(rest, NT_TRACES)?;
    let (desc, rest) = note_of(rest, NT_FINAL)?;
    let (finals, last) = final_of(alloc, desc, harts, total)?;
    let (text, rest) = note_of(rest, NT_TEMPLATE)?;
    let (desc, rest) = note_of(rest, NT_REST)?;
    let last_note = rest_of(alloc, desc, harts)?;
    let notes = NoteDescs {
        start,
        traces,
        finals,
        last,
        text,
        choices: last_note.choices,
        names: last_note.names,
        dropped: last_note.dropped,
    };
    Ok((notes, rest))
}

/// How many words the runs have.
fn total_of(runs: &[Run]) -> u64
    requires { total_words runs.now ≤ file_limits.words }
    ensures { result ≡ total_words runs.now }
{
    runs.iter().map(|run| u64::from(run.words)).sum()
}

/// The notes, which fill their segment.
#[tactic(auto, unfolding(crate::specs::Internal::PartReaders::segment_notes_at))]
pub fn segment_notes_of<'a>(
    alloc: Global,
    bytes: &'a [u8],
    table: &Table,
) -> Result<(NoteDescs<'a>, &'a [u8]), PieceError>
    requires { total_words table.now.runs ≤ file_limits.words }
    ensures gives { Gives (λ x. (notes_view x.0, x.1.now)) result (segment_notes_at table.now.notes (total_words table.now.runs) bytes.entry.now) }
    ensures few { IfOk result (λ x. length x.0.start ≤ file_limits.harts) }
{
    if bytes.len() < table.notes as usize {
        return Err(PieceError::Malformed);
    }
    let (segment, behind) = bytes.split_at(table.notes as usize);
    let (notes, rest) = notes_of(alloc, segment, total_of(table.runs.as_slice()))?;
    if !rest.is_empty() {
        return Err(PieceError::Malformed);
    }
    Ok((notes, behind))
}

/// The records of so many harts.
#[tactic(auto, unfolding(crate::specs::Internal::PartReaders::traces_at))]
pub fn traces_of(alloc: Global, desc: &[u8], harts: u32) -> Result<Items<Items<Record>>, PieceError>
    ensures { Gives (λ x. x) result (whole (traces_at harts) desc.now) }
{
    let (traces, rest) = traces_in(alloc, harts, desc)?;
    if !are_traces(traces.as_slice()) || !rest.is_empty() {
        return Err(PieceError::Malformed);
    }
    Ok(traces)
}
