// The segment of notes.
ghost use Rattle.std.specs.Prelude.{◌≡◌, ◌++◌, OnOk, IfOk};
ghost use Rattle.elf_image.specs.Notes.{start_desc, traces_desc, final_desc, rest_desc, note_name, note, notes_in, notes_spelling};

use byte_format::{put_padding, put_size, put_word};
use elf_headers::{NAME, NAME_SIZE, NT_FINAL, NT_REST, NT_START, NT_TEMPLATE, NT_TRACES, VERSION};
use note_items::{put_dropped, put_pairs, put_states, put_traces, put_words};
use rv_hart::Record;
use std::alloc::{AllocError, Global};
use tpl_admit::{Cert, Dropped, HartState};
use tpl_ast::Items;

/// A note: its type, and the bytes of its desc.
#[derive(Drop)]
pub struct Note {
    pub kind: u32,
    pub desc: Items<u8>,
}

/// The desc of the first note: the version, and the states of the harts at the start.
#[tactic(auto, unfolding(crate::specs::Notes::start_desc, byte_format::specs::Numbers::counted))]
fn start_desc(alloc: Global, states: &[HartState]) -> Result<Items<u8>, AllocError>
    ensures { IfOk result (λ desc. desc ≡ start_desc states.now) }
{
    let mut desc = Vec::new(alloc);
    put_word(&mut desc, VERSION)?;
    put_size(&mut desc, states.len())?;
    put_states(&mut desc, states)?;
    Ok(Items::from_vec(desc))
}

/// The desc of the second note: each hart's records.
#[tactic(auto, unfolding(crate::specs::Notes::traces_desc))]
fn traces_desc(alloc: Global, traces: &[Items<Record>]) -> Result<Items<u8>, AllocError>
    ensures { IfOk result (λ desc. desc ≡ traces_desc traces.now) }
{
    let mut desc = Vec::new(alloc);
    put_traces(&mut desc, traces)?;
    Ok(Items::from_vec(desc))
}

/// The desc of the third note: the states of the harts at the end, and the final values of the words.
#[tactic(auto, unfolding(crate::specs::Notes::final_desc))]
fn final_desc(alloc: Global, states: &[HartState], last: &[u32]) -> Result<Items<u8>, AllocError>
    ensures { IfOk result (λ desc. desc ≡ final_desc states.now last.now) }
{
    let mut desc = Vec::new(alloc);
    put_states(&mut desc, states)?;
    put_words(&mut desc, last)?;
    Ok(Items::from_vec(desc))
}

/// The desc of the fifth note: the choices, the values of names and the dropped biases.
#[tactic(auto, unfolding(crate::specs::Notes::rest_desc))]
fn rest_desc(
    alloc: Global,
    choices: &[u32],
    names: &[(u32, u32)],
    dropped: &[Dropped],
) -> Result<Items<u8>, AllocError>
    ensures { IfOk result (λ desc. desc ≡ rest_desc choices.now names.now dropped.now) }
{
    let mut desc = Vec::new(alloc);
    put_words(&mut desc, choices)?;
    put_pairs(&mut desc, names)?;
    put_dropped(&mut desc, dropped)?;
    Ok(Items::from_vec(desc))
}

/// The notes of a certificate, in the order of their types.
fn list_notes(alloc: Global, cert: &Cert) -> Result<[Note; 5], AllocError>
    ensures { IfOk result (λ notes. notes ≡ notes_in cert.now) }
{
    Ok([
        Note {
            kind: NT_START,
            desc: start_desc(alloc, cert.start.as_slice())?,
        },
        Note {
            kind: NT_TRACES,
            desc: traces_desc(alloc, cert.traces.as_slice())?,
        },
        Note {
            kind: NT_FINAL,
            desc: final_desc(alloc, cert.finals.as_slice(), cert.last.as_slice())?,
        },
        Note {
            kind: NT_TEMPLATE,
            desc: Items::from_slice(alloc, cert.template.text.as_slice())?,
        },
        Note {
            kind: NT_REST,
            desc: rest_desc(
                alloc,
                cert.choices.as_slice(),
                cert.names.as_slice(),
                cert.dropped.as_slice(),
            )?,
        },
    ])
}

#[tactic(auto, unfolding(crate::specs::Notes::note_name))]
fn put_name(out: &mut Vec<u8>) -> Result<(), AllocError>
    ensures { OnOk result (out.new.items ≡ out.old.items ++ note_name) }
{
    out.extend_from_slice(&NAME)
}

/// namesz, descsz, type, name and desc, the last two with their padding.
#[tactic(auto, unfolding(crate::specs::Notes::note))]
fn put_note(out: &mut Vec<u8>, kind: u32, desc: &[u8]) -> Result<(), AllocError>
    ensures { OnOk result (out.new.items ≡ out.old.items ++ note kind desc.now) }
{
    put_word(out, NAME_SIZE)?;
    put_size(out, desc.len())?;
    put_word(out, kind)?;
    put_name(out)?;
    out.extend_from_slice(desc)?;
    put_padding(out, desc.len())
}

/// The notes one behind the other.
#[tactic(auto, unfolding(crate::specs::Notes::notes_spelling))]
fn put_notes(out: &mut Vec<u8>, notes: &[Note]) -> Result<(), AllocError>
    ensures { OnOk result (out.new.items ≡ out.old.items ++ notes_spelling notes.now) }
{
    for note in notes {
        put_note(out, note.kind, note.desc.as_slice())?;
    }
    Ok(())
}

/// The bytes of a certificate's notes.
pub fn notes_of(alloc: Global, cert: &Cert) -> Result<Vec<u8>, AllocError>
    ensures { IfOk result (λ v. v.items ≡ notes_spelling (notes_in cert.now)) }
{
    let notes = list_notes(alloc, cert)?;
    let mut out = Vec::new(alloc);
    put_notes(&mut out, &notes)?;
    Ok(out)
}
