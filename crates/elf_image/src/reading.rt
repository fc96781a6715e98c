// The certificate of a file, read part by part.
ghost use Rattle.std.specs.Prelude.{◌≡◌, ℕ, None, Err, IfOk, IsTrue, MatchResult};
ghost use Rattle.tpl_admit.specs.declared.certificate.Cert.{Cert as ACert};
ghost use Rattle.tpl_admit.specs.WellFormed.{IsWellFormed};
ghost use Rattle.byte_format.specs.Internal.Readers.{Gives};
ghost use Rattle.tpl_lang.specs.Parsing.{parses, said_by};
ghost use Rattle.elf_image.specs.File.{file_bytes};
ghost use Rattle.elf_image.specs.Parts.{IsFirstWrong, LacksHead};
ghost use Rattle.elf_headers.specs.Internal.Checks.{are_runs};
ghost use Rattle.elf_headers.specs.Internal.Readers.{sized_header_at};
ghost use Rattle.elf_image.specs.Internal.PartReaders.{said_in, template_at};
ghost use Rattle.elf_image.specs.Internal.Views.{front_view, notes_view};
ghost use Rattle.elf_image.specs.Internal.Whole.{GivesPart, IsRead, at_part, no_template, front_at};
ghost use Rattle.elf_image.specs.Told.{told};

mod checks;
mod loads;
mod notes;

use crate::error::ReadError;
use byte_format::PieceError;
use checks::is_fit;
use elf_headers::{Run, sized_header_of, table_of};
use loads::loaded_of;
use notes::{NoteDescs, segment_notes_of, traces_of};
use rv_hart::Record;
use std::alloc::Global;
use tpl_admit::Cert;
use tpl_ast::{Items, Template};
use tpl_lang::template_law;
use tpl_parse::{ParseError, parse};

/// What the first four parts say, and the bytes behind the notes.
#[derive(Drop)]
struct Front<'a> {
    entry: u32,
    runs: Items<Run>,
    notes: NoteDescs<'a>,
    traces: Items<Items<Record>>,
    rest: &'a [u8],
}

/// The error of a part whose piece isn't there.
fn at(part: u8, error: PieceError) -> ReadError
    ensures { result ≡ at_part part error }
{
    match error {
        PieceError::Malformed => ReadError::Malformed { part },
        PieceError::OutOfMemory => ReadError::OutOfMemory,
    }
}

/// The first four parts: the headers, the notes and the records.
#[tactic(auto, unfolding(crate::specs::Internal::Whole::front_at))]
fn front_of(alloc: Global, bytes: &[u8]) -> Result<Front<'_>, ReadError>
    ensures gives { GivesPart front_view result (front_at bytes.now) }
    ensures header { sized_header_at bytes.now ≡ None → result ≡ Err (ReadError.Malformed 1) }
    ensures runs { IfOk result (λ front. IsTrue (are_runs 0 front.runs)) }
{
    let (head, rest) = match sized_header_of(bytes) {
        Ok(x) => x,
        Err(e) => return Err(at(1, e)),
    };
    let (table, rest) = match table_of(alloc, rest, head.phnum) {
        Ok(x) => x,
        Err(e) => return Err(at(2, e)),
    };
    let (notes, rest) = match segment_notes_of(alloc, rest, &table) {
        Ok(x) => x,
        Err(e) => return Err(at(3, e)),
    };
    let traces = match traces_of(alloc, notes.traces, notes.start.len() as u32) {
        Ok(x) => x,
        Err(e) => return Err(at(4, e)),
    };
    Ok(Front {
        entry: head.entry,
        runs: table.runs,
        notes,
        traces,
        rest,
    })
}

/// The error of a text that isn't a template.
fn untold(error: ParseError) -> PieceError
    ensures { result ≡ no_template error }
{
    match error {
        ParseError::Fault(_) => PieceError::Malformed,
        ParseError::OutOfMemory => PieceError::OutOfMemory,
    }
}

/// The template of a text.
fn told_of(alloc: Global, text: &[u8]) -> Result<Template, PieceError>
    ensures gives { Gives said_by result (said_in (parses text.now)) }
    ensures text { IfOk result (λ t. t.text ≡ text.now) }
{
    match parse(alloc, text) {
        Ok(template) => Ok(template),
        Err(e) => Err(untold(e)),
    }
}

/// The template of the notes, which has as many harts as they, and the names of their values.
#[tactic(auto, unfolding(crate::specs::Internal::PartReaders::template_at))]
fn template_of(alloc: Global, notes: &NoteDescs<'_>) -> Result<Template, PieceError>
    ensures gives { Gives said_by result (template_at (notes_view notes.now)) }
    ensures text { IfOk result (λ t. t.text ≡ notes.now.text.now) }
{
    let template = told_of(alloc, notes.text)?;
    if !is_fit(notes, &template) {
        return Err(PieceError::Malformed);
    }
    Ok(template)
}

/// All six parts.
fn read_parts(alloc: Global, bytes: &[u8]) -> Result<Cert, ReadError>
    ensures is { IsRead bytes.now result }
    ensures header { sized_header_at bytes.now ≡ None → result ≡ Err (ReadError.Malformed 1) }
{
    let front = match front_of(alloc, bytes) {
        Ok(front) => front,
        Err(e) => return Err(e),
    };
    let Front {
        entry,
        runs,
        notes,
        traces,
        rest,
    } = front;
    let template = match template_of(alloc, &notes) {
        Ok(template) => template,
        Err(e) => return Err(at(5, e)),
    };
    let start = notes.start.as_slice();
    let ram = template.ram.as_slice();
    let words = match loaded_of(alloc, entry, runs.as_slice(), start, ram, rest) {
        Ok(words) => words,
        Err(e) => return Err(at(6, e)),
    };
    Ok(Cert {
        start: notes.start,
        words,
        traces,
        finals: notes.finals,
        last: notes.last,
        template,
        choices: notes.choices,
        names: notes.names,
        dropped: notes.dropped,
    })
}

/// The certificate of a file. Bytes that are no file of a well-formed certificate are malformed, with
/// the first part that is wrong.
pub fn read(alloc: Global, bytes: &[u8]) -> Result<Cert, ReadError>
    // What is read is well-formed, and the bytes are its file.
    ensures found { IfOk result (λ c. IsWellFormed c × (bytes.now ≡ file_bytes c)) }

    // The file of a well-formed certificate is read, and tells the same, unless memory runs out.
    ensures only { (c : ACert) → IsWellFormed c → bytes.now ≡ file_bytes c → MatchResult result (λ d. told d ≡ told c) (λ e. e ≡ ReadError.OutOfMemory) }

    // Which part is wrong.
    ensures wrong { (k : ℕ) → result ≡ Err (ReadError.Malformed k) → IsFirstWrong bytes.now k }

    // The first part is judged without memory.
    ensures header { LacksHead bytes.now → result ≡ Err (ReadError.Malformed 1) }
{
    // The law on templates, for `only`.
    template_law();
    read_parts(alloc, bytes)
}
