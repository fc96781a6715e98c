// What the program answers, or the library below it.
ghost use Rattle.std.specs.Prelude.{◌≡◌, ◌<◌, IfOk};
ghost use Rattle.streams.specs.Memory.{mem_sink_room};
ghost use Rattle.tpl_ast.specs.Limits.{text_room};
ghost use Rattle.tpl_admit.specs.WellFormed.{IsWellFormed};

use crate::runs::run_by;
use elf_image::{ReadError, read, write};
use row_language::{Answer, Pace, Program, Row, Stop, Told};
use std::alloc::Global;
use streams::{MemSink, MemSource};
use tool_top::{ArgList, run};
use tpl_admit::{Cert, admits};
use tpl_ast::TEXT_ROOM;
use trace_text::{malformed, report};

/// The status of what is no file.
const NO_FILE: u8 = 9;

fn words_of(alloc: Global, call: &[String]) -> Result<ArgList, Stop> {
    let mut words = ArgList::new(alloc);
    for word in call {
        words.push(alloc, word.as_str())?;
    }
    Ok(words)
}

fn chunk_of(pace: &Pace) -> usize
    ensures { 0 < result }
{
    pace.chunk.max(1)
}

/// A source of these bytes.
fn source_of(alloc: Global, pace: &Pace, input: &[u8]) -> Result<MemSource, Stop> {
    Ok(MemSource::new(input.to_vec(alloc)?, chunk_of(pace), pace.fails.clone()?))
}

/// An empty sink that has room for each text of the program.
fn sink_of(alloc: Global, told: &Told) -> Result<MemSink, Stop>
    ensures { IfOk result (λ s. mem_sink_room s ≡ text_room) }
{
    match MemSink::with_room(
        alloc,
        TEXT_ROOM,
        chunk_of(&told.pace),
        told.pace.fails.clone()?,
    ) {
        Ok(sink) => Ok(sink),
        Err(_) => Err(Stop::OutOfMemory),
    }
}

/// What `run` does with the row's words and this input.
fn run_of(alloc: Global, row: &Row, input: &[u8]) -> Result<Answer, Stop> {
    let words = words_of(alloc, &row.call)?;
    let mut source = source_of(alloc, &row.source, input)?;
    let mut out = sink_of(alloc, &row.out)?;
    let mut report = sink_of(alloc, &row.report)?;
    let status = run(alloc, &words, &mut source, &mut out, &mut report);
    Answer::of(alloc, status, out.bytes(), report.bytes())
}

/// The answer that these bytes are no file, or that memory ran out.
fn no_file(alloc: Global, stop: ReadError) -> Result<Answer, Stop> {
    match stop {
        ReadError::OutOfMemory => Err(Stop::OutOfMemory),
        ReadError::Malformed { part } => {
            let Ok(line) = malformed(alloc, part) else {
                return Err(Stop::OutOfMemory);
            };
            Answer::of(alloc, NO_FILE, &[], line.as_bytes())
        }
    }
}

/// The certificate's file, and its report.
fn file_of(alloc: Global, cert: &Cert) -> Result<Answer, Stop>
    requires { IsWellFormed cert.now }
{
    let Ok(file) = write(alloc, cert) else {
        return Err(Stop::OutOfMemory);
    };
    let Ok(text) = report(alloc, cert) else {
        return Err(Stop::OutOfMemory);
    };
    Answer::of(alloc, 0, &file, text.as_bytes())
}

/// Whether the certificate's template admits its trace: `admitted`, or where it doesn't.
fn admission_of(alloc: Global, cert: &Cert) -> Result<Answer, Stop>
    requires { IsWellFormed cert.now }
{
    let text = match admits(cert) {
        None => format!(in alloc; "admitted\n")?,
        Some(unmet) => format!(in alloc;
            "hart {} step {} atom {}\n",
            unmet.hart, unmet.step, unmet.atom
        )?,
    };
    Answer::of(alloc, 0, text.as_bytes(), &[])
}

/// What a file's certificate gives by one of the words `file`, `admits` and `run`.
fn told_of(alloc: Global, cert: &Cert, call: &[String], word: &str) -> Result<Answer, Stop>
    requires { IsWellFormed cert.now }
{
    match word {
        "file" => file_of(alloc, cert),
        "admits" => admission_of(alloc, cert),
        _ => run_by(alloc, cert, call.get(1..).unwrap_or(&[])),
    }
}

/// The program with the libraries below it: `file` reads a file, writes what was read, and reports it; `admits` says
/// whether its template admits its trace; `run` runs a schedule from its start; any other words are those of the program.
pub struct Tool;

impl Program for Tool {
    fn answer(&self, alloc: Global, row: &Row, input: &[u8]) -> Result<Answer, Stop> {
        let word = row.call.first().map(|word| word.as_str()).unwrap_or("");
        if word != "file" && word != "admits" && word != "run" {
            return run_of(alloc, row, input);
        }
        match read(alloc, input) {
            Ok(cert) => told_of(alloc, &cert, &row.call, word),
            Err(stop) => no_file(alloc, stop),
        }
    }
}
