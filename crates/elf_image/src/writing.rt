// The one file of a certificate.
ghost use Rattle.std.specs.Prelude.{◌≡◌, ◌++◌, OnOk, IfOk};
ghost use Rattle.tpl_admit.specs.WellFormed.{IsWellFormed};
ghost use Rattle.elf_image.specs.File.{entry_of, load_spelling, file_bytes};

pub mod notes;

use crate::error::OutOfMemory;
use byte_format::put_word;
use elf_headers::{list_runs, put_headers};
use notes::notes_of;
use std::alloc::{AllocError, Global};
use tpl_admit::{Cert, HartState};

/// The words that the loads hold.
#[tactic(auto, unfolding(crate::specs::File::load_spelling))]
fn put_load(out: &mut Vec<u8>, words: &[(u32, u32)]) -> Result<(), AllocError>
    ensures { OnOk result (out.new.items ≡ out.old.items ++ load_spelling words.now) }
{
    for word in words {
        put_word(out, word.1)?;
    }
    Ok(())
}

/// Where hart 0 starts.
pub fn entry_of(start: &[HartState]) -> u32
    ensures { result ≡ entry_of start.now }
{
    match start {
        [] => 0,
        [first, ..] => first.pc,
    }
}

/// The file of a certificate: the ELF header, the program headers, the notes and the words of memory
/// that are given a value. It fails only for want of memory.
#[tactic(auto, using(crate::proofs::Lengths::notes_fit), unfolding(crate::specs::File::file_bytes))]
pub fn write(alloc: Global, cert: &Cert) -> Result<Vec<u8>, OutOfMemory>
    requires { IsWellFormed cert.now }
    ensures { IfOk result (λ v. v.items ≡ file_bytes cert.now) }
{
    let notes = notes_of(alloc, cert)?;
    let runs = list_runs(alloc, cert.words.as_slice())?;
    let mut out = Vec::new(alloc);
    put_headers(
        &mut out,
        entry_of(cert.start.as_slice()),
        &runs,
        notes.len(),
    )?;
    out.extend_from_slice(&notes)?;
    put_load(&mut out, cert.words.as_slice())?;
    Ok(out)
}
