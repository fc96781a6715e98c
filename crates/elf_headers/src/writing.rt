// The ELF header and the program headers.
ghost use Rattle.std.specs.Prelude.{◌≡◌, ◌++◌, ◌^◌, ◌<◌, ◌≤◌, OnOk, length};
ghost use Rattle.elf_headers.specs.Headers.{e_ident, elf_kind, elf_places, elf_counts, elf_header, segment_place, segment_size, program_header, load_headers, all_headers};
ghost use Rattle.tpl_ast.specs.Limits.{file_limits};

use crate::elf::{
    ALIGN, E_IDENT, EHDR_SIZE, EM_RISCV, ET_EXEC, EV_CURRENT, PF_R, PF_W, PF_X, PHDR_SIZE, PT_LOAD,
    PT_NOTE,
};
use crate::runs::Run;
use byte_format::{put_half, put_short, put_size, put_word};
use std::alloc::AllocError;

/// What a program header says: p_type, p_offset, the address, the size in bytes and p_flags.
#[derive(Clone, Copy, Debug, PartialEq, Eq)]
pub struct Segment {
    pub kind: u32,
    pub offset: usize,
    pub addr: u32,
    pub size: usize,
    pub flags: u32,
}

#[tactic(auto, unfolding(crate::specs::Headers::e_ident))]
fn put_ident(out: &mut Vec<u8>) -> Result<(), AllocError>
    ensures { OnOk result (out.new.items ≡ out.old.items ++ e_ident) }
{
    out.extend_from_slice(&E_IDENT)
}

#[tactic(auto, unfolding(crate::specs::Headers::elf_kind))]
fn put_kind(out: &mut Vec<u8>, entry: u32) -> Result<(), AllocError>
    ensures { OnOk result (out.new.items ≡ out.old.items ++ elf_kind entry) }
{
    put_half(out, ET_EXEC)?;
    put_half(out, EM_RISCV)?;
    put_word(out, u32::from(EV_CURRENT))?;
    put_word(out, entry)
}

#[tactic(auto, unfolding(crate::specs::Headers::elf_places))]
fn put_places(out: &mut Vec<u8>) -> Result<(), AllocError>
    ensures { OnOk result (out.new.items ≡ out.old.items ++ elf_places) }
{
    put_word(out, u32::from(EHDR_SIZE))?;
    put_word(out, 0)?;
    put_word(out, 0)?;
    put_half(out, EHDR_SIZE)?;
    put_half(out, PHDR_SIZE)
}

#[tactic(auto, unfolding(crate::specs::Headers::elf_counts))]
fn put_counts(out: &mut Vec<u8>, phnum: usize) -> Result<(), AllocError>
    ensures { OnOk result (out.new.items ≡ out.old.items ++ elf_counts phnum) }
{
    put_short(out, phnum)?;
    put_half(out, 0)?;
    put_half(out, 0)?;
    put_half(out, 0)
}

#[tactic(auto, unfolding(crate::specs::Headers::elf_header))]
fn put_elf_header(out: &mut Vec<u8>, entry: u32, phnum: usize) -> Result<(), AllocError>
    ensures { OnOk result (out.new.items ≡ out.old.items ++ elf_header entry phnum) }
{
    put_ident(out)?;
    put_kind(out, entry)?;
    put_places(out)?;
    put_counts(out, phnum)
}

#[tactic(auto, unfolding(crate::specs::Headers::segment_place))]
fn put_segment_place(out: &mut Vec<u8>, s: &Segment) -> Result<(), AllocError>
    ensures { OnOk result (out.new.items ≡ out.old.items ++ segment_place s.now.kind s.now.offset s.now.addr) }
{
    put_word(out, s.kind)?;
    put_size(out, s.offset)?;
    put_word(out, s.addr)?;
    put_word(out, s.addr)
}

#[tactic(auto, unfolding(crate::specs::Headers::segment_size))]
fn put_segment_size(out: &mut Vec<u8>, s: &Segment) -> Result<(), AllocError>
    ensures { OnOk result (out.new.items ≡ out.old.items ++ segment_size s.now.size s.now.flags) }
{
    put_size(out, s.size)?;
    put_size(out, s.size)?;
    put_word(out, s.flags)?;
    put_word(out, ALIGN)
}

#[tactic(auto, unfolding(crate::specs::Headers::program_header))]
fn put_program_header(out: &mut Vec<u8>, s: &Segment) -> Result<(), AllocError>
    ensures { OnOk result (out.new.items ≡ out.old.items ++ program_header s.now) }
{
    put_segment_place(out, s)?;
    put_segment_size(out, s)
}

/// The program headers of the runs, whose bytes lie one behind the other from an offset on.
#[tactic(auto, unfolding(crate::specs::Headers::load_headers))]
fn put_load_headers(out: &mut Vec<u8>, start: usize, runs: &[Run]) -> Result<(), AllocError>
    requires start { start < 2 ^ 32 }
    requires runs { length runs.now ≤ file_limits.words }
    ensures { OnOk result (out.new.items ≡ out.old.items ++ load_headers start runs.now) }
{
    let mut offset = start;
    for run in runs {
        let size = 4 * run.words as usize;
        let segment = Segment {
            kind: PT_LOAD,
            offset,
            addr: run.addr,
            size,
            flags: PF_R | PF_W | PF_X,
        };
        put_program_header(out, &segment)?;
        offset += size;
    }
    Ok(())
}

/// All headers of a file with these runs, and with notes of so many bytes.
#[tactic(auto, unfolding(crate::specs::Headers::all_headers, crate::specs::Headers::program_headers))]
pub fn put_headers(
    out: &mut Vec<u8>,
    entry: u32,
    runs: &[Run],
    notes: usize,
) -> Result<(), AllocError>
    requires runs { length runs.now ≤ file_limits.words }
    requires notes { notes ≤ file_limits.size }
    ensures { OnOk result (out.new.items ≡ out.old.items ++ all_headers entry runs.now notes) }
{
    let phnum = 1 + runs.len();
    let offset = EHDR_SIZE as usize + PHDR_SIZE as usize * phnum;
    let segment = Segment {
        kind: PT_NOTE,
        offset,
        addr: 0,
        size: notes,
        flags: PF_R,
    };
    put_elf_header(out, entry, phnum)?;
    put_program_header(out, &segment)?;
    put_load_headers(out, offset + notes, runs)
}
