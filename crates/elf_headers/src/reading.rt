// The ELF header and the program headers.
ghost use Rattle.std.specs.Prelude.{◌≡◌, ◌<◌, ◌≤◌, ◌^◌, ◌-◌, IfOk, IsTrue, IfErr};
ghost use Rattle.byte_format.specs.Internal.Readers.{Gives, skip, chain_at};
ghost use Rattle.elf_headers.specs.Headers.{e_ident};
ghost use Rattle.elf_headers.specs.Runs.{total_words};
ghost use Rattle.elf_headers.specs.Internal.Checks.{are_runs};
ghost use Rattle.elf_headers.specs.Internal.Readers.{kind_at, counts_at, places_at, header_at, sized_header_at, twice_at, segment_at, note_segment_at, load_at, next_offset, table_at};
ghost use Rattle.tpl_ast.specs.Limits.{file_limits};

use crate::checks::is_table;
use crate::elf::{
    ALIGN, E_IDENT, EHDR_SIZE, EM_RISCV, ET_EXEC, EV_CURRENT, PF_R, PF_W, PF_X, PHDR_SIZE, PT_LOAD,
    PT_NOTE,
};
use crate::runs::Run;
use byte_format::{PieceError, after, after_half, after_word, half_of, word_of};
use std::alloc::Global;
use tpl_ast::{Items, MAX_FILE};

/// The most program headers.
const MAX_HEADERS: u16 = 65_000;

/// What the ELF header says: the entry, and how many program headers there are.
#[derive(Clone, Copy, Debug, PartialEq, Eq)]
pub struct Head {
    pub entry: u32,
    pub phnum: u16,
}

/// What the program headers say: how many bytes the notes have, and the runs of words.
#[derive(Drop)]
pub struct Table {
    pub notes: u32,
    pub runs: Items<Run>,
}

#[tactic(auto, unfolding(crate::specs::Headers::e_ident))]
fn after_ident(bytes: &[u8]) -> Result<&[u8], PieceError>
    ensures gives { Gives (λ x. x.now) result (skip e_ident bytes.now) }
    ensures malformed { IfErr result (λ e. e ≡ PieceError.Malformed) }
{
    after(bytes, &E_IDENT)
}

/// The entry.
#[tactic(auto, unfolding(crate::specs::Internal::Readers::kind_at))]
fn kind_of(bytes: &[u8]) -> Result<(u32, &[u8]), PieceError>
    ensures gives { Gives (λ x. (x.0, x.1.now)) result (kind_at bytes.now) }
    ensures malformed { IfErr result (λ e. e ≡ PieceError.Malformed) }
{
    let rest = after_half(bytes, ET_EXEC)?;
    let rest = after_half(rest, EM_RISCV)?;
    let rest = after_word(rest, u32::from(EV_CURRENT))?;
    word_of(rest)
}

/// How many program headers there are.
#[tactic(auto, unfolding(crate::specs::Internal::Readers::counts_at))]
fn counts_of(bytes: &[u8]) -> Result<(u16, &[u8]), PieceError>
    ensures gives { Gives (λ x. (x.0, x.1.now)) result (counts_at bytes.now) }
    ensures malformed { IfErr result (λ e. e ≡ PieceError.Malformed) }
{
    let (phnum, rest) = half_of(bytes)?;
    let rest = after_half(rest, 0)?;
    let rest = after_half(rest, 0)?;
    let rest = after_half(rest, 0)?;
    Ok((phnum, rest))
}

#[tactic(auto, unfolding(crate::specs::Internal::Readers::places_at))]
fn places_of(bytes: &[u8]) -> Result<(u16, &[u8]), PieceError>
    ensures gives { Gives (λ x. (x.0, x.1.now)) result (places_at bytes.now) }
    ensures malformed { IfErr result (λ e. e ≡ PieceError.Malformed) }
{
    let rest = after_word(bytes, u32::from(EHDR_SIZE))?;
    let rest = after_word(rest, 0)?;
    let rest = after_word(rest, 0)?;
    let rest = after_half(rest, EHDR_SIZE)?;
    let rest = after_half(rest, PHDR_SIZE)?;
    counts_of(rest)
}

#[tactic(auto, unfolding(crate::specs::Internal::Readers::header_at))]
fn header_of(bytes: &[u8]) -> Result<(Head, &[u8]), PieceError>
    ensures gives { Gives (λ x. (x.0, x.1.now)) result (header_at bytes.now) }
    ensures some { IfOk result (λ x. 1 ≤ x.0.phnum) }
    ensures malformed { IfErr result (λ e. e ≡ PieceError.Malformed) }
{
    let rest = after_ident(bytes)?;
    let (entry, rest) = kind_of(rest)?;
    let (phnum, rest) = places_of(rest)?;
    if phnum < 1 || phnum > MAX_HEADERS {
        return Err(PieceError::Malformed);
    }
    Ok((Head { entry, phnum }, rest))
}

/// The ELF header of a file that is not too long.
#[tactic(auto, unfolding(crate::specs::Internal::Readers::sized_header_at))]
pub fn sized_header_of(bytes: &[u8]) -> Result<(Head, &[u8]), PieceError>
    ensures gives { Gives (λ x. (x.0, x.1.now)) result (sized_header_at bytes.now) }
    ensures some { IfOk result (λ x. 1 ≤ x.0.phnum) }
    ensures malformed { IfErr result (λ e. e ≡ PieceError.Malformed) }
{
    if bytes.len() > MAX_FILE {
        return Err(PieceError::Malformed);
    }
    header_of(bytes)
}

/// A number that stands twice.
#[tactic(auto, unfolding(crate::specs::Internal::Readers::twice_at))]
fn twice_of(bytes: &[u8]) -> Result<(u32, &[u8]), PieceError>
    ensures gives { Gives (λ x. (x.0, x.1.now)) result (twice_at bytes.now) }
    ensures malformed { IfErr result (λ e. e ≡ PieceError.Malformed) }
{
    let (n, rest) = word_of(bytes)?;
    let rest = after_word(rest, n)?;
    Ok((n, rest))
}

/// The address and the size of a segment.
#[tactic(auto, unfolding(crate::specs::Internal::Readers::segment_at))]
fn segment_of(
    bytes: &[u8],
    kind: u32,
    offset: u32,
    flags: u32,
) -> Result<((u32, u32), &[u8]), PieceError>
    ensures gives { Gives (λ x. (x.0, x.1.now)) result (segment_at kind offset flags bytes.now) }
    ensures malformed { IfErr result (λ e. e ≡ PieceError.Malformed) }
{
    let rest = after_word(bytes, kind)?;
    let rest = after_word(rest, offset)?;
    let (addr, rest) = twice_of(rest)?;
    let (size, rest) = twice_of(rest)?;
    let rest = after_word(rest, flags)?;
    let rest = after_word(rest, ALIGN)?;
    Ok(((addr, size), rest))
}

/// The size of the notes.
#[tactic(auto, unfolding(crate::specs::Internal::Readers::note_segment_at))]
fn note_segment_of(bytes: &[u8], offset: u32) -> Result<(u32, &[u8]), PieceError>
    ensures gives { Gives (λ x. (x.0, x.1.now)) result (note_segment_at offset bytes.now) }
    ensures malformed { IfErr result (λ e. e ≡ PieceError.Malformed) }
{
    let (segment, rest) = segment_of(bytes, PT_NOTE, offset, PF_R)?;
    if segment.0 != 0 {
        return Err(PieceError::Malformed);
    }
    Ok((segment.1, rest))
}

/// The run whose bytes begin at an offset.
#[tactic(auto, unfolding(crate::specs::Internal::Readers::load_at))]
fn load_of(bytes: &[u8], offset: u64) -> Result<(Run, &[u8]), PieceError>
    ensures gives { Gives (λ x. (x.0, x.1.now)) result (load_at offset bytes.now) }
    ensures small { IfOk result (λ x. x.0.words < 2 ^ 32) }
    ensures malformed { IfErr result (λ e. e ≡ PieceError.Malformed) }
{
    let Ok(offset) = u32::try_from(offset) else {
        return Err(PieceError::Malformed);
    };
    let (segment, rest) = segment_of(bytes, PT_LOAD, offset, PF_R | PF_W | PF_X)?;
    if segment.1 % 4 != 0 {
        return Err(PieceError::Malformed);
    }
    let run = Run {
        addr: segment.0,
        words: segment.1 / 4,
    };
    Ok((run, rest))
}

/// So many runs, whose bytes lie one behind the other from an offset on.
fn loads_of(
    alloc: Global,
    count: u16,
    start: u64,
    bytes: &[u8],
) -> Result<(Items<Run>, &[u8]), PieceError>
    requires { start < 2 ^ 40 }
    ensures { Gives (λ x. (x.0, x.1.now)) result (chain_at next_offset load_at count start bytes.now) }
{
    let mut items = Items::new(alloc);
    let mut rest = bytes;
    let mut offset = start;
    for _ in 0..count {
        let (item, behind) = load_of(rest, offset)?;
        offset += 4 * u64::from(item.words);
        items.push(item)?;
        rest = behind;
    }
    Ok((items, rest))
}

/// The program headers.
#[tactic(auto, unfolding(crate::specs::Internal::Readers::table_at))]
pub fn table_of(alloc: Global, bytes: &[u8], phnum: u16) -> Result<(Table, &[u8]), PieceError>
    requires { 1 ≤ phnum }
    ensures gives { Gives (λ x. (x.0, x.1.now)) result (table_at phnum bytes.now) }
    ensures small { IfOk result (λ x. total_words x.0.runs ≤ file_limits.words) }
    ensures runs { IfOk result (λ x. IsTrue (are_runs 0 x.0.runs)) }
{
    let offset = u32::from(EHDR_SIZE) + u32::from(PHDR_SIZE) * u32::from(phnum);
    let (notes, rest) = note_segment_of(bytes, offset)?;
    let (runs, rest) = loads_of(alloc, phnum - 1, u64::from(offset) + u64::from(notes), rest)?;
    let table = Table { notes, runs };
    if !is_table(&table) {
        return Err(PieceError::Malformed);
    }
    Ok((table, rest))
}
