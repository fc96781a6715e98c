// The words of memory.
ghost use Rattle.std.specs.Prelude.{◌≡◌, ◌+◌, ◌*◌, ◌^◌, ◌≤◌, IsTrue, IfErr};
ghost use Rattle.byte_format.specs.Internal.Readers.{Gives, chain_at, whole, with_front};
ghost use Rattle.elf_headers.specs.Internal.Checks.{are_runs};
ghost use Rattle.elf_image.specs.Internal.PartReaders.{placed_at, next_address, words_at, image_at, loaded_at};

use crate::reading::checks::are_in;
use crate::writing::entry_of;
use byte_format::{PieceError, word_of};
use elf_headers::Run;
use std::alloc::Global;
use tpl_admit::HartState;
use tpl_ast::{Items, Region};

/// A word that lies at an address.
#[tactic(auto, unfolding(crate::specs::Internal::PartReaders::placed_at))]
fn placed_of(addr: u32, bytes: &[u8]) -> Result<((u32, u32), &[u8]), PieceError>
    ensures gives { Gives (λ x. (x.0, x.1.now)) result (placed_at addr bytes.now) }
    ensures malformed { IfErr result (λ e. e ≡ PieceError.Malformed) }
{
    let (value, rest) = word_of(bytes)?;
    Ok(((addr, value), rest))
}

/// So many words from an address on, behind the words so far.
fn run_words<'a>(
    words: &mut Items<(u32, u32)>,
    start: u32,
    count: u32,
    bytes: &'a [u8],
) -> Result<&'a [u8], PieceError>
    requires { start + 4 * count ≤ 2 ^ 32 }
    ensures { Gives (λ rest. (words.new, rest.now)) result (with_front words.old (chain_at next_address placed_at count start bytes.entry.now)) }
{
    let mut rest = bytes;
    for i in 0..count {
        let (word, behind) = placed_of(start + 4 * i, rest)?;
        words.push(word)?;
        rest = behind;
    }
    Ok(rest)
}

/// The words of the runs.
fn words_of<'a>(
    alloc: Global,
    runs: &[Run],
    bytes: &'a [u8],
) -> Result<(Items<(u32, u32)>, &'a [u8]), PieceError>
    requires { IsTrue (are_runs 0 runs.now) }
    ensures { Gives (λ x. (x.0, x.1.now)) result (words_at runs.now bytes.entry.now) }
{
    let mut words = Items::new(alloc);
    let mut rest = bytes;
    for run in runs {
        rest = run_words(&mut words, run.addr, run.words, rest)?;
    }
    Ok((words, rest))
}

/// The words of the runs, where they lie in memory and nothing stands behind them.
#[tactic(auto, unfolding(crate::specs::Internal::PartReaders::image_at))]
fn image_of(
    alloc: Global,
    ram: &[Region],
    runs: &[Run],
    bytes: &[u8],
) -> Result<Items<(u32, u32)>, PieceError>
    requires { IsTrue (are_runs 0 runs.now) }
    ensures { Gives (λ x. x) result (whole (image_at ram.now runs.now) bytes.now) }
{
    let (words, rest) = words_of(alloc, runs, bytes)?;
    if !are_in(words.as_slice(), ram) || !rest.is_empty() {
        return Err(PieceError::Malformed);
    }
    Ok(words)
}

/// The words of the runs, where the entry is the pc of hart 0.
#[tactic(auto, unfolding(crate::specs::Internal::PartReaders::loaded_at))]
pub fn loaded_of(
    alloc: Global,
    entry: u32,
    runs: &[Run],
    start: &[HartState],
    ram: &[Region],
    bytes: &[u8],
) -> Result<Items<(u32, u32)>, PieceError>
    requires { IsTrue (are_runs 0 runs.now) }
    ensures { Gives (λ x. x) result (loaded_at entry runs.now start.now ram.now bytes.now) }
{
    if entry != entry_of(start) {
        return Err(PieceError::Malformed);
    }
    image_of(alloc, ram, runs, bytes)
}
