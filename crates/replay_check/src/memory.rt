// The memory in which a hart runs alone.
ghost use Rattle.std.specs.Prelude.{◌≡◌, ◌↔◌, ℕ, ◌*◌, ◌/◌, ◌%◌, ◌<◌, IsTrue, IfOk, if◌then◌else◌, length, slice_index, slice_index_or};
ghost use Rattle.rv_mem.specs.declared.words.Seen.TheVariants.{Known, Untouched, Vacant};
ghost use Rattle.rv_mem.specs.Part.{part_at};
ghost use Rattle.tpl_admit.specs.Starts.{zero_elsewhere};
ghost use Rattle.tpl_ast.specs.States.{is_in_ram};
ghost use Rattle.given_start.specs.Internal.Regions.{AreAligned};
ghost use Rattle.replay_check.specs.Internal.Memory.{given_word, Shows, IsStart};

use crate::OutOfMemory;
use given_start::ram_of;
use rv_mem::{PartMem, Seen, Words};
use std::alloc::Global;
use tpl_ast::Region;

/// A memory with this RAM of which no word is known.
fn bare_memory(alloc: Global, ram: &[Region]) -> Result<PartMem, OutOfMemory>
    requires { AreAligned ram.now }
    ensures { IfOk result (λ m. (n : ℕ) → part_at m n ≡ (if is_in_ram ram.now (n * 4) then Untouched else Vacant)) }
{
    let ram = ram_of(alloc, ram)?;
    Ok(PartMem::new(alloc, &ram)?)
}

/// A memory with this RAM of which just the words of a start, as pairs of address and value, are known.
pub fn memory_of(
    alloc: Global,
    ram: &[Region],
    words: &[(u32, u32)],
) -> Result<PartMem, OutOfMemory>
    requires { IsStart ram.now words.now }
    ensures { IfOk result (λ m. Shows ram.now (given_word words.now) (zero_elsewhere (given_word words.now)) (part_at m)) }
{
    let mut memory = bare_memory(alloc, ram)?;
    for word in words {
        memory.put(word.0, word.1)?;
    }
    Ok(memory)
}

/// What is seen of the word that holds an address.
fn seen_at(memory: &PartMem, addr: u32) -> Seen
    ensures { result ≡ part_at memory.now (addr / 4) }
{
    memory.word(addr - addr % 4)
}

/// Whether the words at the addresses of pairs are known and have these values.
pub fn are_last(memory: &PartMem, words: &[(u32, u32)], last: &[u32]) -> bool
    requires { length last.now ≡ length words.now }
    ensures { IsTrue result ↔ ((k : ℕ) → k < length words.now → part_at memory.now ((slice_index_or words.now k (0, 0)).0 / 4) ≡ Known (slice_index last.now k)) }
{
    for (word, value) in words.iter().zip(last) {
        if seen_at(memory, word.0) != Seen::Known(*value) {
            return false;
        }
    }
    true
}
