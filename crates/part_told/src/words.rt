// The words of a start, and their last values.
ghost use Rattle.std.specs.Prelude.{◌≡◌, ◌*◌, ◌/◌, ◌<◌, ◌^◌, ◌++◌, ◌∷◌, [], ℕ, List, All, IfOk, OnOk, Some, map};
ghost use Rattle.std.specs.BTreeMap.{get, IsOrdered};
ghost use Rattle.std.specs.Ordering.{nat_cmp};
ghost use Rattle.rv_mem.specs.Part.{part_at};
ghost use Rattle.rv_mem.specs.Seen.{known_word};
ghost use Rattle.part_machine.specs.Whole.{given};
ghost use Rattle.std.specs.List.{AllByRecursion};
ghost use Rattle.tpl_ast.specs.States.{IsWord};
ghost use Rattle.part_told.specs.Words.{at_address, IsWithinRam, IsWordAt, ListsWords};

use crate::OutOfMemory;
use rv_mem::{PartMem, Seen, Words};
use std::alloc::Global;
use std::collections::BTreeMap;
use tpl_ast::Items;

/// The words by ascending number; of several values for a number, the last.
fn by_number(alloc: Global, words: &[(u32, u32)]) -> Result<BTreeMap<u32, u32>, OutOfMemory>
    ensures values { IfOk result (λ m. (n : ℕ) → get nat_cmp m n ≡ given words.now n) }
    ensures ordered { IfOk result (λ m. IsOrdered nat_cmp m) }
{
    let mut values = BTreeMap::new(alloc);
    for word in words {
        values.insert(word.0, word.1)?;
    }
    Ok(values)
}

/// Appends a word with its address.
fn push_word(pairs: &mut Items<(u32, u32)>, n: u32, value: u32) -> Result<(), OutOfMemory>
    requires { n < 2 ^ 30 }
    ensures pushed { OnOk result (pairs.new ≡ pairs.old ++ at_address (n, value) ∷ []) }
    ensures word { value < 2 ^ 32 }
{
    pairs.push((n * 4, value))?;
    Ok(())
}

/// Words that are pairs of number and value, as pairs of address and value by ascending address.
pub fn words_of(alloc: Global, words: &[(u32, u32)]) -> Result<Items<(u32, u32)>, OutOfMemory>
    requires { (n v : ℕ) → given words.now n ≡ Some v → n < 2 ^ 30 }
    ensures { IfOk result (λ pairs. (ram : List (ℕ × ℕ)) → IsWithinRam ram words.now → ListsWords ram words.now pairs) }
{
    let values = by_number(alloc, words)?;
    let mut pairs = Items::new(alloc);
    for (n, value) in &values {
        push_word(&mut pairs, *n, *value)?;
    }
    Ok(pairs)
}

/// The value of the word at an address, which is known.
fn value_at(memory: &PartMem, addr: u32) -> u32
    requires { IsWordAt (part_at memory.now) addr }
    ensures value { known_word (part_at memory.now (addr / 4)) ≡ Some result }
    ensures word { IsWord result }
{
    match memory.word(addr) {
        Seen::Known(value) => value,
        _ => unreachable!(),
    }
}

/// The values of words, which are known.
pub fn last_of(
    alloc: Global,
    memory: &PartMem,
    words: &[(u32, u32)],
) -> Result<Items<u32>, OutOfMemory>
    requires { All (λ w. IsWordAt (part_at memory.now) w.0) words.now }
    ensures values { IfOk result (λ last. map (λ v. Some v) last ≡ map (λ w. known_word (part_at memory.now (w.0 / 4))) words.now) }
    ensures words { IfOk result (AllByRecursion IsWord) }
{
    let mut last = Items::new(alloc);
    for word in words {
        last.push(value_at(memory, word.0))?;
    }
    Ok(last)
}
