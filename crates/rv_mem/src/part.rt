// A memory of which some words are known.
ghost use Rattle.std.specs.Prelude.{◌≡◌, ◌≢◌, ◌/◌, ◌%◌, ◌<◌, ◌^◌, ◌&&◌, ◌||◌, nat_eq, ℕ, IfOk, OnOk, OnErr, IsTrue, if◌then◌else◌};
ghost use Rattle.rv_mem.specs.Part.{part_at};
ghost use Rattle.rv_mem.specs.Ram.{in_ram};
ghost use Rattle.rv_mem.specs.Runs.{in_runs};
ghost use Rattle.rv_mem.specs.Seen.{is_there, is_known};

use crate::bytes::with_byte;
use crate::{Mem, OutOfMemory, Ram, Seen, Words};
use std::alloc::Global;
use std::collections::BTreeMap;

/// RAM, and those of its words that are known.
#[derive(Drop)]
pub struct PartMem {
    ram: Ram,
    /// The known words by their numbers.
    words: BTreeMap<u32, u32>,
}

/// How many words addresses reach.
const WORDS: u32 = 0x4000_0000;

/// Appends the bytes of a word, to the last run where this ends just before it.
fn push_word(runs: &mut Vec<(u32, u32)>, addr: u32) -> Result<(), OutOfMemory>
    requires { addr % 4 ≡ 0 }
    ensures { OnOk result ((x : ℕ) → in_runs runs.new.items x ≡ (in_runs runs.old.items x || nat_eq (addr / 4) (x / 4))) }
{
    let low = match runs.pop() {
        None => addr,
        Some(last) => {
            if last.0 < addr && last.1 == addr - 1 {
                last.0
            } else {
                runs.push(last)?;
                addr
            }
        }
    };
    runs.push((low, addr + 3))?;
    Ok(())
}

/// Appends the bytes of the word with a number, if it is one of RAM.
fn push_numbered(runs: &mut Vec<(u32, u32)>, ram: &Ram, number: u32) -> Result<(), OutOfMemory>
    ensures { OnOk result ((x : ℕ) → x < 2 ^ 32 → in_runs runs.new.items x ≡ (in_runs runs.old.items x || (nat_eq number (x / 4) && in_ram ram.now (x / 4)))) }
{
    if number < WORDS && ram.has_word(number * 4) {
        push_word(runs, number * 4)?;
    }
    Ok(())
}

impl PartMem {
    /// A memory with this RAM, of which no word is known.
    pub fn new(alloc: Global, ram: &Ram) -> Result<PartMem, OutOfMemory>
        ensures { IfOk result (λ m. (n : ℕ) → part_at m n ≡ (if in_ram ram.now n then Seen.Untouched else Seen.Vacant)) }
    {
        Ok(PartMem {
            ram: ram.copy(alloc)?,
            words: BTreeMap::new(alloc),
        })
    }

    /// Gives the word of RAM at an address, a multiple of 4, a value. A refusal changes nothing; a
    /// word that is known takes no memory.
    pub fn put(&mut self, a: u32, w: u32) -> Result<(), OutOfMemory>
        requires aligned { a % 4 ≡ 0 }
        requires ram { IsTrue (is_there (part_at self.old (a / 4))) }
        ensures known { OnOk result (part_at self.new (a / 4) ≡ Seen.Known w) }
        ensures others { (n : ℕ) → n ≢ a / 4 → part_at self.new n ≡ part_at self.old n }
        ensures refused { OnErr result ((n : ℕ) → part_at self.new n ≡ part_at self.old n) }
        ensures unknown { OnErr result (part_at self.old (a / 4) ≡ Seen.Untouched) }
    {
        self.words.insert(a / 4, w)?;
        Ok(())
    }

    /// The bytes of the known words as runs, each by its first byte and its last. It asks for each known word
    /// once whether it is one of RAM.
    pub fn known_runs(&self, alloc: Global) -> Result<Vec<(u32, u32)>, OutOfMemory>
        ensures { IfOk result (λ runs. (x : ℕ) → x < 2 ^ 32 → in_runs runs.items x ≡ is_known (part_at self.now (x / 4))) }
    {
        let mut runs = Vec::new(alloc);
        for (number, _) in &self.words {
            push_numbered(&mut runs, &self.ram, *number)?;
        }
        Ok(runs)
    }

    /// The bytes of RAM as runs, each by its first byte and its last, in the order of its regions.
    pub fn ram_runs(&self, alloc: Global) -> Result<Vec<(u32, u32)>, OutOfMemory>
        ensures { IfOk result (λ runs. (x : ℕ) → x < 2 ^ 32 → in_runs runs.items x ≡ is_there (part_at self.now (x / 4))) }
    {
        let runs = self.ram.runs(alloc)?;
        Ok(runs)
    }

    /// Makes the word of RAM at an address, a multiple of 4, untouched. Takes no memory.
    pub fn forget(&mut self, a: u32)
        requires aligned { a % 4 ≡ 0 }
        requires ram { IsTrue (is_there (part_at self.old (a / 4))) }
        ensures untouched { part_at self.new (a / 4) ≡ Seen.Untouched }
        ensures others { (n : ℕ) → n ≢ a / 4 → part_at self.new n ≡ part_at self.old n }
    {
        self.words.remove(&(a / 4));
    }
}

impl Words for PartMem {
    ghost use Rattle.rv_mem.specs.Part.{part_at};

    ghost at = { part_at };

    fn word(&self, a: u32) -> Seen {
        if !self.ram.has_word(a) {
            return Seen::Vacant;
        }
        match self.words.get(&(a / 4)) {
            Some(w) => Seen::Known(*w),
            None => Seen::Untouched,
        }
    }
}

impl Mem for PartMem {
    fn set_byte(&mut self, a: u32, v: u8) {
        if let Some(w) = self.words.get_mut(&(a / 4)) {
            *w = with_byte(*w, a % 4, v);
        }
    }
}
