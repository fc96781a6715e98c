// A memory that knows each word of RAM.
ghost use Rattle.std.specs.Prelude.{◌≡◌, ◌≢◌, ◌+◌, ◌-◌, ◌/◌, ◌%◌, ◌∷◌, [], ℕ, length, slice_set, IfOk, IsTrue, if◌then◌else◌, position};
ghost use Rattle.rv_mem.specs.Full.{full_at, blocks_at, holds, word_of};
ghost use Rattle.rv_mem.specs.Ram.{AreWhole, IsWhole, in_ram, in_region};
ghost use Rattle.rv_mem.specs.Seen.{is_there};

use crate::bytes::with_byte;
use crate::{Mem, OutOfMemory, Ram, Seen, Words};
use std::alloc::Global;

/// The words of one region.
#[derive(Drop)]
struct Block {
    /// The number of the first word.
    first: u32,
    words: Vec<u32>,
}

impl Block {
    /// The words of a region, each with the same value.
    fn new(alloc: Global, region: (u32, u32), fill: u32) -> Result<Block, OutOfMemory>
        requires { IsWhole region }
        ensures { IfOk result (λ b. (n : ℕ) → blocks_at (b ∷ []) n ≡ (if in_region region n then Seen.Known fill else Seen.Vacant)) }
    {
        let (low, high) = region;
        let count = high.saturating_sub(low) / 4;
        Ok(Block {
            first: low / 4,
            words: vec![in alloc; fill; count as usize]?,
        })
    }

    /// Whether it has the word with this number.
    fn holds(&self, n: u32) -> bool
        ensures { result ≡ holds self.now n }
    {
        self.first <= n && ((n - self.first) as usize) < self.words.len()
    }

    /// The word with this number.
    fn get(&self, n: u32) -> u32
        requires { IsTrue (holds self.now n) }
        ensures { result ≡ word_of self.now n }
    {
        self.words[(n - self.first) as usize]
    }

    /// Changes the word with this number.
    fn set(&mut self, n: u32, w: u32)
        requires { IsTrue (holds self.old n) }
        ensures first { self.new.first ≡ self.old.first }
        ensures words { self.new.words.items ≡ slice_set self.old.words.items (n - self.old.first) w }
    {
        self.words[(n - self.first) as usize] = w;
    }
}

/// The index of the block that has the word with this number.
fn index_of(blocks: &[Block], n: u32) -> Option<usize>
    ensures { result ≡ position (λ b. holds b n) blocks.now }
{
    blocks.iter().position(|b| b.holds(n))
}

/// RAM, with a value for each of its words.
#[derive(Drop)]
pub struct FullMem {
    blocks: Vec<Block>,
}

impl FullMem {
    /// A memory with this RAM, each word of which has the same value.
    pub fn new(alloc: Global, ram: &Ram, fill: u32) -> Result<FullMem, OutOfMemory>
        ensures { IfOk result (λ m. (n : ℕ) → full_at m n ≡ (if in_ram ram.now n then Seen.Known fill else Seen.Vacant)) }
    {
        let mut blocks = Vec::new(alloc);
        for region in ram.as_slice() {
            blocks.push(Block::new(alloc, *region, fill)?)?;
        }
        Ok(FullMem { blocks })
    }

    /// Gives the word of RAM at an address, a multiple of 4, a value. Takes no memory.
    pub fn put(&mut self, a: u32, w: u32)
        requires aligned { a % 4 ≡ 0 }
        requires ram { IsTrue (is_there (full_at self.old (a / 4))) }
        ensures known { full_at self.new (a / 4) ≡ Seen.Known w }
        ensures others { (n : ℕ) → n ≢ a / 4 → full_at self.new n ≡ full_at self.old n }
    {
        let n = a / 4;
        if let Some(i) = index_of(&self.blocks, n) {
            self.blocks[i].set(n, w);
        }
    }
}

impl Words for FullMem {
    ghost use Rattle.rv_mem.specs.Full.{full_at};

    ghost at = { full_at };

    fn word(&self, a: u32) -> Seen {
        let n = a / 4;
        match index_of(&self.blocks, n) {
            Some(i) => Seen::Known(self.blocks[i].get(n)),
            None => Seen::Vacant,
        }
    }
}

impl Mem for FullMem {
    fn set_byte(&mut self, a: u32, v: u8) {
        let first = a - a % 4;
        if let Seen::Known(w) = self.word(first) {
            self.put(first, with_byte(w, a % 4, v));
        }
    }
}
