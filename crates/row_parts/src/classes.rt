// Tables of page table entries, and the addresses whose entries are seen alike.
ghost use Rattle.std.specs.Prelude.{true, false, ◌≡◌, ℕ, ◌+◌, ◌*◌, ◌/◌, ◌%◌, ◌^◌, ◌<◌, ◌≤◌, ◌&&◌, ◌↔◌, length, slice_get, IsTrue, Bool, ◌||◌, OnOk, IfOk};
ghost use Rattle.row_parts.specs.declared.blocks.Cover.TheVariants.{All, Nothing, Some as SomePass};
ghost use Rattle.rv_mem.specs.declared.words.Seen.{Seen};
ghost use Rattle.dom_set.specs.Counting.{one};
ghost use Rattle.row_parts.specs.Classes.{low_bit, same, seen_at, has_class, any_seen, times_seen, TableOf, EachOnce};
ghost use Rattle.row_parts.specs.Items.{GivesEach};

use crate::blocks::{Choice, Cover, power};
use crate::pages::ENTRIES;
use dom_set::OutOfMemory;
use rv_mem::{Seen, Words};
use std::alloc::Global;

/// Whether two words are seen alike.
pub fn is_same(a: Seen, b: Seen) -> bool
    ensures { result ≡ same a b }
{
    match (a, b) {
        (Seen::Known(x), Seen::Known(y)) => x == y,
        (Seen::Untouched, Seen::Untouched) => true,
        (Seen::Vacant, Seen::Vacant) => true,
        _ => false,
    }
}

/// What is seen of the word at a physical address, a multiple of 4.
pub fn word_at<M: Words>(m: &M, addr: u64) -> Seen
    requires { addr % 4 ≡ 0 }
    ensures { result ≡ seen_at (M.at m.now) addr }
{
    if addr < 0x1_0000_0000 {
        m.word(addr as u32)
    } else {
        Seen::Vacant
    }
}

/// The entries of the table in a frame.
pub fn table_in<M: Words>(alloc: Global, m: &M, frame: u32) -> Result<Vec<Seen>, OutOfMemory>
    requires { frame < 2 ^ 22 }
    ensures { IfOk result (λ t. TableOf (M.at m.now) frame t.items) }
{
    let mut table = Vec::with_capacity(alloc, ENTRIES as usize)?;
    for i in 0..ENTRIES {
        table.push(word_at(m, u64::from(frame) * 4096 + u64::from(i) * 4))?;
    }
    Ok(table)
}

/// Whether one of the list is seen so.
fn has_kind(kinds: &[Seen], seen: Seen) -> bool
    ensures { result ≡ any_seen kinds.now seen }
{
    kinds.iter().any(|k| is_same(*k, seen))
}

/// Lists what is seen, unless it is listed.
#[tactic(auto, using(crate::proofs::Lists::any_pushed, crate::proofs::SeenOnce::seen_kept, crate::proofs::SeenOnce::seen_once))]
fn list_kind(kinds: &mut Vec<Seen>, seen: Seen) -> Result<(), OutOfMemory>
    requires { (s : Seen) → times_seen kinds.old.items s ≡ one (any_seen kinds.old.items s) }
    ensures once { OnOk result ((s : Seen) → times_seen kinds.new.items s ≡ one (any_seen kinds.new.items s)) }
    ensures listed { OnOk result ((s : Seen) (rest : Bool) → (any_seen kinds.new.items s || rest) ≡ (any_seen kinds.old.items s || (same seen s || rest))) }
{
    if has_kind(kinds, seen) {
        return Ok(());
    }
    kinds.push(seen)?;
    Ok(())
}

/// What is seen in a list, each once.
#[tactic(auto, using(crate::proofs::Lists::any_rest, crate::proofs::Lists::any_done, crate::proofs::Lists::or_false))]
fn listed_once(alloc: Global, table: &[Seen]) -> Result<Vec<Seen>, OutOfMemory>
    ensures { IfOk result (λ kinds. EachOnce table.now kinds.items) }
{
    let mut kinds = Vec::new(alloc);
    for seen in table {
        list_kind(&mut kinds, *seen)?;
    }
    Ok(kinds)
}

/// What is seen in a list, so that each thing that is seen there gives its own ends once.
#[tactic(auto, using(crate::proofs::Items::gives_each))]
pub fn kinds_of(alloc: Global, table: &[Seen]) -> Result<Vec<Seen>, OutOfMemory>
    ensures { IfOk result (λ kinds. GivesEach table.now kinds.items) }
{
    let kinds = listed_once(alloc, table)?;
    Ok(kinds)
}

/// Which of its two indices an address has in a table.
#[derive(Clone, Copy, Debug, PartialEq, Eq)]
pub enum Level {
    /// Bits 31:22.
    Root,
    /// Bits 21:12.
    Second,
}

impl Level {
    /// The lowest bit of the index.
    fn low(self) -> u32
        ensures value { result ≡ low_bit self }
        ensures bound { result < 32 }
    {
        match self {
            Level::Root => 22,
            Level::Second => 12,
        }
    }
}

/// The addresses whose entry in a table is seen so.
#[derive(Drop)]
pub struct ClassPart<'a> {
    pub table: &'a [Seen],
    pub seen: Seen,
    pub level: Level,
}

impl<'a> ClassPart<'a> {
    fn has(&self, index: u32) -> bool
        ensures { result ≡ has_class self.now.table.now self.now.seen index }
    {
        match self.table.get(index as usize) {
            Some(seen) => is_same(self.seen, *seen),
            None => false,
        }
    }

    /// Whether so many entries from one on are all seen so, or none of them is.
    fn cover(&self, first: u32, count: u32) -> Cover
        requires some { 0 < count }
        requires few { first + count ≤ 2 ^ 20 }
        ensures all { result ≡ All → (i : ℕ) → first ≤ i → i < first + count → has_class self.now.table.now self.now.seen i ≡ true }
        ensures none { result ≡ Nothing → (i : ℕ) → first ≤ i → i < first + count → has_class self.now.table.now self.now.seen i ≡ false }
        ensures some { result ≡ SomePass → 1 < count }
    {
        let same = self.has(first);
        for i in 1..count {
            if self.has(first + i) != same {
                return Cover::Some;
            }
        }
        if same { Cover::All } else { Cover::Nothing }
    }
}

impl<'a> Choice for ClassPart<'a> {
    ghost use Rattle.std.specs.Prelude.{◌/◌, ◌^◌};
    ghost use Rattle.row_parts.specs.Classes.{has_class, low_bit};

    ghost test = { λ p y. has_class p.table.now p.seen (y / 2 ^ low_bit p.level) };

    ghost grain = { λ p. low_bit p.level };

    fn judge(&self, start: u32, bits: u32) -> Cover {
        let low = self.level.low();
        let first = start >> low;
        let count = power(bits - low) as u32;
        self.cover(first, count)
    }
}
