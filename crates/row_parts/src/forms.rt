// The forms of new page table entries.
ghost use Rattle.std.specs.Prelude.{◌≡◌, ℕ, ◌^◌, ◌<◌, ◌≤◌, ◌||◌, ◌==◌, All, Bool, IfOk, OnOk};
ghost use Rattle.dom_set.specs.Counting.{one};
ghost use Rattle.dom_set.specs.Elements.{is_in};
ghost use Rattle.row_parts.specs.Forms.{is_first, is_second, is_pointer_to, with_flag, is_superpage_in, is_page_in, times_in, IsOnce};

use dom_set::OutOfMemory;
use std::alloc::Global;

/// Where new page table entries may stand and where they may lead.
#[derive(Drop)]
pub struct Forms {
    /// The frames, by their addresses, in which new entries may stand and to which pointers lead.
    pub tables: Vec<u32>,
    /// The frames to which leaves lead.
    pub pool: Vec<u32>,
    /// The lowest eight bits of leaves.
    pub flags: Vec<u8>,
}

/// Appends the pointers to frames.
#[tactic(auto, using(crate::proofs::Lists::pushed, crate::proofs::Lists::any_rest, crate::proofs::Lists::any_done, crate::proofs::Lists::or_assoc, crate::proofs::Lists::or_false))]
fn push_pointers(values: &mut Vec<u32>, tables: &[u32]) -> Result<(), OutOfMemory>
    ensures { OnOk result ((w : ℕ) → is_in values.new.items w ≡ (is_in values.old.items w || is_pointer_to tables.now w)) }
{
    for frame in tables {
        values.push(*frame / 0x1000 * 0x400 + 1)?;
    }
    Ok(())
}

/// Appends the leaves of one page number, given as the leaf without flags.
#[tactic(auto, using(crate::proofs::Lists::pushed, crate::proofs::Lists::any_rest, crate::proofs::Lists::any_done, crate::proofs::Lists::or_assoc, crate::proofs::Lists::or_false))]
fn push_flagged(values: &mut Vec<u32>, leaf: u32, flags: &[u8]) -> Result<(), OutOfMemory>
    requires { leaf ≤ 0xffffff00 }
    ensures { OnOk result ((w : ℕ) → is_in values.new.items w ≡ (is_in values.old.items w || with_flag leaf flags.now w)) }
{
    for flag in flags {
        values.push(leaf + u32::from(*flag))?;
    }
    Ok(())
}

/// Appends the superpages that pool frames are in.
#[tactic(auto, using(crate::proofs::Lists::pushed, crate::proofs::Lists::any_rest, crate::proofs::Lists::any_done, crate::proofs::Lists::or_assoc, crate::proofs::Lists::or_false))]
fn push_superpages(values: &mut Vec<u32>, pool: &[u32], flags: &[u8]) -> Result<(), OutOfMemory>
    ensures { OnOk result ((w : ℕ) → is_in values.new.items w ≡ (is_in values.old.items w || is_superpage_in pool.now flags.now w)) }
{
    for frame in pool {
        push_flagged(values, *frame / 0x40_0000 * 0x10_0000, flags)?;
    }
    Ok(())
}

/// Appends the pages that are pool frames.
#[tactic(auto, using(crate::proofs::Lists::pushed, crate::proofs::Lists::any_rest, crate::proofs::Lists::any_done, crate::proofs::Lists::or_assoc, crate::proofs::Lists::or_false))]
fn push_pages(values: &mut Vec<u32>, pool: &[u32], flags: &[u8]) -> Result<(), OutOfMemory>
    ensures { OnOk result ((w : ℕ) → is_in values.new.items w ≡ (is_in values.old.items w || is_page_in pool.now flags.now w)) }
{
    for frame in pool {
        push_flagged(values, *frame / 0x1000 * 0x400, flags)?;
    }
    Ok(())
}

/// Whether a value is listed.
fn is_listed(values: &[u32], value: u32) -> bool
    ensures { result ≡ is_in values.now value }
{
    values.iter().any(|v| *v == value)
}

/// Lists a value, unless it is listed.
#[tactic(auto, using(crate::proofs::Lists::pushed, crate::proofs::Lists::nat_kept, crate::proofs::Lists::nat_once))]
fn list_once(listed: &mut Vec<u32>, value: u32) -> Result<(), OutOfMemory>
    requires { (w : ℕ) → times_in listed.old.items w ≡ one (is_in listed.old.items w) }
    ensures once { OnOk result ((w : ℕ) → times_in listed.new.items w ≡ one (is_in listed.new.items w)) }
    ensures listed { OnOk result ((w : ℕ) (rest : Bool) → (is_in listed.new.items w || rest) ≡ (is_in listed.old.items w || ((value == w) || rest))) }
{
    if is_listed(listed, value) {
        return Ok(());
    }
    listed.push(value)?;
    Ok(())
}

/// The values of a list, each once.
#[tactic(auto, using(crate::proofs::Lists::any_rest, crate::proofs::Lists::any_done, crate::proofs::Lists::or_false))]
fn once(alloc: Global, values: &[u32]) -> Result<Vec<u32>, OutOfMemory>
    ensures { IfOk result (λ s. IsOnce (is_in values.now) s.items) }
{
    let mut once = Vec::new(alloc);
    for value in values {
        list_once(&mut once, *value)?;
    }
    Ok(once)
}

impl Forms {
    /// What a new root entry may be.
    pub fn firsts(&self, alloc: Global) -> Result<Vec<u32>, OutOfMemory>
        ensures { IfOk result (λ s. IsOnce (is_first self.now) s.items) }
    {
        let mut values = Vec::new(alloc);
        push_pointers(&mut values, &self.tables)?;
        push_superpages(&mut values, &self.pool, &self.flags)?;
        once(alloc, &values)
    }

    /// What a new second entry may be.
    pub fn seconds(&self, alloc: Global) -> Result<Vec<u32>, OutOfMemory>
        ensures { IfOk result (λ s. IsOnce (is_second self.now) s.items) }
    {
        let mut values = Vec::new(alloc);
        push_pages(&mut values, &self.pool, &self.flags)?;
        once(alloc, &values)
    }
}

/// Does nothing. Its contract says that frames and flag bytes are what their types can hold.
pub fn form_law(tables: &[u32], pool: &[u32], flags: &[u8])
    ensures tables { All (λ t. t < 2 ^ 32) tables.now }
    ensures pool { All (λ p. p < 2 ^ 32) pool.now }
    ensures flags { All (λ b. b < 256) flags.now }
{}
