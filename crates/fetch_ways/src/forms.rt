// The forms of new page table entries as sets, and how many pairs of them there are.
ghost use Rattle.std.specs.Prelude.{◌≡◌, ◌≤◌, ◌<◌, ◌+◌, ◌*◌, ◌^◌, ℕ, length, max, if◌then◌else◌, IfOk};
ghost use Rattle.dom_set.specs.Elements.{is_in};
ghost use Rattle.sv_walk.specs.Translation.{is_translated};
ghost use Rattle.leaf_link.specs.Firsts.{pairs_at};
ghost use Rattle.leaf_link.specs.Turns.{Turn, is_first_form, is_second_form};
ghost use Rattle.fetch_ways.specs.Ways.{HasForms};

use dom_set::{OutOfMemory, Set, set_laws};
use row_parts::{Forms, set_of};
use rv_csr::Priv;
use std::alloc::Global;
use sv_walk::{View, is_translated};

/// The forms of new page table entries.
#[derive(Drop)]
pub struct EntryForms {
    /// What a new root entry may be.
    pub first: Set,
    /// What a new second entry may be.
    pub second: Set,
}

/// The forms of new page table entries as sets.
pub fn entry_forms(alloc: Global, forms: &Forms) -> Result<EntryForms, OutOfMemory>
    ensures first { IfOk result (λ f. (t : Turn) → HasForms t forms.now → (v : ℕ) → v < 2 ^ 32 → is_in f.first v ≡ is_first_form t v) }
    ensures second { IfOk result (λ f. (t : Turn) → HasForms t forms.now → (v : ℕ) → v < 2 ^ 32 → is_in f.second v ≡ is_second_form t v) }
{
    set_laws();
    let firsts = forms.firsts(alloc)?;
    let seconds = forms.seconds(alloc)?;
    let first = set_of(alloc, &firsts)?;
    let second = set_of(alloc, &seconds)?;
    Ok(EntryForms { first, second })
}

/// How many pairs there are of so many tables, frames and flag bytes.
fn pairs(tables: u64, pool: u64, flags: u64) -> u64
    requires tables { tables ≤ 8 }
    requires pool { pool ≤ 32 }
    requires flags { flags ≤ 8 }
    ensures { result ≡ max 1 (tables + pool * flags) * max 1 (pool * flags) }
{
    let leaves = pool * flags;
    (tables + leaves).max(1) * leaves.max(1)
}

/// How many pairs of new page table entries a translation may have to look at; 1 where addresses are not translated.
pub fn fetch_pairs(view: View, forms: &Forms) -> u64
    requires tables { length forms.now.tables.items ≤ 8 }
    requires pool { length forms.now.pool.items ≤ 32 }
    requires flags { length forms.now.flags.items ≤ 8 }
    ensures { (t : Turn) → HasForms t forms.now → pairs_at t view ≡ result }
{
    if !is_translated(view) {
        return 1;
    }
    pairs(
        forms.tables.len() as u64,
        forms.pool.len() as u64,
        forms.flags.len() as u64,
    )
}
