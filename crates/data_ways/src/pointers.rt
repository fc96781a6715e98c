// The known root entries that lead to tables.
ghost use Rattle.std.specs.Prelude.{◌≡◌, ℕ, ◌+◌, ◌*◌, ◌/◌, ◌%◌, ◌^◌, ◌<◌, ◌==◌, ◌&&◌, ◌||◌, Bool, IfOk, OnOk};
ghost use Rattle.std.specs.List.{list_any};
ghost use Rattle.rv_mem.specs.Seen.{is_untouched};
ghost use Rattle.row_parts.specs.Classes.{entry_at, has_class};
ghost use Rattle.data_bytes.specs.Sets.{IsSetOf};
ghost use Rattle.data_ways.specs.Internal.Tables.{any_pointer, leads_on};

use dom_set::{OutOfMemory, Set};
use row_parts::{ClassPart, Level, chosen, kinds_of, table_in};
use rv_mem::{Seen, Words};
use std::alloc::Global;
use sv_walk::{is_invalid, is_pointer};

/// A known root entry that leads to a table.
#[derive(Drop)]
pub struct Pointer {
    /// The addresses whose root entry it is.
    pub ea: Set,
    /// The frame of the table that it leads to.
    pub frame: u32,
}

/// The addresses whose entry in the root table is seen so.
fn seen_so(alloc: Global, table: &[Seen], seen: Seen) -> Result<Set, OutOfMemory>
    ensures { IfOk result (IsSetOf (λ ea. has_class table.now seen (ea / 2 ^ 22))) }
{
    let part = ClassPart {
        table,
        seen,
        level: Level::Root,
    };
    let all = Set::all(alloc)?;
    let class = chosen(alloc, &all, &part, 32)?;
    Ok(class)
}

/// Appends a root entry that is seen so, with all addresses that have it, if it is known and leads to a table.
fn push_pointer(
    alloc: Global,
    table: &[Seen],
    pointers: &mut Vec<Pointer>,
    seen: Seen,
) -> Result<(), OutOfMemory>
    ensures { OnOk result ((test : ℕ → Bool) (ea : ℕ) → ea < 2 ^ 32 →
        any_pointer pointers.new.items test ea
        ≡ (any_pointer pointers.old.items test ea || (has_class table.now seen (ea / 2 ^ 22) && leads_on seen test))) }
{
    let Seen::Known(entry) = seen else {
        return Ok(());
    };
    if is_invalid(entry) || !is_pointer(entry) {
        return Ok(());
    }
    let ea = seen_so(alloc, table, seen)?;
    pointers.push(Pointer {
        ea,
        frame: entry >> 10,
    })?;
    Ok(())
}

/// Those of the root entries that are known and lead to tables, where these are what is seen in the root table.
fn pointers_of(alloc: Global, table: &[Seen], kinds: &[Seen]) -> Result<Vec<Pointer>, OutOfMemory>
    ensures { IfOk result (λ ps. (test : ℕ → Bool) (ea : ℕ) → ea < 2 ^ 32 →
        any_pointer ps.items test ea ≡ list_any (λ k. has_class table.now k (ea / 2 ^ 22) && leads_on k test) kinds.now) }
{
    let mut pointers = Vec::new(alloc);
    for seen in kinds {
        push_pointer(alloc, table, &mut pointers, *seen)?;
    }
    Ok(pointers)
}

/// The known root entries that lead to tables, each with all addresses that have it.
pub fn pointers<M: Words>(alloc: Global, m: &M, root: u32) -> Result<Vec<Pointer>, OutOfMemory>
    requires { root < 2 ^ 22 }
    ensures { IfOk result (λ ps. (test : ℕ → Bool) (ea : ℕ) → ea < 2 ^ 32 →
        any_pointer ps.items test ea ≡ leads_on (entry_at (M.at m.now) root (ea / 2 ^ 22)) test) }
{
    let table = table_in(alloc, m, root)?;
    let kinds = kinds_of(alloc, &table)?;
    let pointers = pointers_of(alloc, &table, &kinds)?;
    Ok(pointers)
}

/// The addresses whose root entry has no value yet.
pub fn untouched<M: Words>(alloc: Global, m: &M, root: u32) -> Result<Set, OutOfMemory>
    requires { root < 2 ^ 22 }
    ensures { IfOk result (IsSetOf (λ ea. is_untouched (entry_at (M.at m.now) root (ea / 2 ^ 22)))) }
{
    let table = table_in(alloc, m, root)?;
    let untouched = seen_so(alloc, &table, Seen::Untouched)?;
    Ok(untouched)
}
