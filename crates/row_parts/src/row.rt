// Rows.
ghost use Rattle.std.specs.Prelude.{◌≡◌, [], true, IfOk, OnOk};
ghost use Rattle.row_parts.specs.Rows.{Adds, found, end_at, has};

use dom_set::{OutOfMemory, Set};
use rv_csr::Cause;
use std::alloc::Global;

/// Where a row's addresses lead.
#[derive(Clone, Copy, Debug, PartialEq, Eq)]
pub enum RowEnd {
    /// To the physical address that is the base plus the address's bits under the mask.
    Pa { base: u32, mask: u32 },
    /// To a page fault or an access fault.
    Fault(Cause),
    /// Beyond what the machine models.
    Outside,
}

/// Addresses that lead the same way, each with each of the new page table entries.
#[derive(Drop)]
pub struct Row {
    /// The virtual addresses.
    pub ea: Set,
    /// The new root entries, where the root entry is new.
    pub root: Option<Set>,
    /// The new second entries, where the second entry is new.
    pub leaf: Option<Set>,
    /// Whether of its addresses only those count whose two indices, bits 31:22 and 21:12, differ.
    pub apart: bool,
    /// Where they lead.
    pub end: RowEnd,
}

/// The new entries that a row has.
#[derive(Drop)]
pub struct News {
    pub root: Option<Set>,
    pub leaf: Option<Set>,
    /// Whether of the addresses only those count whose two indices, bits 31:22 and 21:12, differ.
    pub apart: bool,
}

/// The same new entries, in memory of their own.
pub fn copy_of(alloc: Global, entries: &Option<Set>) -> Result<Option<Set>, OutOfMemory>
    ensures { IfOk result (λ copy. copy ≡ entries.now) }
{
    match entries {
        None => Ok(None),
        Some(set) => {
            let copy = set.copy(alloc)?;
            Ok(Some(copy))
        }
    }
}

/// Whether a set has no element.
pub fn is_empty(set: &Set) -> bool
    ensures { result ≡ true → set.now ≡ [] }
{
    set.first_from(0).is_none()
}

/// Appends a row.
#[tactic(auto, using(crate::proofs::EndLists::ends_push))]
pub fn push_some(rows: &mut Vec<Row>, row: Row) -> Result<(), OutOfMemory>
    ensures { OnOk result (Adds rows.old.items rows.new.items (λ x root leaf. found (has row x root leaf) (end_at row.end x))) }
{
    rows.push(row)?;
    Ok(())
}

/// Appends a row, unless it has no address.
#[tactic(auto, using(crate::proofs::EndLists::ends_push, crate::proofs::EndLists::nothing))]
pub fn push_row(rows: &mut Vec<Row>, row: Row) -> Result<(), OutOfMemory>
    ensures { OnOk result (Adds rows.old.items rows.new.items (λ x root leaf. found (has row x root leaf) (end_at row.end x))) }
{
    if is_empty(&row.ea) {
        return Ok(());
    }
    rows.push(row)?;
    Ok(())
}
