// The physical addresses to which a load or store may go.

ghost use Rattle.std.specs.Prelude.{◌≡◌, ℕ, Bool, ◌&&◌, ◌||◌, not, IfOk};
ghost use Rattle.dom_set.specs.Elements.{is_in};
ghost use Rattle.rv_isa.specs.Fields.{is_load};
ghost use Rattle.rv_isa.specs.Table.{row_of};
ghost use Rattle.data_bytes.specs.Sets.{IsSetOf};
ghost use Rattle.data_goals.specs.Goals.{AreTargets};

use crate::accesses::Accesses;
use crate::goal::{access_of, size_of};
use dom_set::{OutOfMemory, Set};
use rv_isa::Op;
use std::alloc::Global;

/// The physical addresses to which a load or store may go.
#[derive(Drop)]
pub struct Targets {
    /// Those in words that have a value.
    pub known: Set,
    /// Those in words of the pool, which the access starts.
    pub fresh: Set,
}

/// Of the addresses to which an access may go those that are wanted; a store may not go to what the fetch reads.
fn left_of(
    alloc: Global,
    accesses: &Accesses,
    op: Op,
    starts: Set,
    wanted: &Set,
) -> Result<Set, OutOfMemory>
    ensures { IfOk result (IsSetOf (λ p. (is_in starts p && is_in wanted.now p) && (is_load (row_of op) || not (is_in accesses.now.walked p)))) }
{
    let left = starts.and(alloc, wanted)?;
    if op.is_load() {
        return Ok(left);
    }
    let left = left.minus(alloc, &accesses.walked)?;
    Ok(left)
}

/// The physical addresses to which a load or store may go, of those that are wanted.
pub fn targets_of(
    alloc: Global,
    accesses: &Accesses,
    op: Op,
    wanted: &Set,
) -> Result<Targets, OutOfMemory>
    ensures { IfOk result (λ targets. (test : ℕ → Bool) → IsSetOf test wanted.now → AreTargets accesses.now op test targets) }
{
    let (size, access) = (size_of(op), access_of(op));
    let Ok(known) = accesses.bytes.known_starts(alloc, size, access) else {
        return Err(OutOfMemory);
    };
    let Ok(fresh) = accesses.bytes.fresh_starts(alloc, size, access) else {
        return Err(OutOfMemory);
    };
    let known = left_of(alloc, accesses, op, known, wanted)?;
    let fresh = left_of(alloc, accesses, op, fresh, wanted)?;
    Ok(Targets { known, fresh })
}
