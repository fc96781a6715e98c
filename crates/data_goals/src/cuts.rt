// What a goal says of single variables.

ghost use Rattle.std.specs.Prelude.{◌≡◌, ℕ, ◌&&◌, Bool, nat_eq, not, IfOk};
ghost use Rattle.dom_set.specs.Elements.{is_in};
ghost use Rattle.data_bytes.specs.Sets.{IsSetOf};
ghost use Rattle.data_goals.specs.declared.accesses.Accesses.{Accesses as AnAccesses};
ghost use Rattle.rv_isa.specs.declared.operation.Op.{Op as AnOp};
ghost use Rattle.row_parts.specs.Gaps.{counts};
ghost use Rattle.data_goals.specs.Goals.{AreTargets, IsCut, apart_test, entry_test, is_aligned_to, leads_to, near_test, own_test, there_test, word_test};

use crate::goal::{Goal, size_of};
use crate::targets::Targets;
use data_bytes::{misaligned, open};
use data_ways::{DataEnd, DataWay, off_diagonal, reaching};
use dom_set::{OutOfMemory, Set};
use fd_prob::Slot;
use rv_isa::Op;
use std::alloc::Global;

/// The multiples of an access's size in a set.
fn aligned(alloc: Global, set: &Set, op: Op) -> Result<Set, OutOfMemory>
    ensures { IfOk result (IsSetOf (λ v. is_in set.now v && is_aligned_to op v)) }
{
    let none = Set::new(alloc);
    match open(alloc, set, &none, size_of(op)) {
        Ok(set) => Ok(set),
        Err(_) => Err(OutOfMemory),
    }
}

/// The addresses that are no multiples of an access's size.
fn missing(alloc: Global, op: Op) -> Result<Set, OutOfMemory>
    ensures { IfOk result (IsSetOf (λ v. not (is_aligned_to op v))) }
{
    match misaligned(alloc, size_of(op)) {
        Ok(set) => Ok(set),
        Err(_) => Err(OutOfMemory),
    }
}

/// The addresses of a goal, wherever they lead.
fn addresses(alloc: Global, op: Op, way: &DataWay, goal: Goal) -> Result<Set, OutOfMemory>
    ensures { IfOk result (IsSetOf (own_test op way.now goal)) }
{
    match goal {
        Goal::Misaligned => missing(alloc, op),
        Goal::Fails | Goal::Known | Goal::Fresh => aligned(alloc, &way.ea, op),
    }
}

/// The addresses that lead to one of these physical ones, where they lead as a way says.
fn leading(alloc: Global, way: &DataWay, targets: &Set) -> Result<Set, OutOfMemory>
    ensures { IfOk result (λ set. (test : ℕ → Bool) → IsSetOf test targets.now → IsSetOf (leads_to way.now.end test) set) }
{
    match way.end {
        DataEnd::Fails(_) => Ok(Set::new(alloc)),
        DataEnd::At { base, mask } => {
            let there = reaching(alloc, base, mask, targets)?;
            Ok(there)
        }
    }
}

/// What a goal says of an address beside its domain. Each set can have a thousand pieces, and their meet far more.
#[derive(Drop)]
pub struct AddressCuts {
    /// The addresses whose two indices, bits 31:22 and 21:12, differ, where only such count.
    pub apart: Option<Set>,
    /// The addresses that lead to where the access may go; `None` where each address passes.
    pub leads: Option<Set>,
}

/// The addresses that count for a way, where not each one does.
fn counted(alloc: Global, way: &DataWay) -> Result<Option<Set>, OutOfMemory>
    ensures { IfOk result (IsCut (λ v. counts way.now.apart v)) }
{
    if !way.apart {
        return Ok(None);
    }
    let all = Set::all(alloc)?;
    let off = off_diagonal(alloc, &all)?;
    Ok(Some(off))
}

/// What a goal says of the two indices of an address; `None` where each address passes.
pub fn goal_apart(alloc: Global, way: &DataWay, goal: Goal) -> Result<Option<Set>, OutOfMemory>
    ensures { IfOk result (IsCut (apart_test way.now goal)) }
{
    match goal {
        Goal::Misaligned => Ok(None),
        Goal::Fails | Goal::Known | Goal::Fresh => counted(alloc, way),
    }
}

/// The addresses that lead to where the access of a goal may go; `None` where each address passes.
pub fn goal_leads(
    alloc: Global,
    way: &DataWay,
    goal: Goal,
    targets: &Targets,
) -> Result<Option<Set>, OutOfMemory>
    ensures { IfOk result (λ place. (a : AnAccesses) (op : AnOp) (wanted : ℕ → Bool) → AreTargets a op wanted targets.now → IsCut (there_test a op way.now wanted goal) place) }
{
    match goal {
        Goal::Misaligned | Goal::Fails => Ok(None),
        Goal::Known => Ok(Some(leading(alloc, way, &targets.known)?)),
        Goal::Fresh => Ok(Some(leading(alloc, way, &targets.fresh)?)),
    }
}

/// 0 alone.
fn zero(alloc: Global) -> Result<Set, OutOfMemory>
    ensures { IfOk result (IsSetOf (λ v. nat_eq v 0)) }
{
    let zero = Set::from_ranges(alloc, &[(0, 0)], 1)?;
    Ok(zero)
}

/// What a goal says of the data word: only where the access starts it, it is not 0.
fn words(alloc: Global, goal: Goal) -> Result<Option<Set>, OutOfMemory>
    ensures { IfOk result (IsCut (word_test goal)) }
{
    match goal {
        Goal::Fresh => Ok(None),
        Goal::Misaligned | Goal::Fails | Goal::Known => Ok(Some(zero(alloc)?)),
    }
}

/// What a goal says of a new page table entry, which is one of these, or 0 where there is none.
fn entries(alloc: Global, goal: Goal, entries: &Set) -> Result<Option<Set>, OutOfMemory>
    ensures { IfOk result (IsCut (entry_test goal entries.now)) }
{
    match goal {
        Goal::Misaligned => Ok(Some(zero(alloc)?)),
        Goal::Fails | Goal::Known | Goal::Fresh => Ok(Some(entries.copy(alloc)?)),
    }
}

/// What a goal of a load or store says of one variable, but for the two indices of an address and where it leads; `None`
/// where each word passes.
pub fn goal_cut(
    alloc: Global,
    op: Op,
    way: &DataWay,
    goal: Goal,
    slot: Slot,
) -> Result<Option<Set>, OutOfMemory>
    ensures { IfOk result (IsCut (near_test op way.now goal slot)) }
{
    match slot {
        Slot::Ea => Ok(Some(addresses(alloc, op, way, goal)?)),
        Slot::FirstPte => entries(alloc, goal, &way.first),
        Slot::SecondPte => entries(alloc, goal, &way.second),
        Slot::DataWord => words(alloc, goal),
        _ => Ok(None),
    }
}
