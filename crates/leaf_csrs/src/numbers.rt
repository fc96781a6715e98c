// Sets of numbers that are told one by one.

ghost use Rattle.std.specs.Prelude.{◌≡◌, ℕ, ◌&&◌, ◌||◌, nat_eq, not, IfOk, OnOk};
ghost use Rattle.dom_set.specs.Elements.{is_within};
ghost use Rattle.data_goals.specs.Goals.{IsCut};
ghost use Rattle.data_bytes.specs.Sets.{IsSetOf};

use dom_set::{OutOfMemory, Set};
use leaf_stand::Spans;
use std::alloc::Global;

const NOT_ZERO: Spans = Spans {
    ranges: [(1, u32::MAX), (1, 0)],
    align: 1,
};

/// A number alone.
pub fn one(alloc: Global, value: u32) -> Result<Option<Set>, OutOfMemory>
    ensures { IfOk result (IsCut (λ v. nat_eq v value)) }
{
    let set = Spans::one(value).set(alloc)?;
    Ok(Some(set))
}

/// Every word but 0.
pub fn not_zero(alloc: Global) -> Result<Option<Set>, OutOfMemory>
    ensures { IfOk result (IsCut (λ v. not (nat_eq v 0))) }
{
    let set = NOT_ZERO.set(alloc)?;
    Ok(Some(set))
}

/// Appends a number as a range, where it is wanted.
pub fn push_one(pairs: &mut Vec<(u32, u32)>, number: u32, wanted: bool) -> Result<(), OutOfMemory>
    ensures { OnOk result ((v : ℕ) → is_within pairs.new.items v ≡ (is_within pairs.old.items v || (nat_eq number v && wanted))) }
{
    if wanted {
        pairs.push((number, number))?;
    }
    Ok(())
}

/// The numbers in ranges.
pub fn set_of(alloc: Global, pairs: &[(u32, u32)]) -> Result<Set, OutOfMemory>
    ensures { IfOk result (IsSetOf (is_within pairs.now)) }
{
    Set::from_ranges(alloc, pairs, 1)
}
