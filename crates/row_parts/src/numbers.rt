// Sets of the numbers of a list.
ghost use Rattle.std.specs.Prelude.{◌≡◌, ℕ, IfOk};
ghost use Rattle.dom_set.specs.Elements.{elements_of, is_in, is_within};

use dom_set::{OutOfMemory, Set, set_laws};
use std::alloc::Global;

/// Each number of a list, as a range.
#[tactic(auto, using(crate::proofs::Sharing::single_pushed))]
fn singles(alloc: Global, values: &[u32]) -> Result<Vec<(u32, u32)>, OutOfMemory>
    ensures { IfOk result (λ rs. (w : ℕ) → is_within rs.items w ≡ is_in values.now w) }
{
    let mut ranges = Vec::new(alloc);
    for value in values {
        ranges.push((*value, *value))?;
    }
    Ok(ranges)
}

/// The numbers of a list.
pub fn set_of(alloc: Global, values: &[u32]) -> Result<Set, OutOfMemory>
    ensures elements { IfOk result (λ s. s ≡ elements_of (is_in values.now)) }
    ensures each { IfOk result (λ s. (w : ℕ) → is_in s w ≡ is_in values.now w) }
{
    set_laws();
    let ranges = singles(alloc, values)?;
    let set = Set::from_ranges(alloc, &ranges, 1)?;
    Ok(set)
}
