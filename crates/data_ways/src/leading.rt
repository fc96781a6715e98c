// The addresses that lead to some bytes.
ghost use Rattle.std.specs.Prelude.{◌≡◌, ℕ, ◌+◌, ◌%◌, ◌^◌, ◌<◌, ◌≤◌, bit_and, IfOk};
ghost use Rattle.dom_set.specs.Elements.{is_in};

use dom_set::{OutOfMemory, Set};
use std::alloc::Global;

/// Those of some bytes that lie from a base on, no further than a mask; all where 2^32 is passed on the way.
fn near(alloc: Global, base: u32, mask: u32, bytes: &Set) -> Result<Set, OutOfMemory>
    ensures { IfOk result (λ s. (n : ℕ) → n ≤ mask → is_in s ((base + n) % 2 ^ 32) ≡ is_in bytes.now ((base + n) % 2 ^ 32)) }
{
    let Some(last) = base.checked_add(mask) else {
        let copy = bytes.copy(alloc)?;
        return Ok(copy);
    };
    let window = Set::from_ranges(alloc, &[(base, last)], 1)?;
    let near = bytes.and(alloc, &window)?;
    Ok(near)
}

/// The addresses that lead to one of some bytes, where they lead to the base plus their bits under the mask.
pub fn reaching(alloc: Global, base: u32, mask: u32, bytes: &Set) -> Result<Set, OutOfMemory>
    ensures { IfOk result (λ s. (ea : ℕ) → ea < 2 ^ 32 → is_in s ea ≡ is_in bytes.now ((base + bit_and ea mask) % 2 ^ 32)) }
{
    let near = near(alloc, base, mask, bytes)?;
    if near.is_empty() {
        return Ok(near);
    }
    let offsets = near.shift(alloc, base.wrapping_neg())?;
    let leading = offsets.masked(alloc, mask)?;
    Ok(leading)
}
