// The addresses whose two indices differ.
ghost use Rattle.std.specs.Prelude.{◌≡◌, ℕ, ◌/◌, ◌%◌, ◌^◌, ◌<◌, ◌==◌, ◌&&◌, not, IfOk};
ghost use Rattle.dom_set.specs.Elements.{is_in, is_within};
ghost use Rattle.row_parts.specs.Gaps.{are_indices_equal, counts, is_in_gap};

use dom_set::{OutOfMemory, Set, set_laws};
use std::alloc::Global;

/// How far one page with equal indices is from the next.
const APART: u32 = 0x0040_1000;

/// Whether an address counts for a row for which the two indices, bits 31:22 and 21:12, may have to differ.
pub fn counts(apart: bool, addr: u32) -> bool
    ensures { result ≡ counts apart addr }
{
    !apart || addr / 0x40_0000 != addr / 0x1000 % 0x400
}

/// The ranges between the pages whose indices in the root and in the second table are equal.
#[tactic(auto, using(crate::proofs::Between::gap_pushed))]
fn gaps(alloc: Global) -> Result<Vec<(u32, u32)>, OutOfMemory>
    ensures { IfOk result (λ g. (x : ℕ) → is_within g.items x ≡ is_in_gap 1023 x) }
{
    let mut gaps = Vec::with_capacity(alloc, 1023)?;
    for i in 0..1023u32 {
        gaps.push((i * APART + 0x1000, i * APART + (APART - 1)))?;
    }
    Ok(gaps)
}

/// The addresses of the set whose index in the root table isn't that in the second one.
pub fn off_diagonal(alloc: Global, set: &Set) -> Result<Set, OutOfMemory>
    ensures { IfOk result (λ s. (x : ℕ) → x < 2 ^ 32 → is_in s x ≡ (is_in set.now x && not (are_indices_equal x))) }
{
    set_laws();
    let ranges = gaps(alloc)?;
    let off = Set::from_ranges(alloc, &ranges, 1)?;
    let left = set.and(alloc, &off)?;
    Ok(left)
}
