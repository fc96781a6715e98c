// Runs of offsets on a page.
ghost use Rattle.std.specs.Prelude.{◌≡◌, ℕ, ◌+◌, ◌<◌, ◌≤◌, ◌⊎◌, ◌↔◌, ◌&&◌, true, not, nat_lt, IfOk, IsTrue};
ghost use Rattle.dom_set.specs.Elements.{is_within};
ghost use Rattle.lane_bits.specs.Pages.{has};

use crate::error::OutOfMemory;
use lane_bits::PageBits;
use std::alloc::Global;

/// The offsets that are not on a page.
pub fn others(page: &PageBits) -> PageBits
    ensures { (x : ℕ) → has result x ≡ (nat_lt x 4096 && not (has page.now x)) }
{
    PageBits::multiples_of(1).and_not(page)
}

/// The runs of offsets on a page, each by its first and its last.
pub fn runs(alloc: Global, page: &PageBits) -> Result<Vec<(u32, u32)>, OutOfMemory>
    ensures { IfOk result (λ v. (x : ℕ) → is_within v.items x ≡ has page.now x) }
{
    let others = others(page);
    let mut runs = Vec::new(alloc);
    let mut from = 0;
    while let Some(first) = page.first_from(from) {
        from = match others.first_from(first) {
            Some(end) => end,
            None => 4096,
        };
        runs.push((u32::from(first), u32::from(from - 1)))?;
    }
    Ok(runs)
}

/// The offsets from which on so many are on a page.
pub fn starts(page: PageBits, len: u8) -> PageBits
    requires { (len ≡ 1) ⊎ ((len ≡ 2) ⊎ (len ≡ 4)) }
    ensures { (x : ℕ) → (has result x ≡ true) ↔ ((i : ℕ) → i < len → has page (x + i) ≡ true) }
{
    if len == 1 {
        return page;
    }
    let pairs = page.and(&page.lowered(1));
    if len == 2 {
        return pairs;
    }
    pairs.and(&pairs.lowered(2))
}
