// Values of a variable that are not in the sets that relations have for it.
ghost use Rattle.std.specs.Prelude.{◌≡◌, ◌<◌, ◌≤◌, ◌^◌, ℕ, IsTrue, false, true};
ghost use Rattle.dom_set.specs.Elements.{is_in};
ghost use Rattle.fd_prob.specs.Order.{rank};
ghost use Rattle.case_search.specs.Internal.Skipping.{all_let, lets};

use crate::order::{next_from, rank};
use dom_set::Set;
use fd_prob::{Rel, Slot};

/// The ranks of a pivot, which are below it.
const RANKS: u64 = 1 << 32;

/// From a rank on, up to which rank the values of a variable are not in the set that a relation has for it.
fn let_by(rel: &Rel, slot: Slot, pivot: u32, k: u64) -> u64
    requires { k ≤ 2 ^ 32 }
    ensures from { k ≤ result }
    ensures bound { result ≤ 2 ^ 32 }
    ensures passed { (w : ℕ) → w < 2 ^ 32 → k ≤ rank pivot w → rank pivot w < result → lets rel.now slot w ≡ false }
    ensures there { (w : ℕ) → w < 2 ^ 32 → rank pivot w ≡ k → result ≡ k → lets rel.now slot w ≡ true }
{
    match rel {
        Rel::In(s, set) if s.number() == slot.number() => {
            set.element_laws();
            match next_from(set, pivot, k) {
                Some(value) => u64::from(rank(pivot, value)),
                None => RANKS,
            }
        }
        _ => k,
    }
}

/// From a rank on, up to which rank the values of a variable are not in all sets that relations have for it.
fn let_by_all(rels: &[Rel], slot: Slot, pivot: u32, k: u64) -> u64
    requires { k ≤ 2 ^ 32 }
    ensures from { k ≤ result }
    ensures bound { result ≤ 2 ^ 32 }
    ensures passed { (w : ℕ) → w < 2 ^ 32 → k ≤ rank pivot w → rank pivot w < result → all_let rels.now slot w ≡ false }
    ensures there { (w : ℕ) → w < 2 ^ 32 → rank pivot w ≡ k → result ≡ k → all_let rels.now slot w ≡ true }
{
    let mut next = k;
    for rel in rels {
        next = let_by(rel, slot, pivot, next);
    }
    next
}

/// From a rank on, up to which rank the values of a variable are not in the sets that relations have for it.
pub fn first_let(domain: &Set, slot: Slot, rels: &[Rel], pivot: u32, k: u64) -> u64
    requires { k ≤ 2 ^ 32 }
    ensures from { k ≤ result }
    ensures bound { result ≤ 2 ^ 32 }
    ensures passed { (w : ℕ) → IsTrue (is_in domain.now w) → k ≤ rank pivot w → rank pivot w < result → all_let rels.now slot w ≡ false }
{
    domain.element_laws();
    let mut next = k;
    while let Some(value) = next_from(domain, pivot, next) {
        let here = u64::from(rank(pivot, value));
        let there = let_by_all(rels, slot, pivot, here);
        if there == here {
            return here;
        }
        next = there;
    }
    next
}
