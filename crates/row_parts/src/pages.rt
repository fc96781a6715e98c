// Sets of addresses that lie in one page.
ghost use Rattle.std.specs.Prelude.{◌≡◌, ℕ, ◌/◌, ◌^◌, ◌<◌, true, IfOk, IfSome};
ghost use Rattle.dom_set.specs.Elements.{is_in};
ghost use Rattle.row_parts.specs.Classes.{has_index};

use crate::row::is_empty;
use dom_set::{OutOfMemory, Set, set_laws};
use std::alloc::Global;

/// How many entries a table has.
pub const ENTRIES: u32 = 1024;

/// Indices of entries, from the first up to, not including, the last.
#[derive(Clone, Copy, Debug, PartialEq, Eq)]
pub struct Indices {
    pub first: u32,
    pub end: u32,
}

/// Whether a set has addresses of this page alone.
#[tactic(auto, using(crate::proofs::OnePage::in_page))]
fn is_in_page(alloc: Global, set: &Set, page: u32) -> Result<bool, OutOfMemory>
    requires { page < 2 ^ 20 }
    ensures { IfOk result (λ b. b ≡ true → (x : ℕ) → is_in set.now x ≡ true → x / 2 ^ 12 ≡ page) }
{
    set_laws();
    let range = [(page * 4096, page * 4096 + 4095)];
    let inside = Set::from_ranges(alloc, &range, 1)?;
    let others = set.minus(alloc, &inside)?;
    Ok(is_empty(&others))
}

/// The number of the page that has all addresses of a set, where there is one.
pub fn page_of(alloc: Global, set: &Set) -> Result<Option<u32>, OutOfMemory>
    ensures { IfOk result (λ o. IfSome o (λ page. (x : ℕ) → is_in set.now x ≡ true → x / 2 ^ 12 ≡ page)) }
{
    match set.first_from(0) {
        None => Ok(None),
        Some(first) => {
            let page = first >> 12;
            if is_in_page(alloc, set, page)? {
                return Ok(Some(page));
            }
            Ok(None)
        }
    }
}

/// Indices that the addresses of a set have in their second tables.
pub fn indices_of(alloc: Global, set: &Set) -> Result<Indices, OutOfMemory>
    ensures { IfOk result (λ i. (x : ℕ) → is_in set.now x ≡ true → has_index i.first i.end x ≡ true) }
{
    match page_of(alloc, set)? {
        Some(page) => {
            let first = page % ENTRIES;
            Ok(Indices {
                first,
                end: first + 1,
            })
        }
        None => Ok(Indices {
            first: 0,
            end: ENTRIES,
        }),
    }
}
