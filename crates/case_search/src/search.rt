// The search in the domains of one case.
ghost use Rattle.std.specs.Prelude.{◌≡◌, ◌<◌, ◌≤◌, ◌↔◌, ◌^◌, ℕ, All, IfOk, IsTrue, List, MatchOption};
ghost use Rattle.dom_set.specs.Elements.{is_in};
ghost use Rattle.fd_narrow.specs.Narrowing.{IsInside, domain_in};
ghost use Rattle.fd_prob.specs.declared.problem.Assignment.{Assignment};
ghost use Rattle.fd_prob.specs.Fitting.{IsCase};
ghost use Rattle.fd_prob.specs.Order.{IsAssignment};
ghost use Rattle.case_search.specs.Search.{FixedBelow, IsCut, IsMet, LeastOrNone};

use crate::easier::without;
use crate::free::{first_passing, is_free};
use crate::order::{next_from, rank};
use crate::place::slot_at;
use crate::skipping::first_let;
use dom_set::{OutOfMemory, Set, set_laws};
use fd_narrow::{Domains, Losses};
use fd_prob::{Assignment, Case, Slot, all_hold};
use std::alloc::Global;

/// The set of one number.
fn only(alloc: Global, value: u32) -> Result<Set, OutOfMemory>
    ensures { IfOk result (λ s. (w : ℕ) → IsTrue (is_in s w) ↔ (w ≡ value)) }
{
    set_laws();
    let set = Set::from_ranges(alloc, &[(value, value)], 1)?;
    Ok(set)
}

/// The domains with one value for a variable, narrowed by the relations of the case, where they were narrowed before by the
/// first ones, `known`, and since then just some variables lost values.
pub fn with_value(
    alloc: Global,
    case: &Case,
    doms: Domains,
    slot: Slot,
    value: u32,
    known: usize,
    losses: &Losses,
) -> Result<Domains, OutOfMemory>
    requires case { IsCase case.now }
    requires element { IsTrue (is_in (domain_in doms slot) value) }
    ensures { IfOk result (IsCut case.now doms slot value) }
{
    let mut cut = doms;
    // `count` says that there is a domain at the variable's place.
    let _count = cut.count();
    cut.set(slot, only(alloc, value)?);
    let narrowed = cut.narrowed_from(alloc, case.operation(), case.rels.as_slice(), known, losses)?;
    Ok(narrowed)
}

/// Does nothing. Its contract says that the values are words.
pub fn words(values: &[u32])
    ensures { All (λ v. v < 2 ^ 32) values.now }
{
    let _ = values;
}

/// Just the variable at the place lost values.
fn loss_at(place: usize) -> Losses
    requires { place < 14 }
{
    let mut losses = [false; 14];
    losses[place] = true;
    losses
}

/// Values that are in the domains, unless one of these is empty.
fn lowest(doms: &Domains) -> Option<Assignment>
    ensures { MatchOption result ((y : Assignment) → IsInside doms.now y → ⊥) (λ x. IsAssignment x × IsInside doms.now x) }
{
    let mut values = [0; 14];
    for i in 0..14 {
        values[i] = doms.domain(slot_at(i)).first_from(0)?;
    }
    words(&values);
    Some(Assignment { values })
}

/// The only assignment that is in the domains, if it meets the relations of the case.
fn last(case: &Case, doms: &Domains) -> Option<Assignment>
    requires case { IsCase case.now }
    requires fixed { FixedBelow doms.now 14 }
    ensures { (pivots : List ℕ) → LeastOrNone pivots (IsMet case.now doms.now) result }
{
    let x = lowest(doms)?;
    if all_hold(case.operation(), &x, case.rels.as_slice()) {
        Some(x)
    } else {
        None
    }
}

/// The least assignment that is in the domains and meets the relations of the case, where the variables
/// before this place have one value each.
pub fn search(
    alloc: Global,
    case: &Case,
    pivots: &[u32; 14],
    doms: &Domains,
    place: usize,
) -> Result<Option<Assignment>, OutOfMemory>
    requires case { IsCase case.now }
    requires place { place ≤ 14 }
    requires fixed { FixedBelow doms.now place }
    ensures { IfOk result (LeastOrNone pivots.now (IsMet case.now doms.now)) }
{
    if place == 14 {
        return Ok(last(case, doms));
    }
    let slot = slot_at(place);
    let domain = doms.domain(slot);
    if domain.is_single() {
        return search(alloc, case, pivots, doms, place + 1);
    }
    // Where a domain is empty there is nothing to look for.
    let Some(base) = lowest(doms) else {
        return Ok(None);
    };
    let pivot = pivots[place];
    let losses = loss_at(place);
    let rels = case.rels.as_slice();
    if is_free(doms, slot, rels) {
        let Some(value) = first_passing(case.operation(), &base, slot, rels, domain, pivot) else {
            return Ok(None);
        };
        let cut = with_value(
            alloc,
            case,
            doms.copy(alloc)?,
            slot,
            value,
            rels.len(),
            &losses,
        )?;
        let least = search(alloc, case, pivots, &cut, place + 1)?;
        return Ok(least);
    }
    let first = first_let(domain, slot, rels, pivot, 0);
    let mut k = first;
    while let Some(value) = next_from(domain, pivot, k) {
        let cut = with_value(
            alloc,
            case,
            doms.copy(alloc)?,
            slot,
            value,
            rels.len(),
            &losses,
        )?;
        if let Some(x) = search(alloc, case, pivots, &cut, place + 1)? {
            return Ok(Some(x));
        }
        // Where there is nothing even without the relations that look at the variable, no other value helps.
        if k == first {
            let easier = without(alloc, case, slot)?;
            let fixed = with_value(
                alloc,
                &easier,
                doms.copy(alloc)?,
                slot,
                value,
                rels.len(),
                &losses,
            )?;
            if search(alloc, &easier, pivots, &fixed, place + 1)?.is_none() {
                return Ok(None);
            }
        }
        k = first_let(domain, slot, rels, pivot, u64::from(rank(pivot, value)) + 1);
    }
    Ok(None)
}
