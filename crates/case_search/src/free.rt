// Variables of which only one value need be tried.
ghost use Rattle.std.specs.Prelude.{◌≡◌, IsTrue};
ghost use Rattle.case_search.specs.Internal.Free.{IsFirstPassing, IsFree, IsSettled, own_hold, put};

use crate::order::{next_from, rank};
use crate::place::slot_at;
use dom_set::Set;
use fd_narrow::Domains;
use fd_prob::{Assignment, Rel, Slot, holds, mentions};
use rv_isa::Op;

/// Whether each variable that the relation looks at has one value, but for this one.
fn is_settled(doms: &Domains, slot: Slot, rel: &Rel) -> bool
    ensures { IsTrue result → IsSettled doms.now slot rel.now }
{
    for i in 0..14 {
        let other = slot_at(i);
        if other.number() != slot.number()
            && mentions(rel, other)
            && !doms.domain(other).is_single()
        {
            return false;
        }
    }
    true
}

/// Whether the relations that look at the variable look besides only at variables with one value. Then the
/// first value with which they hold is as good as each other one for all that is left.
pub fn is_free(doms: &Domains, slot: Slot, rels: &[Rel]) -> bool
    ensures { IsTrue result → IsFree doms.now slot rels.now }
{
    for rel in rels {
        if mentions(rel, slot) && !is_settled(doms, slot, rel) {
            return false;
        }
    }
    true
}

/// The assignment with another value for the variable.
fn put(x: &Assignment, slot: Slot, value: u32) -> Assignment
    ensures { result ≡ put x.now slot value }
{
    let mut values = x.values;
    values[slot.number()] = value;
    Assignment { values }
}

/// Whether the relations that look at the variable hold.
fn own_hold(op: Op, x: &Assignment, slot: Slot, rels: &[Rel]) -> bool
    ensures { result ≡ own_hold op x.now slot rels.now }
{
    for rel in rels {
        if mentions(rel, slot) && !holds(op, x, rel) {
            return false;
        }
    }
    true
}

/// The first value of a variable, upwards from its pivot, with which the relations that look at it hold. The
/// others' values are those of the assignment.
pub fn first_passing(
    op: Op,
    base: &Assignment,
    slot: Slot,
    rels: &[Rel],
    domain: &Set,
    pivot: u32,
) -> Option<u32>
    ensures { IsFirstPassing (λ w. own_hold op (put base.now slot w) slot rels.now) domain.now pivot result }
{
    domain.element_laws();
    let mut k: u64 = 0;
    while let Some(value) = next_from(domain, pivot, k) {
        if own_hold(op, &put(base, slot, value), slot, rels) {
            return Some(value);
        }
        k = u64::from(rank(pivot, value)) + 1;
    }
    None
}
