// What a bias that nothing fits tells of the cases: where it asks for values of one variable alone, no case that stays has one
// of these.
ghost use Rattle.std.specs.Prelude.{◌≡◌, ◌<◌, ◌^◌, ℕ, false, true, IfOk, IfSome, slice_index_or, slice_set};
ghost use Rattle.std.specs.List.{list_all};
ghost use Rattle.dom_set.specs.Elements.{is_in};
ghost use Rattle.rv_isa.specs.declared.operation.Op.{Op};
ghost use Rattle.fd_prob.specs.declared.problem.Assignment.{Assignment};
ghost use Rattle.fd_prob.specs.declared.problem.Case.{Case};
ghost use Rattle.fd_prob.specs.Fitting.{IsCase};
ghost use Rattle.fd_prob.specs.Order.{IsAssignment};
ghost use Rattle.fd_prob.specs.Slots.{slot_number};
ghost use Rattle.fd_prob.specs.Relations.{holds, is_in_row, value_of};
ghost use Rattle.fd_solve.specs.Internal.Equivalent.{StandsIn};
ghost use Rattle.fd_solve.specs.Internal.Meeting.{is_in_cut};
ghost use Rattle.fd_solve.specs.Internal.Asking.{AsksFor, HasNone, with_doms};

use dom_set::{OutOfMemory, Set, set_laws};
use fd_prob::{Case, Extra, Items, Quad, Rel, Slot};
use std::alloc::Global;

/// Whether each word is an element.
fn has_all(alloc: Global, set: &Set) -> Result<bool, OutOfMemory>
    ensures { IfOk result (λ all. all ≡ true → (v : ℕ) → v < 2 ^ 32 → is_in set.now v ≡ true) }
{
    set_laws();
    let words = Set::all(alloc)?;
    let rest = words.minus(alloc, set)?;
    Ok(rest.is_empty())
}

/// The addresses with which the row is had, where it asks for nothing else.
fn asked_by_row(alloc: Global, row: &Quad) -> Result<Option<(Slot, Set)>, OutOfMemory>
    ensures { IfOk result (λ asked. IfSome asked (λ told. (x : Assignment) → IsAssignment x → is_in told.1 (value_of x told.0) ≡ true → is_in_row x row.now ≡ true)) }
{
    if has_all(alloc, &row.root)? && has_all(alloc, &row.leaf)? && has_all(alloc, &row.word)? {
        let ea = row.ea.copy(alloc)?;
        return Ok(Some((Slot::Ea, ea)));
    }
    Ok(None)
}

/// The values of a variable with which the relation holds, where it is one row and asks for nothing else.
fn asked_by_rel(alloc: Global, rel: &Rel) -> Result<Option<(Slot, Set)>, OutOfMemory>
    ensures { IfOk result (λ asked. IfSome asked (λ told. (op : Op) (x : Assignment) → IsAssignment x → is_in told.1 (value_of x told.0) ≡ true → holds op x rel.now ≡ true)) }
{
    let Rel::Rows(rows) = rel else {
        return Ok(None);
    };
    match rows.as_slice() {
        [row] => asked_by_row(alloc, row),
        _ => Ok(None),
    }
}

/// The same of relations: of one alone.
fn asked_by_rels(alloc: Global, rels: &[Rel]) -> Result<Option<(Slot, Set)>, OutOfMemory>
    ensures { IfOk result (λ asked. IfSome asked (λ told. (op : Op) (x : Assignment) → IsAssignment x → is_in told.1 (value_of x told.0) ≡ true → list_all (holds op x) rels.now ≡ true)) }
{
    match rels {
        [rel] => asked_by_rel(alloc, rel),
        _ => Ok(None),
    }
}

/// The values that a domain is cut to, where it is the only one.
fn asked_by_cuts(alloc: Global, cuts: &[(Slot, Set)]) -> Result<Option<(Slot, Set)>, OutOfMemory>
    ensures { IfOk result (λ asked. IfSome asked (λ told. (x : Assignment) → is_in told.1 (value_of x told.0) ≡ true → list_all (is_in_cut x) cuts.now ≡ true)) }
{
    match cuts {
        [cut] => {
            let set = cut.1.copy(alloc)?;
            Ok(Some((cut.0, set)))
        }
        _ => Ok(None),
    }
}

/// A variable, and values of it with which the bias is met in each case that stays, where it asks for nothing else.
pub fn asked_by(alloc: Global, bias: &Extra) -> Result<Option<(Slot, Set)>, OutOfMemory>
    ensures { IfOk result (λ asked. IfSome asked (λ told. AsksFor bias.now told.0 told.1)) }
{
    if bias.rels.as_slice().is_empty() {
        let asked = asked_by_cuts(alloc, bias.cuts.as_slice())?;
        return Ok(asked);
    }
    if bias.cuts.as_slice().is_empty() {
        let asked = asked_by_rels(alloc, bias.rels.as_slice())?;
        return Ok(asked);
    }
    Ok(None)
}

/// Whether the case at a place stays with the bias.
pub fn stays(bias: &Extra, place: usize) -> bool
    ensures { result ≡ slice_index_or bias.now.cases place false }
{
    match bias.cases.as_slice().get(place) {
        Some(stays) => *stays,
        None => false,
    }
}

/// How many pieces more a domain may come to where it loses values.
const MORE: usize = 256;

/// Whether there are fewer elements, and not many more pieces.
fn is_less(left: &Set, domain: &Set) -> bool {
    left.size() != domain.size() && left.pieces() <= domain.pieces().saturating_add(MORE)
}

/// The case with another domain for a variable.
fn with_domain(alloc: Global, case: &Case, slot: Slot, set: Set) -> Result<Case, OutOfMemory>
    requires { IsCase case.now }
    ensures { IfOk result (λ made. made ≡ with_doms case.now (slice_set case.now.doms (slot_number slot) set)) }
{
    let Case { op, doms, rels } = case.copy(alloc)?;
    let mut doms = doms.into_vec();
    doms[slot.number()] = set;
    Ok(Case {
        op,
        doms: Items::from_vec(doms),
        rels,
    })
}

/// The case without values of a variable, where nothing that fits it has one of these. None where it would have none fewer, or
/// many more pieces.
pub fn less(alloc: Global, case: &Case, slot: Slot, set: &Set) -> Result<Option<Case>, OutOfMemory>
    requires case { IsCase case.now }
    requires none { HasNone slot set.now case.now }
    ensures { IfOk result (λ made. IfSome made (StandsIn case.now)) }
{
    let domain = case.domain(slot);
    if domain.and(alloc, set)?.is_empty() {
        return Ok(None);
    }
    let left = domain.minus(alloc, set)?;
    if !is_less(&left, domain) {
        return Ok(None);
    }
    let made = with_domain(alloc, case, slot, left)?;
    Ok(Some(made))
}
