// Cases with narrowed domains.
ghost use Rattle.std.specs.Prelude.{IfOk};
ghost use Rattle.fd_prob.specs.Fitting.{IsCase};
ghost use Rattle.case_search.specs.Equivalent.{IsEquivalent};

use crate::classes::are_contradictory;
use crate::stronger::{can_be_stronger, stronger};
use dom_set::OutOfMemory;
use fd_narrow::{Domains, Losses};
use fd_prob::{Case, Items, Rel};
use std::alloc::Global;

/// The case without rows that have nothing of its domains.
fn with_possible_rows(alloc: Global, case: &Case) -> Result<Case, OutOfMemory>
    requires { IsCase case.now }
    ensures { IfOk result (IsEquivalent case.now) }
{
    let doms = Domains::of(alloc, case)?;
    let rels = doms.possible_relations(alloc, case.rels.as_slice())?;
    Ok(Case {
        op: case.op,
        doms: Items::from_vec(doms.into_sets()),
        rels: Items::from_vec(rels),
    })
}

/// The case with its relations of rows as one. As many rows are made of two lists as pairs of them meet, so those that have
/// nothing of the domains are left out before.
pub(crate) fn with_joined_rows(alloc: Global, case: &Case) -> Result<Case, OutOfMemory>
    requires { IsCase case.now }
    ensures { IfOk result (IsEquivalent case.now) }
{
    let possible = with_possible_rows(alloc, case)?;
    let joined = possible.joined(alloc)?;
    Ok(joined)
}

/// A case with at most one relation of rows.
fn with_one_row(alloc: Global, case: &Case) -> Result<Case, OutOfMemory>
    requires { IsCase case.now }
    ensures { IfOk result (IsEquivalent case.now) }
{
    if case.has_several_rows() {
        let joined = with_joined_rows(alloc, case)?;
        return Ok(joined);
    }
    let same = case.copy(alloc)?;
    Ok(same)
}

/// How many of the first relations, `known`, are not of rows. Where relations of rows are joined, these stay the first ones.
pub(crate) fn known_others(rels: &[Rel], known: usize) -> usize {
    let mut count: usize = 0;
    for (number, rel) in rels.iter().enumerate() {
        if number < known && !matches!(rel, Rel::Rows(_)) {
            count = count.saturating_add(1);
        }
    }
    count
}

/// The case with relations from which more follows at once.
fn with_more(alloc: Global, case: Case) -> Result<Case, OutOfMemory>
    requires { IsCase case }
    ensures { IfOk result (IsEquivalent case) }
{
    if can_be_stronger(&case) {
        let stronger = stronger(alloc, &case)?;
        return Ok(stronger);
    }
    Ok(case)
}

/// The case with domains narrowed by its relations. They were narrowed before by the first ones, `known`, and since then just
/// some variables lost values.
fn with_narrow_domains(
    alloc: Global,
    case: Case,
    known: usize,
    losses: &Losses,
) -> Result<Case, OutOfMemory>
    requires { IsCase case }
    ensures { IfOk result (IsEquivalent case) }
{
    let doms = Domains::of(alloc, &case)?;
    let rels = case.rels.as_slice();
    let narrow = doms.narrowed_from(alloc, case.operation(), rels, known, losses)?;
    let Case { op, rels, .. } = case;
    Ok(Case {
        op,
        doms: Items::from_vec(narrow.into_sets()),
        rels,
    })
}

/// A case of the same operation that the same assignments fit, with domains narrowed by those of its relations that take little
/// time.
pub fn narrow_soon(alloc: Global, case: Case) -> Result<Case, OutOfMemory>
    requires { IsCase case }
    ensures { IfOk result (IsEquivalent case) }
{
    let doms = Domains::of(alloc, &case)?;
    let rels = case.rels.as_slice();
    let narrow = doms.narrowed_soon(alloc, case.operation(), rels)?;
    let Case { op, rels, .. } = case;
    Ok(Case {
        op,
        doms: Items::from_vec(narrow.into_sets()),
        rels,
    })
}

/// A case of the same operation that the same assignments fit, with narrowed domains. Its only error is want of memory.
pub fn narrow_case(alloc: Global, case: &Case) -> Result<Case, OutOfMemory>
    requires { IsCase case.now }
    ensures { IfOk result (IsEquivalent case.now) }
{
    let joined = with_one_row(alloc, case)?;
    let strong = with_more(alloc, joined)?;
    let narrow = with_narrow_domains(alloc, strong, 0, &[true; 14])?;
    Ok(narrow)
}

/// The same of a case whose domains were narrowed before by the first of its relations, as many as `known`. Since then just
/// the variables of `losses` lost values. Where that is not so the same assignments fit still, and only less is narrowed.
pub fn narrow_again(
    alloc: Global,
    case: Case,
    known: usize,
    losses: &Losses,
) -> Result<Case, OutOfMemory>
    requires { IsCase case }
    ensures { IfOk result (IsEquivalent case) }
{
    if are_contradictory(case.rels.as_slice()) {
        return Ok(case);
    }
    if can_be_stronger(&case) {
        return narrow_case(alloc, &case);
    }
    if case.has_several_rows() {
        let others = known_others(case.rels.as_slice(), known);
        let joined = with_one_row(alloc, &case)?;
        let narrow = with_narrow_domains(alloc, joined, others, losses)?;
        return Ok(narrow);
    }
    with_narrow_domains(alloc, case, known, losses)
}
