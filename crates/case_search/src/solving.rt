// The least assignment of a case.
ghost use Rattle.std.specs.Prelude.{IfOk};
ghost use Rattle.fd_prob.specs.Fitting.{IsCase};
ghost use Rattle.case_search.specs.Search.{IsMadeOf, LeastOrNone};

use crate::classes::are_contradictory;
use crate::narrowing::{known_others, with_joined_rows};
use crate::search::{search, with_value};
use crate::stronger::{can_be_stronger, stronger};
use dom_set::OutOfMemory;
use fd_narrow::{Domains, Losses};
use fd_prob::{Assignment, Case, Slot};
use std::alloc::Global;

/// The least assignment that is of the case, by a search of the case as it stands. Its domains were narrowed before by the
/// first of its relations, `known`, and since then just some variables lost values.
fn least_of(
    alloc: Global,
    case: &Case,
    pivots: &[u32; 14],
    known: usize,
    losses: &Losses,
) -> Result<Option<Assignment>, OutOfMemory>
    requires { IsCase case.now }
    ensures { IfOk result (LeastOrNone pivots.now (IsMadeOf case.now)) }
{
    let op = u32::from(case.op);
    if !case.domain(Slot::Op).has(op) {
        return Ok(None);
    }
    let doms = Domains::of(alloc, case)?;
    let doms = with_value(alloc, case, doms, Slot::Op, op, known, losses)?;
    let least = search(alloc, case, pivots, &doms, 0)?;
    Ok(least)
}

/// The least assignment that is of the case, by a search of the case with relations from which more follows at once. There
/// is no search where variables are to have one value and two.
fn solve_joined(
    alloc: Global,
    case: &Case,
    pivots: &[u32; 14],
) -> Result<Option<Assignment>, OutOfMemory>
    requires { IsCase case.now }
    ensures { IfOk result (LeastOrNone pivots.now (IsMadeOf case.now)) }
{
    if are_contradictory(case.rels.as_slice()) {
        return Ok(None);
    }
    if can_be_stronger(case) {
        let stronger = stronger(alloc, case)?;
        let least = least_of(alloc, &stronger, pivots, 0, &[true; 14])?;
        return Ok(least);
    }
    least_of(alloc, case, pivots, 0, &[true; 14])
}

/// The least assignment that is of the case, or None where there is none. Assignments are compared variable by variable,
/// each value by how far it stands above the variable's pivot, upwards and round to it again; the pivots stand in the order
/// of the variables. Several relations of rows are joined first: each of them alone would leave values that the others rule
/// out, and they would be tried one by one. Its only error is want of memory.
pub fn solve_case(
    alloc: Global,
    case: &Case,
    pivots: &[u32; 14],
) -> Result<Option<Assignment>, OutOfMemory>
    requires { IsCase case.now }
    ensures { IfOk result (LeastOrNone pivots.now (IsMadeOf case.now)) }
{
    if case.has_several_rows() {
        let joined = with_joined_rows(alloc, case)?;
        let least = solve_joined(alloc, &joined, pivots)?;
        return Ok(least);
    }
    solve_joined(alloc, case, pivots)
}

/// The same of a case whose domains were narrowed before by the first of its relations, as many as `known`. Since then just
/// the variables of `losses` lost values. Where that is not so the answer is the same, and only the search may be longer.
pub fn solve_again(
    alloc: Global,
    case: &Case,
    pivots: &[u32; 14],
    known: usize,
    losses: &Losses,
) -> Result<Option<Assignment>, OutOfMemory>
    requires { IsCase case.now }
    ensures { IfOk result (LeastOrNone pivots.now (IsMadeOf case.now)) }
{
    if can_be_stronger(case) || are_contradictory(case.rels.as_slice()) {
        return solve_case(alloc, case, pivots);
    }
    if case.has_several_rows() {
        let others = known_others(case.rels.as_slice(), known);
        let joined = with_joined_rows(alloc, case)?;
        let least = least_of(alloc, &joined, pivots, others, losses)?;
        return Ok(least);
    }
    least_of(alloc, case, pivots, known, losses)
}
