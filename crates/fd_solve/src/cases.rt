// The cases of one operation.
ghost use Rattle.std.specs.Prelude.{◌≡◌, ◌<◌, ◌≤◌, All, IfOk, List, MatchOption, OnOk, false, length, true};
ghost use Rattle.rv_isa.specs.declared.operation.Op.{Op};
ghost use Rattle.fd_prob.specs.declared.problem.Assignment.{Assignment};
ghost use Rattle.fd_prob.specs.declared.problem.Case.{Case};
ghost use Rattle.fd_prob.specs.Fitting.{IsCase, fits_case};
ghost use Rattle.fd_prob.specs.Relations.{holds};
ghost use Rattle.fd_solve.specs.Internal.Equivalent.{AreEquivalent, AreTried, IsTried};
ghost use Rattle.fd_solve.specs.Internal.Marks.{IsSound, begun_of, marked_case, whole_of};
ghost use Rattle.case_search.specs.Search.{Before, IsMadeOf, LeastOrNone};
ghost use Rattle.fd_solve.specs.Internal.Operations.{IsMadeOfAny};

use crate::barred::is_barred;
use crate::marked::{Marked, marked_case};
use crate::sought::{Narrowing, Sought, Tried, losses_by};
use case_search::{lesser, may_precede, narrow_again, solve_again, solve_case};
use dom_set::OutOfMemory;
use fd_prob::{Assignment, Case, Extra, Rel};
use std::alloc::Global;

/// The least assignment that is of a case whose domains are narrow.
fn solve_narrow(
    alloc: Global,
    case: &Case,
    pivots: &[u32; 14],
) -> Result<Option<Assignment>, OutOfMemory>
    requires { IsCase case.now }
    ensures { IfOk result (LeastOrNone pivots.now (IsMadeOf case.now)) }
{
    let known = case.rels.as_slice().len();
    solve_again(alloc, case, pivots, known, &losses_by(&[], &[]))
}

/// Whether the relation is one of no row, which never holds.
fn has_no_row(rel: &Rel) -> bool
    ensures { result ≡ true → (op : Op) (x : Assignment) → holds op x rel.now ≡ false }
{
    match rel {
        Rel::Rows(rows) => rows.as_slice().is_empty(),
        _ => false,
    }
}

/// Whether one of the case's relations is of no row, so that nothing fits the case.
fn is_dead(case: &Case) -> bool
    ensures { result ≡ true → (x : Assignment) → fits_case x case.now ≡ false }
{
    for rel in case.rels.as_slice() {
        if has_no_row(rel) {
            return true;
        }
    }
    false
}

/// The least assignment that is of the narrow case at a place, with what the marked biases add to it. The case that is made
/// for that is noted, but for one that is seen to fit nothing before it is narrowed.
fn try_narrow(
    alloc: Global,
    biases: &[Extra],
    marks: &[bool],
    case: &Case,
    place: usize,
    pivots: &[u32; 14],
    narrowing: &Narrowing,
    tried: &mut Tried,
) -> Result<Option<Assignment>, OutOfMemory>
    requires case { IsCase case.now }
    requires entries { All (λ e. place < length e.cases) biases.now }
    requires marks { length marks.now ≤ length biases.now }
    ensures least { IfOk result (LeastOrNone pivots.now (IsMadeOf (marked_case marks.now biases.now place case.now))) }
    ensures tried { OnOk result ((cases : List Case) → IsTried cases (place, marked_case marks.now biases.now place case.now) → AreTried cases tried.old.items → AreTried cases tried.new.items) }
{
    let made = marked_case(alloc, case, place, biases, marks)?;
    if is_dead(&made) {
        return Ok(None);
    }
    let since = narrowing.with(&losses_by(biases, marks));
    let narrow = narrow_again(alloc, made, since.known, &since.losses)?;
    let least = solve_narrow(alloc, &narrow, pivots)?;
    tried.push((place, narrow))?;
    Ok(least)
}

/// The least assignment that is of the case at a place, with what the marked biases add to it.
fn solve_marked(
    alloc: Global,
    biases: &[Extra],
    marks: &[bool],
    case: &Case,
    place: usize,
    pivots: &[u32; 14],
    narrowing: Option<Narrowing>,
    tried: &mut Tried,
) -> Result<Option<Assignment>, OutOfMemory>
    requires case { IsCase case.now }
    requires entries { All (λ e. place < length e.cases) biases.now }
    requires marks { length marks.now ≤ length biases.now }
    ensures least { IfOk result (LeastOrNone pivots.now (IsMadeOf (marked_case marks.now biases.now place case.now))) }
    ensures tried { OnOk result ((cases : List Case) → IsTried cases (place, marked_case marks.now biases.now place case.now) → AreTried cases tried.old.items → AreTried cases tried.new.items) }
{
    if is_barred(alloc, biases, marks, case, place)? {
        return Ok(None);
    }
    match narrowing {
        Some(narrowing) => {
            if marks.is_empty() {
                return solve_narrow(alloc, case, pivots);
            }
            try_narrow(alloc, biases, marks, case, place, pivots, &narrowing, tried)
        }
        None => {
            if marks.is_empty() {
                return solve_case(alloc, case, pivots);
            }
            let made = marked_case(alloc, case, place, biases, marks)?;
            solve_case(alloc, &made, pivots)
        }
    }
}

/// Whether an assignment of the case may come before the best one so far, or be the first one.
fn may_lead(case: &Case, pivots: &[u32; 14], best: Option<Assignment>) -> bool
    requires { IsCase case.now }
    ensures { result ≡ false → MatchOption best ⊥ (λ b. (x : Assignment) → IsMadeOf case.now x → Before pivots.now x b → ⊥) }
{
    match best {
        Some(best) => may_precede(case, pivots, &best),
        None => true,
    }
}

/// The least assignment that has the operation and is of one of the cases, with what the marked biases add to them. The cases
/// that are searched stand for those of the problem with the first marks; one of which nothing can come before the best so far is passed over.
/// Where they are narrow, what is made of them with marked biases is narrow too, and is added to `tried`.
pub fn solve_cases(
    alloc: Global,
    marked: &Marked,
    sought: &Sought,
    op: u8,
    pivots: &[u32; 14],
    tried: &mut Tried,
) -> Result<Option<Assignment>, OutOfMemory>
    requires sound { IsSound marked.now }
    requires from { marked.now.from ≤ length marked.now.marks.now }
    requires cases { AreEquivalent (begun_of marked.now).cases sought.now.cases.now }
    requires tried { AreTried (whole_of marked.now).cases tried.old.items }
    ensures least { IfOk result (LeastOrNone pivots.now (IsMadeOfAny op (whole_of marked.now).cases)) }
    ensures tried { OnOk result (AreTried (whole_of marked.now).cases tried.new.items) }
{
    let biases = &marked.biases[marked.from..];
    let marks = &marked.marks[marked.from..];
    let mut best = None;
    for (place, case) in sought.cases.iter().enumerate() {
        if case.op == op && may_lead(case, pivots, best) {
            let least = solve_marked(
                alloc,
                biases,
                marks,
                case,
                place,
                pivots,
                sought.narrowing(place),
                tried,
            )?;
            best = lesser(pivots, best, least);
        }
    }
    Ok(best)
}
