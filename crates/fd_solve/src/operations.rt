// The operations, upwards from their pivot and round to it again.
ghost use Rattle.std.specs.Prelude.{◌≡◌, ◌<◌, ◌≤◌, ◌↔◌, ℕ, IfOk, MatchOption, None, OnOk, length};
ghost use Rattle.fd_prob.specs.declared.problem.Assignment.{Assignment};
ghost use Rattle.fd_prob.specs.declared.slot.Slot.TheVariants as slots;
ghost use Rattle.fd_prob.specs.Fitting.{IsProblem, fits};
ghost use Rattle.fd_prob.specs.Order.{pivot_of};
ghost use Rattle.fd_prob.specs.Spaces.{space};
ghost use Rattle.fd_solve.specs.declared.answers.Solved.TheVariants.{Found, NoneFits, Spent};
ghost use Rattle.fd_solve.specs.Answers.{IsAnswer, IsLeast, NothingFits};
ghost use Rattle.fd_solve.specs.Internal.Equivalent.{AreTried, StandFor};
ghost use Rattle.fd_solve.specs.Internal.Marks.{IsSound, begun_of, whole_of};
ghost use Rattle.fd_solve.specs.Internal.Operations.{IsLeastFrom, IsMadeOfAny, NoneBetween};
ghost use Rattle.case_search.specs.Search.{LeastOrNone};

use crate::Solved;
use crate::cases::solve_cases;
use crate::marked::{Marked, pivots_with};
use crate::pivots::operation_pivot;
use crate::sought::{Narrow, Tried, settle, sought_of};
use dom_set::OutOfMemory;
use fd_prob::{Assignment, Problem, fitting_laws, space};
use std::alloc::Global;

/// The least assignment that has the operation and is of one of the cases, with what the marked biases add to them. Of the
/// cases that stand for the problem's those that are searched are narrowed, and stay so; what is made of them with the marked
/// biases is added to `tried`.
fn solve_operation(
    alloc: Global,
    marked: &Marked,
    narrow: &mut Option<Narrow>,
    tried: &mut Tried,
    op: u8,
    pivots: &[u32; 14],
) -> Result<Option<Assignment>, OutOfMemory>
    requires sound { IsSound marked.now }
    requires from { marked.now.from ≤ length marked.now.marks.now }
    requires idle { narrow.old ≡ None → marked.now.from ≡ 0 }
    requires narrow { StandFor (begun_of marked.now).cases narrow.old }
    requires tried { AreTried (whole_of marked.now).cases tried.old.items }
    ensures least { IfOk result (LeastOrNone pivots.now (IsMadeOfAny op (whole_of marked.now).cases)) }
    ensures narrow { OnOk result (StandFor (begun_of marked.now).cases narrow.new) }
    ensures idle { OnOk result (narrow.new ≡ None → narrow.old ≡ None) }
    ensures tried { OnOk result (AreTried (whole_of marked.now).cases tried.new.items) }
{
    settle(narrow, alloc, marked, op)?;
    let sought = sought_of(narrow, marked.problem);
    let least = solve_cases(alloc, marked, &sought, op, pivots, tried)?;
    Ok(least)
}

/// The first operation of these numbers with which anything fits, and the least assignment of it.
fn solve_between(
    alloc: Global,
    marked: &Marked,
    narrow: &mut Option<Narrow>,
    tried: &mut Tried,
    pivot: u8,
    from: u8,
    to: u8,
) -> Result<Option<Assignment>, OutOfMemory>
    requires sound { IsSound marked.now }
    requires from { marked.now.from ≤ length marked.now.marks.now }
    requires idle { narrow.old ≡ None → marked.now.from ≡ 0 }
    requires narrow { StandFor (begun_of marked.now).cases narrow.old }
    requires tried { AreTried (whole_of marked.now).cases tried.old.items }
    requires pivot { (op : ℕ) → pivot ≡ pivot_of (whole_of marked.now) op slots.Op }
    ensures least { IfOk result (λ o. MatchOption o (NoneBetween (whole_of marked.now) from to) (IsLeastFrom (whole_of marked.now) from)) }
    ensures narrow { OnOk result (StandFor (begun_of marked.now).cases narrow.new) }
    ensures idle { OnOk result (narrow.new ≡ None → narrow.old ≡ None) }
    ensures tried { OnOk result (AreTried (whole_of marked.now).cases tried.new.items) }
{
    fitting_laws();
    for op in from..to {
        if let Some(pivots) = pivots_with(marked, op, pivot) {
            if let Some(x) = solve_operation(alloc, marked, narrow, tried, op, &pivots)? {
                return Ok(Some(x));
            }
        }
    }
    Ok(None)
}

/// The least assignment that fits.
fn least(
    alloc: Global,
    marked: &Marked,
    narrow: &mut Option<Narrow>,
    tried: &mut Tried,
    pivot: u8,
) -> Result<Option<Assignment>, OutOfMemory>
    requires sound { IsSound marked.now }
    requires from { marked.now.from ≤ length marked.now.marks.now }
    requires idle { narrow.old ≡ None → marked.now.from ≡ 0 }
    requires narrow { StandFor (begun_of marked.now).cases narrow.old }
    requires tried { AreTried (whole_of marked.now).cases tried.old.items }
    requires pivot { (op : ℕ) → pivot ≡ pivot_of (whole_of marked.now) op slots.Op }
    ensures least { IfOk result (λ o. MatchOption o (NothingFits (whole_of marked.now)) (IsLeast (whole_of marked.now))) }
    ensures narrow { OnOk result (StandFor (begun_of marked.now).cases narrow.new) }
    ensures idle { OnOk result (narrow.new ≡ None → narrow.old ≡ None) }
    ensures tried { OnOk result (AreTried (whole_of marked.now).cases tried.new.items) }
{
    fitting_laws();
    if let Some(x) = solve_between(alloc, marked, narrow, tried, pivot, pivot, 58)? {
        return Ok(Some(x));
    }
    let lower = solve_between(alloc, marked, narrow, tried, pivot, 0, pivot)?;
    Ok(lower)
}

/// The answer of the problem with its marked biases under each budget that its space is within, by a search of the cases that
/// stand for the problem's. Narrow cases that it makes of these with the marked biases are added to `tried`.
pub fn searched(
    alloc: Global,
    marked: &Marked,
    narrow: &mut Option<Narrow>,
    tried: &mut Tried,
) -> Result<Solved, OutOfMemory>
    requires sound { IsSound marked.now }
    requires from { marked.now.from ≤ length marked.now.marks.now }
    requires idle { narrow.old ≡ None → marked.now.from ≡ 0 }
    requires narrow { StandFor (begun_of marked.now).cases narrow.old }
    requires tried { AreTried (whole_of marked.now).cases tried.old.items }
    ensures solved { IfOk result (λ solved. (nodes : ℕ) → space (whole_of marked.now) ≤ nodes → IsAnswer (whole_of marked.now) nodes solved) }
    ensures narrow { OnOk result (StandFor (begun_of marked.now).cases narrow.new) }
    ensures idle { OnOk result (narrow.new ≡ None → narrow.old ≡ None) }
    ensures tried { OnOk result (AreTried (whole_of marked.now).cases tried.new.items) }
{
    let pivot = operation_pivot(alloc, marked.firsts)?;
    match least(alloc, marked, narrow, tried, pivot)? {
        Some(x) => Ok(Solved::Found(x)),
        None => Ok(Solved::NoneFits),
    }
}

/// The answer of the problem with its marked biases.
pub fn answer_of(alloc: Global, marked: &Marked, nodes: u64) -> Result<Solved, OutOfMemory>
    requires sound { IsSound marked.now }
    requires from { marked.now.from ≡ 0 }
    ensures { IfOk result (IsAnswer (whole_of marked.now) nodes) }
{
    if nodes < space(marked.firsts) {
        return Ok(Solved::Spent);
    }
    let solved = searched(alloc, marked, &mut None, &mut Vec::new(alloc))?;
    Ok(solved)
}

/// The answer of the problem without biases.
pub fn answer_alone(alloc: Global, p: &Problem, nodes: u64) -> Result<Solved, OutOfMemory>
    requires { IsProblem p.now }
    ensures { IfOk result (IsAnswer p.now nodes) }
{
    let marked = Marked {
        problem: p,
        biases: &[],
        marks: &[],
        from: 0,
        firsts: p,
    };
    answer_of(alloc, &marked, nodes)
}

/// The answer of the problem under a budget of `nodes`: `Spent` exactly where the space of the problem
/// exceeds it, and else the least assignment that fits, or `NoneFits` where none does. Assignments are
/// compared variable by variable, each value by how far it stands above the pivot, upwards and round to
/// it again. The pivots are what the problem's draws pick: for the operation, among those that are allowed;
/// for each other variable, in its domain in the first case of the assignment's operation.
pub fn solve(alloc: Global, p: &Problem, nodes: u64) -> Result<Solved, OutOfMemory>
    requires { IsProblem p.now }
    ensures spent { OnOk result ((result ≡ Ok Spent) ↔ (nodes < space p.now)) }
    ensures found { (x : Assignment) → result ≡ Ok (Found x) → IsLeast p.now x }
    ensures none { result ≡ Ok NoneFits → NothingFits p.now }
{
    answer_alone(alloc, p, nodes)
}
