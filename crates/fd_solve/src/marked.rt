// A problem with some of its biases.
ghost use Rattle.std.specs.Prelude.{◌≡◌, ◌<◌, ◌≤◌, ◌==◌, All, IfOk, MatchOption, None, find, if◌then◌else◌, length, slice_index_or, false};
ghost use Rattle.fd_prob.specs.Extras.{extended_case};
ghost use Rattle.fd_prob.specs.Fitting.{IsCase};
ghost use Rattle.fd_prob.specs.Order.{pivot_of};
ghost use Rattle.fd_prob.specs.declared.slot.Slot.TheVariants as slots;
ghost use Rattle.case_search.specs.Equivalent.{IsEquivalent};
ghost use Rattle.fd_solve.specs.Internal.Marks.{IsSound, base_of, marked_case, whole_of};
ghost use Rattle.fd_solve.specs.Internal.Operations.{ArePivots};

use crate::pivots::pivots_of;
use case_search::extended_case;
use dom_set::OutOfMemory;
use fd_prob::{Case, Extra, Problem};
use std::alloc::Global;

/// A problem with those of its biases that are marked. Its cases get what the biases add only when they are searched.
#[derive(Clone, Copy)]
pub struct Marked<'a> {
    pub problem: &'a Problem,
    pub biases: &'a [Extra],
    /// Marks of the first biases; where there are fewer than biases, the others are not marked.
    pub marks: &'a [bool],
    /// How many of the first marks the cases that are searched have already.
    pub from: usize,
    /// A problem with the same first cases of operations, as far as their domains go: they give space and pivots.
    pub firsts: &'a Problem,
}

/// A case that stands for the case with what the bias adds to it, where it is marked.
fn with_bias(
    alloc: Global,
    case: Case,
    place: usize,
    bias: &Extra,
    mark: bool,
) -> Result<Case, OutOfMemory>
    requires case { IsCase case }
    requires entry { place < length bias.now.cases }
    ensures { IfOk result (IsEquivalent (if mark then extended_case bias.now (slice_index_or bias.now.cases place false) case else case)) }
{
    if mark {
        let stays = bias.cases.as_slice()[place];
        let made = extended_case(alloc, case, bias, stays)?;
        return Ok(made);
    }
    Ok(case)
}

/// A case that stands for the one at a place with what the marked biases add to it.
pub fn marked_case(
    alloc: Global,
    case: &Case,
    place: usize,
    biases: &[Extra],
    marks: &[bool],
) -> Result<Case, OutOfMemory>
    requires case { IsCase case.now }
    requires entries { All (λ e. place < length e.cases) biases.now }
    requires marks { length marks.now ≤ length biases.now }
    ensures { IfOk result (IsEquivalent (marked_case marks.now biases.now place case.now)) }
{
    let mut made = case.copy(alloc)?;
    for (i, mark) in marks.iter().enumerate() {
        made = with_bias(alloc, made, place, &biases[i], *mark)?;
    }
    Ok(made)
}

/// The problem that was made, or the given one where none was.
pub fn base_of<'a>(made: &'a Option<Problem>, p: &'a Problem) -> &'a Problem
    ensures { result.now ≡ base_of made.now p.now }
{
    match made {
        Some(made) => made,
        None => p,
    }
}

/// The pivots of all variables with an operation, from the operation's own pivot, if it has a case.
pub fn pivots_with(marked: &Marked, op: u8, pivot: u8) -> Option<[u32; 14]>
    requires sound { IsSound marked.now }
    requires pivot { pivot ≡ pivot_of (whole_of marked.now) op slots.Op }
    ensures { MatchOption result (find (λ c. c.op == op) (whole_of marked.now).cases ≡ None) (ArePivots (whole_of marked.now) op) }
{
    pivots_of(marked.firsts, op, pivot)
}
