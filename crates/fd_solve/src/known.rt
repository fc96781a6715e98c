// What is known of problems, without a search where none is needed.
ghost use Rattle.std.specs.Prelude.{◌≡◌, ◌<◌, ◌≤◌, ◌-◌, nat_lt, true, IfOk, OnOk, length};
ghost use Rattle.fd_prob.specs.Spaces.{space};
ghost use Rattle.fd_solve.specs.Answers.{IsAnswer, NothingFits};
ghost use Rattle.fd_solve.specs.Internal.Equivalent.{AreTried};
ghost use Rattle.fd_solve.specs.Internal.Known.{IsKnown, dropping, fitting_of, has_none, was_spent};
ghost use Rattle.fd_solve.specs.Internal.Marks.{IsSound, whole_of};
ghost use Rattle.fd_solve.specs.Internal.Ready.{IsReady};

use crate::answers::Solved;
use crate::marked::Marked;
use crate::meeting::fits_marked;
use crate::ready::Ready;
use crate::sought::Tried;
use case_search::words;
use dom_set::OutOfMemory;
use fd_prob::{Assignment, space};
use std::alloc::Global;

/// What is known of a problem under a budget.
#[derive(Clone, Copy)]
pub enum Known {
    /// Its answer.
    Answer(Solved),
    /// An assignment that fits it, and that may not be the least one; its space is within the budget.
    Fits(Assignment),
}

impl Known {
    /// Whether it is known that nothing fits.
    fn has_none(&self) -> bool
        ensures { result ≡ has_none self.now }
    {
        match self {
            Known::Answer(Solved::Found(_)) => false,
            Known::Answer(Solved::NoneFits) => true,
            Known::Answer(Solved::Spent) => false,
            Known::Fits(_) => false,
        }
    }

    /// Whether it is known that the budget was spent.
    pub fn was_spent(&self) -> bool
        ensures { result ≡ was_spent self.now }
    {
        match self {
            Known::Answer(Solved::Found(_)) => false,
            Known::Answer(Solved::NoneFits) => false,
            Known::Answer(Solved::Spent) => true,
            Known::Fits(_) => false,
        }
    }

    /// An assignment that fits, where one is known.
    fn fitting(&self) -> Option<Assignment>
        ensures { result ≡ fitting_of self.now }
    {
        match self {
            Known::Answer(Solved::Found(x)) => Some(*x),
            Known::Answer(Solved::NoneFits) => None,
            Known::Answer(Solved::Spent) => None,
            Known::Fits(x) => Some(*x),
        }
    }

    /// Whether a bias with which this is known is to be dropped, and if so whether the budget was spent.
    pub fn dropping(&self) -> Option<bool>
        ensures { result ≡ dropping self.now }
    {
        match self {
            Known::Answer(Solved::Found(_)) => None,
            Known::Answer(Solved::NoneFits) => Some(false),
            Known::Answer(Solved::Spent) => Some(true),
            Known::Fits(_) => None,
        }
    }
}

/// Whether the space of the problem with its marked biases is above the budget. It isn't counted where it is known not to be.
fn is_spent(marked: &Marked, within: bool, nodes: u64) -> bool
    requires sound { IsSound marked.now }
    requires within { within ≡ true → space (whole_of marked.now) ≤ nodes }
    ensures { result ≡ nat_lt nodes (space (whole_of marked.now)) }
{
    !within && nodes < space(marked.firsts)
}

/// What is known of the problem with its marked biases, by what was known of it before the last bias was marked. There is
/// no search where nothing fitted before, nor where the assignment that is known to have fitted still does. The space is
/// not counted where it is known to be within the budget. Beside it the narrow cases that a search made.
pub fn known_after(
    alloc: Global,
    before: &Known,
    ready: &mut Ready,
    marked: &Marked,
    within: bool,
    nodes: u64,
) -> Result<(Known, Tried), OutOfMemory>
    requires sound { IsSound marked.now }
    requires last { 0 < length marked.now.marks.now }
    requires ready { IsReady marked.now.problem.now marked.now.biases.now marked.now.marks.now (length marked.now.marks.now - 1) ready.old }
    requires none { has_none before.now ≡ true → NothingFits (whole_of marked.now) }
    requires within { within ≡ true → space (whole_of marked.now) ≤ nodes }
    ensures known { IfOk result (λ done. IsKnown (whole_of marked.now) nodes done.0) }
    ensures tried { IfOk result (λ done. AreTried (whole_of marked.now).cases done.1.items) }
    ensures ready { OnOk result (IsReady marked.now.problem.now marked.now.biases.now marked.now.marks.now (length marked.now.marks.now - 1) ready.new) }
{
    if is_spent(marked, within, nodes) {
        return Ok((Known::Answer(Solved::Spent), Vec::new(alloc)));
    }
    if before.has_none() {
        return Ok((Known::Answer(Solved::NoneFits), Vec::new(alloc)));
    }
    if let Some(x) = before.fitting() {
        words(&x.values);
        if fits_marked(&x, marked) {
            return Ok((Known::Fits(x), Vec::new(alloc)));
        }
    }
    let done = ready.searched(alloc, marked, marked.marks.len() - 1)?;
    let (solved, tried) = done;
    Ok((Known::Answer(solved), tried))
}

/// The answer of the problem with its marked biases, after what is known of it.
pub fn answer_after(
    alloc: Global,
    known: &Known,
    ready: &mut Ready,
    marked: &Marked,
    nodes: u64,
) -> Result<Solved, OutOfMemory>
    requires sound { IsSound marked.now }
    requires ready { IsReady marked.now.problem.now marked.now.biases.now marked.now.marks.now (length marked.now.marks.now) ready.old }
    requires known { IsKnown (whole_of marked.now) nodes known.now }
    ensures { IfOk result (IsAnswer (whole_of marked.now) nodes) }
{
    match known {
        Known::Answer(solved) => Ok(*solved),
        Known::Fits(_) => {
            let done = ready.searched(alloc, marked, marked.marks.len())?;
            Ok(done.0)
        }
    }
}
