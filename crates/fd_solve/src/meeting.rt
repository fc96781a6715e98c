// Whether an assignment fits a problem with its marked biases, on the parts of the problem.
ghost use Rattle.std.specs.Prelude.{◌≡◌, ◌<◌, ◌≤◌, ◌||◌, not, All, length};
ghost use Rattle.std.specs.List.{list_all};
ghost use Rattle.fd_prob.specs.Fitting.{IsCase, fits, fits_case};
ghost use Rattle.fd_solve.specs.Internal.Marks.{IsSound, marked_case, whole_of};
ghost use Rattle.fd_solve.specs.Internal.Meeting.{is_in_cut, meets_bias, meets_marked};

use crate::marked::Marked;
use dom_set::Set;
use fd_prob::{Assignment, Case, Extra, Slot, all_hold, fits_case};
use rv_isa::Op;

/// Whether the values are in the sets that domains are cut to.
fn are_in_cuts(x: &Assignment, cuts: &[(Slot, Set)]) -> bool
    ensures { result ≡ list_all (is_in_cut x.now) cuts.now }
{
    for (slot, set) in cuts {
        if !set.has(x.value(*slot)) {
            return false;
        }
    }
    true
}

/// Whether the assignment meets what the bias adds to the case at a place, which is of this operation.
fn meets_bias(op: Op, x: &Assignment, place: usize, bias: &Extra) -> bool
    requires { place < length bias.now.cases }
    ensures { result ≡ meets_bias op x.now place bias.now }
{
    bias.cases.as_slice()[place]
        && are_in_cuts(x, bias.cuts.as_slice())
        && all_hold(op, x, bias.rels.as_slice())
}

/// The same of the bias, where it is marked.
fn meets_mark(op: Op, x: &Assignment, place: usize, bias: &Extra, mark: bool) -> bool
    requires { place < length bias.now.cases }
    ensures { result ≡ (not mark || meets_bias op x.now place bias.now) }
{
    !mark || meets_bias(op, x, place, bias)
}

/// The same of each marked bias.
fn meets_marked(op: Op, x: &Assignment, place: usize, marks: &[bool], biases: &[Extra]) -> bool
    requires entries { All (λ e. place < length e.cases) biases.now }
    requires marks { length marks.now ≤ length biases.now }
    ensures { result ≡ meets_marked op x.now place marks.now biases.now }
{
    for (i, mark) in marks.iter().enumerate() {
        if !meets_mark(op, x, place, &biases[i], *mark) {
            return false;
        }
    }
    true
}

/// Whether the assignment fits the case at a place with what the marked biases add to it.
#[tactic(auto, using(crate::proofs::FittingMarks::all_marks))]
fn fits_marked_case(x: &Assignment, marked: &Marked, case: &Case, place: usize) -> bool
    requires case { IsCase case.now }
    requires entries { All (λ e. place < length e.cases) marked.now.biases.now }
    requires marks { length marked.now.marks.now ≤ length marked.now.biases.now }
    ensures { result ≡ fits_case x.now (marked_case marked.now.marks.now marked.now.biases.now place case.now) }
{
    fits_case(x, case) && meets_marked(case.operation(), x, place, marked.marks, marked.biases)
}

/// Whether the assignment fits the problem with its marked biases.
pub fn fits_marked(x: &Assignment, marked: &Marked) -> bool
    requires { IsSound marked.now }
    ensures { result ≡ fits (whole_of marked.now) x.now }
{
    for (place, case) in marked.problem.cases.as_slice().iter().enumerate() {
        if fits_marked_case(x, marked, case, place) {
            return true;
        }
    }
    false
}
