// Which assignments fit a problem.
ghost use Rattle.std.specs.Prelude.{◌≡◌};
ghost use Rattle.std.specs.List.{list_all};
ghost use Rattle.dom_set.specs.Elements.{is_in};
ghost use Rattle.fd_prob.specs.Fitting.{IsCase, IsProblem, domain_of, fits, fits_case, is_within};
ghost use Rattle.fd_prob.specs.Relations.{holds, value_of};

use crate::problem::{Assignment, Case, Problem};
use crate::relation::{Rel, holds};
use crate::slot::{SLOTS, Slot};
use rv_isa::Op;

/// Whether the values of the variables are in their domains.
fn are_within(case: &Case, x: &Assignment, slots: &[Slot]) -> bool
    requires { IsCase case.now }
    ensures { result ≡ list_all (λ s. is_in (domain_of case.now s) (value_of x.now s)) slots.now }
{
    for slot in slots {
        if !case.domain(*slot).has(x.value(*slot)) {
            return false;
        }
    }
    true
}

/// Whether each value is in its domain.
#[tactic(auto, unfolding(crate::specs::Fitting::is_within))]
fn is_within(case: &Case, x: &Assignment) -> bool
    requires { IsCase case.now }
    ensures { result ≡ is_within case.now x.now }
{
    are_within(case, x, &SLOTS)
}

/// Whether all relations hold, in a case of the operation.
pub fn all_hold(op: Op, x: &Assignment, rels: &[Rel]) -> bool
    ensures { result ≡ list_all (holds op x.now) rels.now }
{
    for rel in rels {
        if !holds(op, x, rel) {
            return false;
        }
    }
    true
}

/// Whether the assignment fits the case: it has its operation, each value is in its domain there, and each of its
/// relations holds.
#[tactic(auto, unfolding(crate::specs::Fitting::fits_case))]
pub fn fits_case(x: &Assignment, case: &Case) -> bool
    requires { IsCase case.now }
    ensures { result ≡ fits_case x.now case.now }
{
    u32::from(case.op) == x.value(Slot::Op)
        && is_within(case, x)
        && all_hold(case.operation(), x, case.rels.as_slice())
}

/// Whether the assignment fits the problem: one of its cases.
pub fn fits(p: &Problem, x: &Assignment) -> bool
    requires { IsProblem p.now }
    ensures { result ≡ fits p.now x.now }
{
    for case in p.cases.as_slice() {
        if fits_case(x, case) {
            return true;
        }
    }
    false
}
