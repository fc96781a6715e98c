// The pivots of a problem.
ghost use Rattle.std.specs.Prelude.{◌≡◌, ◌<◌, ◌==◌, ℕ, All, IfOk, MatchOption, None, find, length, slice_index};
ghost use Rattle.fd_prob.specs.declared.slot.Slot.{Slot};
ghost use Rattle.fd_prob.specs.Fitting.{IsCase, IsProblem, domain_of};
ghost use Rattle.fd_prob.specs.declared.slot.Slot.TheVariants as slots;
ghost use Rattle.fd_prob.specs.Order.{allowed_ops, draw_of, picked, pivot_of};
ghost use Rattle.fd_prob.specs.Slots.{slot_number};
ghost use Rattle.fd_solve.specs.Laws.{ArePivotsWords, HasWordPicks};
ghost use Rattle.fd_solve.specs.Internal.Operations.{ArePivots};

use case_search::{slot_at, words};
use dom_set::{OutOfMemory, Set};
use fd_prob::{Case, Problem, allowed_case, first_case};
use std::alloc::Global;

/// The numbers of the allowed operations.
fn allowed_ops(alloc: Global, p: &Problem) -> Result<Vec<u8>, OutOfMemory>
    requires { IsProblem p.now }
    ensures { IfOk result (λ v. v.items ≡ allowed_ops p.now) }
{
    let mut ops = Vec::new(alloc);
    for op in 0..58 {
        if let Some(case) = allowed_case(p.cases.as_slice(), op) {
            ops.push(case.op)?;
        }
    }
    Ok(ops)
}

/// The pivot of the operation.
#[tactic(auto, unfolding(fd_prob::specs::Order::pivot_of))]
pub fn operation_pivot(alloc: Global, p: &Problem) -> Result<u8, OutOfMemory>
    requires { IsProblem p.now }
    ensures { IfOk result (λ pivot. (op : ℕ) → pivot ≡ pivot_of p.now op slots.Op) }
{
    let ops = allowed_ops(alloc, p)?;
    let draw = p.pivots[0] as usize;
    if ops.is_empty() {
        Ok(0)
    } else {
        Ok(ops[draw % ops.len()])
    }
}

/// The element of a domain that a draw picks.
fn picked(draw: u32, domain: &Set) -> u32
    ensures { result ≡ picked draw domain.now }
{
    if let Some(value) = domain.only() {
        return value;
    }
    let size = domain.size();
    if size == 0 {
        0
    } else {
        domain.nth(u64::from(draw) % size)
    }
}

/// The pivots of all variables in the first case of an operation, from the operation's own pivot.
fn pivots_in(p: &Problem, first: &Case, pivot: u8) -> [u32; 14]
    requires { IsCase first.now }
    ensures long { length result ≡ 14 }
    ensures operation { slice_index result 0 ≡ pivot }
    ensures others { (s : Slot) → 0 < slot_number s → slice_index result (slot_number s) ≡ picked (draw_of p.now s) (domain_of first.now s) }
{
    let mut pivots = [u32::from(pivot); 14];
    for i in 1..14 {
        pivots[i] = picked(p.pivots[i], first.domain(slot_at(i)));
    }
    pivots
}

/// The pivots of all variables with an operation, from the operation's own pivot, if it has a case.
pub fn pivots_of(p: &Problem, op: u8, pivot: u8) -> Option<[u32; 14]>
    requires problem { IsProblem p.now }
    requires pivot { pivot ≡ pivot_of p.now op slots.Op }
    ensures { MatchOption result (find (λ c. c.op == op) p.now.cases ≡ None) (ArePivots p.now op) }
{
    let first = first_case(p.cases.as_slice(), op)?;
    Some(pivots_in(p, first, pivot))
}

/// Changes nothing. Its contract says that what the draws pick in the domains of a case are words.
fn picks_are_words(p: &Problem, case: &Case)
    requires { IsCase case.now }
    ensures { HasWordPicks p.now case.now }
{
    let pivots = pivots_in(p, case, 0);
    words(&pivots);
}

/// Changes nothing. Its contract says the same of all cases.
fn all_picks_are_words(p: &Problem, cases: &[Case])
    requires { All IsCase cases.now }
    ensures { All (HasWordPicks p.now) cases.now }
{
    for case in cases {
        picks_are_words(p, case);
    }
}

/// Changes nothing. Its contract says that the pivots of the problem are words.
pub fn pivots_are_words(p: &Problem)
    requires { IsProblem p.now }
    ensures { ArePivotsWords p.now }
{
    all_picks_are_words(p, p.cases.as_slice());
}
