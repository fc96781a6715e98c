// The first cases of operations, by their domains alone.
ghost use Rattle.std.specs.Prelude.{◌≡◌, ◌∷◌, [], ℕ, All, IfOk, OnOk, length, option_map};
ghost use Rattle.std.specs.Option.{option_or};
ghost use Rattle.fd_prob.specs.declared.problem.Problem.{Problem};
ghost use Rattle.fd_prob.specs.Extras.{extended};
ghost use Rattle.fd_prob.specs.Fitting.{IsCase, IsProblem};
ghost use Rattle.fd_solve.specs.Internal.Marks.{HasFirstsOf, cut_case, first_of};

use case_search::cut_by_all;
use dom_set::OutOfMemory;
use fd_prob::{Case, Extra, Items, Problem, copy_sets, first_case};
use std::alloc::Global;

/// The case with its domains cut by the bias, and without relations.
fn cut_case(alloc: Global, case: &Case, bias: &Extra) -> Result<Case, OutOfMemory>
    requires { IsCase case.now }
    ensures { IfOk result (λ made. made ≡ cut_case bias.now case.now) }
{
    let mut doms = copy_sets(alloc, case.doms.as_slice())?;
    cut_by_all(&mut doms, alloc, bias.cuts.as_slice())?;
    Ok(Case {
        op: case.op,
        doms: Items::from_vec(doms),
        rels: Items::new(alloc),
    })
}

/// Adds the case with its domains cut, if it is the first one of its operation.
fn push_first(
    made: &mut Vec<Case>,
    alloc: Global,
    case: &Case,
    bias: &Extra,
) -> Result<(), OutOfMemory>
    requires case { IsCase case.now }
    requires cases { All IsCase made.old.items }
    ensures cases { OnOk result (All IsCase made.new.items) }
    ensures first { OnOk result ((op : ℕ) → first_of made.new.items op ≡ option_or (first_of made.old.items op) (option_map (cut_case bias.now) (first_of (case.now ∷ []) op))) }
{
    if first_case(made, case.op).is_some() {
        return Ok(());
    }
    made.push(cut_case(alloc, case, bias)?)?;
    Ok(())
}

/// The first case of each operation, with its domains cut by the bias and without relations.
pub fn cut_firsts(alloc: Global, cases: &[Case], bias: &Extra) -> Result<Vec<Case>, OutOfMemory>
    requires { All IsCase cases.now }
    ensures cases { IfOk result (λ made. All IsCase made.items) }
    ensures firsts { IfOk result (λ made. (op : ℕ) → first_of made.items op ≡ option_map (cut_case bias.now) (first_of cases.now op)) }
{
    let mut made = Vec::new(alloc);
    for case in cases {
        push_first(&mut made, alloc, case, bias)?;
    }
    Ok(made)
}

/// The problem's first cases with their domains cut by the bias. They stand for the first cases of each problem with the
/// bias whose own first cases the given one's stand for.
pub fn cut_problem(alloc: Global, p: &Problem, bias: &Extra) -> Result<Problem, OutOfMemory>
    requires { IsProblem p.now }
    ensures problem { IfOk result IsProblem }
    ensures firsts { IfOk result (λ made. (whole : Problem) → HasFirstsOf whole p.now → length bias.now.cases ≡ length whole.cases → HasFirstsOf (extended bias.now whole) made) }
{
    let cases = cut_firsts(alloc, p.cases.as_slice(), bias)?;
    Ok(Problem {
        cases: Items::from_vec(cases),
        pivots: p.pivots,
        pairs: p.pairs,
        fetch: p.fetch,
    })
}
