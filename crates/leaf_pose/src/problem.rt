// The problem of a leaf.

ghost use Rattle.std.specs.Prelude.{◌≡◌, true, length, IfOk};
ghost use Rattle.fd_prob.specs.Fitting.{IsProblem};
ghost use Rattle.leaf_pose.specs.Posed.{AreShaped};
ghost use Rattle.leaf_stand.specs.Posed.{are_posable};
ghost use Rattle.leaf_pose.specs.Problems.{ArePivots, PosesLeaf};
ghost use Rattle.leaf_stand.specs.Relations.{are_between};

use crate::firsts::push_firsts;
use crate::operations::push_operations;
use crate::shaped::Shaped;
use data_goals::accesses_are_goals;
use dom_set::OutOfMemory;
use fd_prob::{Items, Problem};
use leaf_stand::{Shape, Stand};
use std::alloc::Global;
use tpl_ast::Atom;

/// A leaf's problem, and of each of its cases which operation it is of and how its steps end.
#[derive(Drop)]
pub struct Posed {
    pub problem: Problem,
    pub shapes: Items<Shape>,
}

/// The draws for the variables of problems: those of a turn without the two for its fetch.
fn pivots(draws: &[u32; 16]) -> [u32; 14]
    ensures { ArePivots draws.now result }
{
    [
        draws[2], draws[3], draws[4], draws[5], draws[6], draws[7], draws[8], draws[9], draws[10],
        draws[11], draws[12], draws[13], draws[14], draws[15],
    ]
}

/// The problem that a leaf's mandatory atoms pose where a hart stands.
pub fn problem_of(
    alloc: Global,
    stand: &Stand,
    leaf: &[Atom],
    draws: &[u32; 16],
) -> Result<Posed, OutOfMemory>
    requires between { are_between leaf.now ≡ true }
    requires posable { are_posable stand.now leaf.now ≡ true }
    ensures problem { IfOk result (λ posed. PosesLeaf stand.now leaf.now draws.now posed.problem) }
    ensures shapes { IfOk result (λ posed. AreShaped stand.now leaf.now posed.shapes posed.problem.cases) }
    ensures places { IfOk result (λ posed. length posed.shapes ≡ length posed.problem.cases) }
    ensures cases { IfOk result (λ posed. IsProblem posed.problem) }
{
    accesses_are_goals();
    let mut shaped = Shaped {
        cases: Items::new(alloc),
        shapes: Items::new(alloc),
    };
    push_firsts(alloc, stand, &mut shaped, leaf)?;
    push_operations(alloc, stand, &mut shaped, leaf)?;
    Ok(Posed {
        problem: Problem {
            cases: shaped.cases,
            pivots: pivots(draws),
            pairs: stand.pairs,
            fetch: false,
        },
        shapes: shaped.shapes,
    })
}
