// The cases of ways.

ghost use Rattle.std.specs.Prelude.{◌≡◌, ◌∷◌, [], true, false, IfOk, OnOk};
ghost use Rattle.fd_prob.specs.Fitting.{IsCase};
ghost use Rattle.leaf_link.specs.Cases.{all_judged, case_at, uses};
ghost use Rattle.rv_isa.specs.Numbers.{op_number};
ghost use Rattle.leaf_stand.specs.Kinds.{kind_of};
ghost use Rattle.leaf_pose.specs.Posed.{Adds};
ghost use Rattle.leaf_stand.specs.Posed.{FitsSame, allows, is_listed};
ghost use Rattle.leaf_stand.specs.Relations.{are_between, may_aim, may_steer, way_at};
ghost use Rattle.leaf_stand.specs.Stands.{shape_at, turn_of};
ghost use Rattle.leaf_stand.specs.Internal.Ways.{AreWaysOf, IsWayOf, way_case, way_cases};

use crate::relations::relations;
use crate::shaped::Shaped;
use dom_set::OutOfMemory;
use fd_prob::{Case, Items};
use leaf_stand::{Shape, Stand, Way};
use rv_isa::Op;
use std::alloc::Global;
use tpl_ast::{Atom, Var};

/// The case of a way.
pub fn case_of(
    alloc: Global,
    stand: &Stand,
    leaf: &[Atom],
    op: Op,
    way: Way,
) -> Result<Case, OutOfMemory>
    requires built { is_listed (kind_of op) ≡ true }
    requires steered { may_steer op way.taken ≡ true }
    requires aimed { may_aim (uses (shape_at (record { op = op; end = way.end; reaches = false })) Var.Target) way.aim ≡ true }
    requires judged { all_judged (shape_at (record { op = op; end = way.end; reaches = false })) leaf.now ≡ true }
    requires between { are_between leaf.now ≡ true }
    ensures shape { IfOk result IsCase }
    ensures number { IfOk result (λ c. c.op ≡ op_number op) }
    ensures fits { IfOk result (λ c. FitsSame (c ∷ []) (case_at (turn_of stand.now) 0 leaf.now op (way_at stand.now op way) ∷ [])) }
{
    let shape = Shape {
        op,
        end: way.end,
        reaches: false,
    };
    let doms = stand.domains(alloc, leaf, shape, way.reads)?;
    let rels = relations(alloc, stand, leaf, shape, way)?;
    Ok(Case {
        op: op.number(),
        doms: Items::from_vec(doms),
        rels,
    })
}

/// Appends the case of a way, where it is posed.
fn push_way(
    alloc: Global,
    stand: &Stand,
    shaped: &mut Shaped,
    leaf: &[Atom],
    op: Op,
    way: Way,
) -> Result<(), OutOfMemory>
    requires built { is_listed (kind_of op) ≡ true }
    requires between { are_between leaf.now ≡ true }
    requires allowed { allows stand.now leaf.now op ≡ true }
    requires way { IsWayOf stand.now op way }
    ensures { OnOk result (Adds stand.now leaf.now shaped.old shaped.new (way_case stand.now leaf.now op way)) }
{
    let shape = Shape {
        op,
        end: way.end,
        reaches: false,
    };
    if !stand.is_posed(leaf, shape) {
        return Ok(());
    }
    let case = case_of(alloc, stand, leaf, op, way)?;
    shaped.push(case, shape)?;
    Ok(())
}

/// Appends the cases of ways of an operation.
pub fn push_ways(
    alloc: Global,
    stand: &Stand,
    shaped: &mut Shaped,
    leaf: &[Atom],
    op: Op,
    ways: &[Way],
) -> Result<(), OutOfMemory>
    requires built { is_listed (kind_of op) ≡ true }
    requires between { are_between leaf.now ≡ true }
    requires allowed { allows stand.now leaf.now op ≡ true }
    requires ways { AreWaysOf stand.now op ways.now }
    ensures { OnOk result (Adds stand.now leaf.now shaped.old shaped.new (way_cases stand.now leaf.now op ways.now)) }
{
    for way in ways {
        push_way(alloc, stand, shaped, leaf, op, *way)?;
    }
    Ok(())
}
