// The first cases of operations: what counts for the space of a problem and for the order of its assignments.

ghost use Rattle.std.specs.Prelude.{◌∷◌, [], OnOk};
ghost use Rattle.rv_isa.specs.declared.operation.TheConstants.{OPS};
ghost use Rattle.leaf_pose.specs.Internal.Firsts.{AddsFirsts};

use crate::shaped::Shaped;
use dom_set::OutOfMemory;
use leaf_stand::{End, Shape, Stand};
use rv_isa::{OPS, Op};
use std::alloc::Global;
use tpl_ast::Atom;

/// Appends the first case of an operation, where the atoms and a known word allow it.
fn push_first(
    alloc: Global,
    stand: &Stand,
    shaped: &mut Shaped,
    leaf: &[Atom],
    op: Op,
) -> Result<(), OutOfMemory>
    ensures { OnOk result (AddsFirsts stand.now leaf.now (op ∷ []) shaped.old shaped.new) }
{
    if !stand.allows(leaf, op) {
        return Ok(());
    }
    let case = stand.first_case(alloc, leaf, op)?;
    let shape = Shape {
        op,
        end: End::Retires,
        reaches: false,
    };
    shaped.push(case, shape)?;
    Ok(())
}

/// Appends the first cases of all operations.
pub fn push_firsts(
    alloc: Global,
    stand: &Stand,
    shaped: &mut Shaped,
    leaf: &[Atom],
) -> Result<(), OutOfMemory>
    ensures { OnOk result (AddsFirsts stand.now leaf.now OPS shaped.old shaped.new) }
{
    for op in OPS {
        push_first(alloc, stand, shaped, leaf, op)?;
    }
    Ok(())
}
