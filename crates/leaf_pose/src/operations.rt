// The cases of operations.

ghost use Rattle.std.specs.Prelude.{◌≡◌, true, OnOk};
ghost use Rattle.rv_isa.specs.declared.operation.TheConstants.{OPS};
ghost use Rattle.leaf_pose.specs.Posed.{Adds};
ghost use Rattle.leaf_stand.specs.Posed.{all_cases, are_posable, is_posable, stand_cases, ways_at};
ghost use Rattle.leaf_stand.specs.Relations.{are_between};

use crate::cases::push_ways;
use crate::csrs::push_csrs;
use crate::goals::push_data;
use crate::shaped::Shaped;
use dom_set::OutOfMemory;
use leaf_stand::{Stand, is_data, kind_of};
use rv_isa::{OPS, Op};
use std::alloc::Global;
use tpl_ast::Atom;

/// Appends the cases of an operation, where the atoms and a known word allow it.
fn push_operation(
    alloc: Global,
    stand: &Stand,
    shaped: &mut Shaped,
    leaf: &[Atom],
    op: Op,
) -> Result<(), OutOfMemory>
    requires between { are_between leaf.now ≡ true }
    requires posable { is_posable stand.now leaf.now op ≡ true }
    ensures { OnOk result (Adds stand.now leaf.now shaped.old shaped.new (stand_cases stand.now leaf.now op (ways_at stand.now leaf.now op))) }
{
    if !stand.allows(leaf, op) {
        return Ok(());
    }
    if is_data(op) {
        push_data(alloc, stand, shaped, leaf, op)?;
        return Ok(());
    }
    if op.has_csr() {
        push_csrs(alloc, stand, shaped, leaf, op)?;
        return Ok(());
    }
    let ways = stand.ways_by(kind_of(op));
    push_ways(alloc, stand, shaped, leaf, op, ways)?;
    Ok(())
}

/// Appends the cases of all operations.
pub fn push_operations(
    alloc: Global,
    stand: &Stand,
    shaped: &mut Shaped,
    leaf: &[Atom],
) -> Result<(), OutOfMemory>
    requires between { are_between leaf.now ≡ true }
    requires posable { are_posable stand.now leaf.now ≡ true }
    ensures { OnOk result (Adds stand.now leaf.now shaped.old shaped.new (all_cases stand.now leaf.now OPS)) }
{
    for op in OPS {
        push_operation(alloc, stand, shaped, leaf, op)?;
    }
    Ok(())
}
