// The relations of a case.

ghost use Rattle.std.specs.Prelude.{◌≡◌, ◌++◌, ◌||◌, not, IfOk, OnOk};
ghost use Rattle.leaf_stand.specs.Relations.{AddsTargets, AreRelations, is_aimed, is_anywhere, linked_rel, source_rels, speak_of};
ghost use Rattle.data_bytes.specs.Sets.{IsSetOf};
ghost use Rattle.leaf_stand.specs.Stands.{shape_at};

use dom_set::{OutOfMemory, Set};
use fd_prob::{Items, Rel, Slot};
use leaf_stand::{Aim, FOURS, Shape, Spans, Stand, Way, push_atoms, push_taken, speak_of};
use std::alloc::Global;
use tpl_ast::{Atom, Var};

/// The targets of an aim.
#[tactic(auto, using(crate::proofs::Targets::misaligned_set, leaf_stand::proofs::Sets::power_4))]
fn targets_of(alloc: Global, aim: Aim) -> Result<Set, OutOfMemory>
    ensures { IfOk result (IsSetOf (is_aimed aim)) }
{
    match aim {
        Aim::Anywhere => Spans::up_to(u32::MAX).set(alloc),
        Aim::Aligned => FOURS.set(alloc),
        Aim::Misaligned => Set::from_patterns(alloc, &[(1, 1), (3, 2)]),
    }
}

fn is_anywhere(aim: Aim) -> bool
    ensures { result ≡ is_anywhere aim }
{
    matches!(aim, Aim::Anywhere)
}

/// Whether a leaf or a way says something of the target.
fn asks_of_target(leaf: &[Atom], aim: Aim) -> bool
    ensures { result ≡ (not (is_anywhere aim) || speak_of leaf.now Var.Target) }
{
    !is_anywhere(aim) || speak_of(leaf, Var::Target)
}

fn push_linked(rels: &mut Items<Rel>, both: bool) -> Result<(), OutOfMemory>
    ensures { OnOk result (rels.new ≡ rels.old ++ linked_rel both) }
{
    if both {
        rels.push(Rel::Linked)?;
    }
    Ok(())
}

/// What the source registers say: known values, and that one register has one value.
pub fn push_sources(
    alloc: Global,
    stand: &Stand,
    rels: &mut Items<Rel>,
    shape: Shape,
) -> Result<(), OutOfMemory>
    ensures { OnOk result (rels.new ≡ rels.old ++ source_rels (shape_at shape) stand.now.registers) }
{
    let (first, second) = (shape.uses_rs1(), shape.uses_rs2());
    stand.push_held(alloc, rels, first, Slot::Rs1, Slot::A)?;
    stand.push_held(alloc, rels, second, Slot::Rs2, Slot::B)?;
    push_linked(rels, first && second)?;
    Ok(())
}

/// What the atoms and the way say of the target.
pub fn push_target(
    alloc: Global,
    stand: &Stand,
    rels: &mut Items<Rel>,
    leaf: &[Atom],
    used: bool,
    aim: Aim,
) -> Result<(), OutOfMemory>
    ensures { OnOk result (AddsTargets stand.now leaf.now used aim rels.old rels.new) }
{
    if !used {
        return Ok(());
    }
    if !asks_of_target(leaf, aim) {
        return Ok(());
    }
    let all = targets_of(alloc, aim)?;
    let targets = stand.passing(alloc, all, leaf, Var::Target)?;
    rels.push(Rel::Target(stand.pc, targets))?;
    Ok(())
}

/// The relations of a step: those of its sources, of its atoms, of whether it is taken, and of its target.
pub fn relations(
    alloc: Global,
    stand: &Stand,
    leaf: &[Atom],
    shape: Shape,
    way: Way,
) -> Result<Items<Rel>, OutOfMemory>
    ensures { IfOk result (AreRelations stand.now leaf.now shape way) }
{
    let mut rels = Items::new(alloc);
    push_sources(alloc, stand, &mut rels, shape)?;
    push_atoms(&mut rels, leaf)?;
    push_taken(&mut rels, way.taken)?;
    push_target(alloc, stand, &mut rels, leaf, shape.uses_target(), way.aim)?;
    Ok(rels)
}
