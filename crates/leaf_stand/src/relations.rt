// Single relations: what an atom says of two variables, a branch of its condition, and registers of their values.

ghost use Rattle.std.specs.Prelude.{◌≡◌, ◌++◌, OnOk};
ghost use Rattle.leaf_stand.specs.Relations.{atom_rel, atom_rels, held_rel, taken_rel};

use crate::shape::slot_of;
use crate::stand::Stand;
use dom_set::OutOfMemory;
use fd_prob::{Items, Rel, Slot};
use std::alloc::Global;
use tpl_ast::Atom;

/// What an atom says of two variables.
fn push_atom(rels: &mut Items<Rel>, atom: &Atom) -> Result<(), OutOfMemory>
    ensures { OnOk result (rels.new ≡ rels.old ++ atom_rel atom.now) }
{
    match atom {
        Atom::Same(var, other) => {
            if let (Some(s), Some(t)) = (slot_of(*var), slot_of(*other)) {
                rels.push(Rel::Same(s, t))?;
            }
        }
        Atom::Differ(var, other) => {
            if let (Some(s), Some(t)) = (slot_of(*var), slot_of(*other)) {
                rels.push(Rel::Differ(s, t))?;
            }
        }
        Atom::Taken => rels.push(Rel::Taken(true))?,
        Atom::NotTaken => rels.push(Rel::Taken(false))?,
        _ => {}
    }
    Ok(())
}

/// What all atoms of a leaf say of two variables.
pub fn push_atoms(rels: &mut Items<Rel>, leaf: &[Atom]) -> Result<(), OutOfMemory>
    ensures { OnOk result (rels.new ≡ rels.old ++ atom_rels leaf.now) }
{
    for atom in leaf {
        push_atom(rels, atom)?;
    }
    Ok(())
}

/// Of a branch, whether it is taken.
pub fn push_taken(rels: &mut Items<Rel>, taken: Option<bool>) -> Result<(), OutOfMemory>
    ensures { OnOk result (rels.new ≡ rels.old ++ taken_rel taken) }
{
    if let Some(taken) = taken {
        rels.push(Rel::Taken(taken))?;
    }
    Ok(())
}

impl Stand<'_> {
    /// What the known values of registers say of a register and its value, where they are used.
    pub fn push_held(
        &self,
        alloc: Global,
        rels: &mut Items<Rel>,
        used: bool,
        index: Slot,
        value: Slot,
    ) -> Result<(), OutOfMemory>
        ensures { OnOk result (rels.new ≡ rels.old ++ held_rel used index value self.now.registers) }
    {
        if used {
            let table = Items::from_slice(alloc, &self.registers)?;
            rels.push(Rel::Holds {
                index,
                value,
                table,
            })?;
        }
        Ok(())
    }
}
