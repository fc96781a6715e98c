// The atoms of a leaf.
ghost use Rattle.std.specs.Prelude.{◌≡◌, ◌++◌, ◌∷◌, [], map, if◌then◌else◌, IfOk};
ghost use Rattle.std.specs.List.{list_any};
ghost use Rattle.tpl_admit.specs.Admitting.{fixes_outcome, says_outcome};
ghost use Rattle.leaf_turn.specs.Wishes.{mandatory_of, biases_of, unbiased, retires};

use crate::OutOfMemory;
use dom_set::{Set, set_laws};
use std::alloc::Global;
use tpl_ast::{Atom, Var, Wish};

/// A copy of an atom.
fn copy_atom(alloc: Global, atom: &Atom) -> Result<Atom, OutOfMemory>
    ensures { IfOk result (λ copy. copy ≡ atom.now) }
{
    match atom {
        Atom::In(var, set) => Ok(Atom::In(*var, set.copy(alloc)?)),
        Atom::NotIn(var, set) => Ok(Atom::NotIn(*var, set.copy(alloc)?)),
        Atom::Is(var, name) => Ok(Atom::Is(*var, *name)),
        Atom::Same(one, other) => Ok(Atom::Same(*one, *other)),
        Atom::Differ(one, other) => Ok(Atom::Differ(*one, *other)),
        Atom::Taken => Ok(Atom::Taken),
        Atom::NotTaken => Ok(Atom::NotTaken),
        Atom::Shared => Ok(Atom::Shared),
    }
}

/// Whether an atom is one on the outcome.
fn says_outcome(atom: &Atom) -> bool
    ensures { result ≡ says_outcome atom.now }
{
    match atom {
        Atom::In(Var::Outcome, _) | Atom::NotIn(Var::Outcome, _) => true,
        _ => false,
    }
}

/// Whether one of the atoms that have to hold is on the outcome.
fn fix_outcome(wishes: &[Wish]) -> bool
    ensures { result ≡ list_any fixes_outcome wishes.now }
{
    for wish in wishes {
        if !wish.prefer && says_outcome(&wish.atom) {
            return true;
        }
    }
    false
}

/// The atoms that are no biases.
fn unbiased(alloc: Global, wishes: &[Wish]) -> Result<Vec<Atom>, OutOfMemory>
    ensures { IfOk result (λ atoms. atoms.items ≡ unbiased wishes.now) }
{
    let mut atoms = Vec::new(alloc);
    for wish in wishes {
        if !wish.prefer {
            atoms.push(copy_atom(alloc, &wish.atom)?)?;
        }
    }
    Ok(atoms)
}

/// The atoms of a leaf that have to hold: those that are no biases, and that the step retires where none is on the
/// outcome.
pub fn mandatory_of(alloc: Global, wishes: &[Wish]) -> Result<Vec<Atom>, OutOfMemory>
    ensures { IfOk result (λ atoms. atoms.items ≡ mandatory_of wishes.now) }
{
    set_laws();
    let mut atoms = unbiased(alloc, wishes)?;
    if fix_outcome(wishes) {
        return Ok(atoms);
    }
    let retires = Set::from_ranges(alloc, &[(255, 255)], 1)?;
    atoms.push(Atom::In(Var::Outcome, retires))?;
    Ok(atoms)
}

/// A list of one atom.
fn alone(alloc: Global, atom: &Atom) -> Result<Vec<Atom>, OutOfMemory>
    ensures { IfOk result (λ atoms. atoms.items ≡ atom.now ∷ []) }
{
    let mut atoms = Vec::new(alloc);
    atoms.push(copy_atom(alloc, atom)?)?;
    Ok(atoms)
}

/// The biases of a leaf, each a list of its atom.
pub fn biases_of(alloc: Global, wishes: &[Wish]) -> Result<Vec<Vec<Atom>>, OutOfMemory>
    ensures { IfOk result (λ biases. map (λ b. b.items) biases.items ≡ biases_of wishes.now) }
{
    let mut biases = Vec::new(alloc);
    for wish in wishes {
        if wish.prefer {
            biases.push(alone(alloc, &wish.atom)?)?;
        }
    }
    Ok(biases)
}
