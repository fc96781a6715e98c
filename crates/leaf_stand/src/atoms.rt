// What atoms say of the value of one variable.

ghost use Rattle.std.specs.Prelude.{◌≡◌, ℕ, ◌&&◌, ◌==◌, not, true, false, Some as SomeOf, IfOk, slice_get};
ghost use Rattle.dom_set.specs.Elements.{is_in};
ghost use Rattle.tpl_ast.specs.Leaves.{same_var};
ghost use Rattle.tpl_admit.specs.Truth.{is_shared};
ghost use Rattle.leaf_link.specs.Cases.{all_judged, all_tests, is_judged, is_value_named, tests};
ghost use Rattle.leaf_stand.specs.Relations.{are_between, is_between, speak_of, speaks_of};
ghost use Rattle.data_bytes.specs.Sets.{IsSetOf};
ghost use Rattle.leaf_stand.specs.Stands.{set_named, shape_at, turn_of, value_named};

use crate::formats::Spans;
use crate::shape::{Shape, same_var, slot_of};
use crate::shared::{is_touched, touched};
use crate::stand::Stand;
use dom_set::{OutOfMemory, Set};
use std::alloc::Global;
use tpl_ast::{Atom, Var};

/// The numbers that are in both sets.
fn meet(alloc: Global, set: &Set, own: &Set) -> Result<Set, OutOfMemory>
    ensures { IfOk result (IsSetOf (λ v. is_in set.now v && is_in own.now v)) }
{
    set.and(alloc, own)
}

/// The numbers of the first set that are not in the second.
fn less(alloc: Global, set: &Set, own: &Set) -> Result<Set, OutOfMemory>
    ensures { IfOk result (IsSetOf (λ v. is_in set.now v && not (is_in own.now v))) }
{
    set.minus(alloc, own)
}

/// The number alone, where it is in the set.
fn meet_one(alloc: Global, set: &Set, value: u32) -> Result<Set, OutOfMemory>
    ensures { IfOk result (IsSetOf (λ v. is_in set.now v && v == value)) }
{
    let one = Spans::one(value).set(alloc)?;
    set.and(alloc, &one)
}

impl Stand<'_> {
    /// The value of a name, where it is bound.
    fn value_of_name(&self, name: u32) -> Option<u32>
        ensures { result ≡ (turn_of self.now).names name }
    {
        match self.names.get(name as usize) {
            Some(name) => name.value,
            None => None,
        }
    }

    /// The numbers of the set that are in that of a name.
    #[tactic(auto, using(crate::proofs::Sets::and_false))]
    fn in_set_of(&self, alloc: Global, set: Set, name: u32) -> Result<Set, OutOfMemory>
        ensures { IfOk result (IsSetOf (λ v. is_in set v && is_in ((turn_of self.now).sets name) v)) }
    {
        match self.names.get(name as usize) {
            Some(name) => meet(alloc, &set, name.set),
            None => Ok(Set::new(alloc)),
        }
    }

    /// The numbers of the set that a name may have: its value alone where it is bound, and else those of its set.
    fn named(&self, alloc: Global, set: Set, name: u32) -> Result<Set, OutOfMemory>
        ensures { IfOk result (IsSetOf (λ v. is_in set v && is_value_named ((turn_of self.now).names name) ((turn_of self.now).sets name) v)) }
    {
        match self.value_of_name(name) {
            Some(value) => meet_one(alloc, &set, value),
            None => self.in_set_of(alloc, set, name),
        }
    }

    /// The numbers of the set that are addresses near which a hart with a lower number has an access to data.
    fn shared(&self, alloc: Global, set: &Set) -> Result<Set, OutOfMemory>
        ensures { IfOk result (IsSetOf (λ v. is_in set.now v && is_shared (turn_of self.now).others (SomeOf v))) }
    {
        let touched = touched(alloc, self.others)?;
        let left = meet(alloc, set, &touched)?;
        Ok(left)
    }

    /// The numbers of the set that pass an atom on the variable.
    fn passing_one(
        &self,
        alloc: Global,
        set: Set,
        atom: &Atom,
        var: Var,
    ) -> Result<Set, OutOfMemory>
        ensures { IfOk result (IsSetOf (λ v. is_in set v && tests (turn_of self.now) atom.now var v)) }
    {
        match atom {
            Atom::In(of, wanted) if same_var(*of, var) => meet(alloc, &set, wanted),
            Atom::NotIn(of, unwanted) if same_var(*of, var) => less(alloc, &set, unwanted),
            Atom::Is(of, name) if same_var(*of, var) => self.named(alloc, set, *name),
            Atom::Shared if same_var(Var::Pa, var) => self.shared(alloc, &set),
            _ => Ok(set),
        }
    }

    /// The numbers of the set that pass all atoms on the variable.
    pub fn passing(
        &self,
        alloc: Global,
        set: Set,
        leaf: &[Atom],
        var: Var,
    ) -> Result<Set, OutOfMemory>
        ensures { IfOk result (IsSetOf (λ v. is_in set v && all_tests (turn_of self.now) leaf.now var v)) }
    {
        let mut left = set;
        for atom in leaf {
            left = self.passing_one(alloc, left, atom, var)?;
        }
        Ok(left)
    }

    /// Whether a value is that of a name, or in its set.
    fn is_named(&self, name: u32, value: u32) -> bool
        ensures { result ≡ is_value_named ((turn_of self.now).names name) ((turn_of self.now).sets name) value }
    {
        match self.names.get(name as usize) {
            Some(name) => match name.value {
                Some(bound) => value == bound,
                None => name.set.has(value),
            },
            None => false,
        }
    }

    fn passes_one(&self, atom: &Atom, var: Var, value: u32) -> bool
        ensures { result ≡ tests (turn_of self.now) atom.now var value }
    {
        match atom {
            Atom::In(of, wanted) if same_var(*of, var) => wanted.has(value),
            Atom::NotIn(of, unwanted) if same_var(*of, var) => !unwanted.has(value),
            Atom::Is(of, name) if same_var(*of, var) => self.is_named(*name, value),
            Atom::Shared if same_var(Var::Pa, var) => is_touched(self.others, value),
            _ => true,
        }
    }

    /// Whether a value passes all atoms on the variable.
    pub fn passes(&self, leaf: &[Atom], var: Var, value: u32) -> bool
        ensures { result ≡ all_tests (turn_of self.now) leaf.now var value }
    {
        for atom in leaf {
            if !self.passes_one(atom, var, value) {
                return false;
            }
        }
        true
    }
}

/// Whether a step has what the atom speaks of.
fn is_judged(shape: Shape, atom: &Atom) -> bool
    ensures { result ≡ is_judged (shape_at shape) atom.now }
{
    match atom {
        Atom::In(var, _) => shape.uses(*var),
        Atom::NotIn(var, _) => shape.uses(*var),
        Atom::Is(var, _) => shape.uses(*var),
        Atom::Same(var, other) => shape.uses(*var) && shape.uses(*other),
        Atom::Differ(var, other) => shape.uses(*var) && shape.uses(*other),
        Atom::Taken => shape.uses_condition(),
        Atom::NotTaken => shape.uses_condition(),
        Atom::Shared => shape.reaches,
    }
}

/// Whether an atom between two variables is between variables of problems.
fn is_between(atom: &Atom) -> bool
    ensures { result ≡ is_between atom.now }
{
    match atom {
        Atom::Same(var, other) => slot_of(*var).is_some() && slot_of(*other).is_some(),
        Atom::Differ(var, other) => slot_of(*var).is_some() && slot_of(*other).is_some(),
        _ => true,
    }
}

/// Whether atoms between two variables are between variables of problems, as those of a template are.
pub fn are_between(leaf: &[Atom]) -> bool
    ensures { result ≡ are_between leaf.now }
{
    for atom in leaf {
        if !is_between(atom) {
            return false;
        }
    }
    true
}

/// Whether a step has what all atoms speak of.
pub fn all_judged(shape: Shape, leaf: &[Atom]) -> bool
    ensures { result ≡ all_judged (shape_at shape) leaf.now }
{
    for atom in leaf {
        if !is_judged(shape, atom) {
            return false;
        }
    }
    true
}

/// Whether an atom is about the value of the variable alone.
fn speaks_of(atom: &Atom, var: Var) -> bool
    ensures { result ≡ speaks_of atom.now var }
{
    match atom {
        Atom::In(of, _) => same_var(*of, var),
        Atom::NotIn(of, _) => same_var(*of, var),
        Atom::Is(of, _) => same_var(*of, var),
        Atom::Shared => same_var(Var::Pa, var),
        _ => false,
    }
}

/// Whether some atom is about the value of the variable alone.
pub fn speak_of(leaf: &[Atom], var: Var) -> bool
    ensures { result ≡ speak_of leaf.now var }
{
    for atom in leaf {
        if speaks_of(atom, var) {
            return true;
        }
    }
    false
}
