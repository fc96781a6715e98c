// What is met is true, as admission judges it.
ghost use Rattle.leaf_link.specs.Admitted.{MetAreTrue, StepsAreFetched};
ghost use Rattle.leaf_link.specs.Naming.{LeavesAreTrue};

/// Does nothing. Its contract says that an atom that a candidate meets is true of its record, as admission judges it,
/// once the atom's name is bound.
pub fn met_atoms_are_true()
    ensures { MetAreTrue }
{}

/// Does nothing. Its contract says that where each name stands once in a leaf, every atom of a candidate is true of its
/// record, as admission judges it, with the names that were not bound bound to the values of their variables.
pub fn leaves_are_true()
    ensures { LeavesAreTrue }
{}

/// Does nothing. Its contract says that the step of a candidate doesn't end as one whose fetch failed.
pub fn steps_are_fetched()
    ensures { StepsAreFetched }
{}
