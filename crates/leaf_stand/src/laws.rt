// What holds of the leaves of templates.
ghost use Rattle.leaf_stand.specs.Laws.{LeavesAreBetween};

/// Does nothing. Its contract says that the atoms of each leaf of a template compare only variables that problems have,
/// which posing a leaf or a bias asks.
pub fn leaves_are_between()
    ensures { LeavesAreBetween }
{}
