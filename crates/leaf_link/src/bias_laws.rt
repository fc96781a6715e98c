// The laws of biases.
ghost use Rattle.leaf_link.specs.Extras.{AddressesAreWanted, BiasesAreKept, BiasesInCases, ExtrasAreBiases, ExtrasStay};
ghost use Rattle.leaf_link.specs.Problems.{BiasesAreAtoms};

/// Does nothing. Its contract says that a bias is its atoms: what fits a case with more atoms is what fits the case,
/// keeps to the cuts of these atoms, and meets their relations, where the case has what they speak of.
pub fn biases_are_atoms()
    ensures { BiasesAreAtoms }
{}

/// Does nothing. Its contract says what a bias asks in a case, on the physical address too: of what fits the case, the
/// bias is met where its entry, its cuts and its relations are, and the address of the data access is one that it lets
/// through; and that what fits a case makes its data access where the case's own atoms want it.
pub fn biases_in_cases()
    ensures biases { BiasesInCases }
    ensures addresses { AddressesAreWanted }
{}

/// Does nothing. Its contract says that a problem with an Extra that is a bias is the problem of the leaf with that
/// bias, its first cases too, and that each other Extra that is its bias stays so, whatever was kept before.
pub fn extras_are_biases()
    ensures biases { ExtrasAreBiases }
    ensures stay { ExtrasStay }
{}

/// Does nothing. Its contract says that the answer of a solver with a leaf's biases is that over candidates: a bias is
/// kept exactly where the atoms so far and its own have a candidate for their answer, each other one is listed with
/// its answer, and the leaf's answer is that of the atoms with all kept biases.
pub fn biases_are_kept()
    ensures { BiasesAreKept }
{}
