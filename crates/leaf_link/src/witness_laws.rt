// That the laws are not empty: leaves for which their premises are met, and which have candidates.
ghost use Rattle.leaf_link.specs.BiasWitness.{HaveKeptBias};
ghost use Rattle.leaf_link.specs.FetchWitness.{HaveAnsweredFetches};
ghost use Rattle.leaf_link.specs.WalkWitnesses.{HaveWalks};
ghost use Rattle.leaf_link.specs.Witnesses.{HavePossible};

/// Does nothing. Its contract says that the premises of the laws are met, and there is a candidate, for an ADDI, for
/// loads with a known and with an untouched base, a store, a CSR instruction, a branch, jumps, an SFENCE.VMA and returns
/// from traps; and for each trap of such operations: ECALL, EBREAK, an illegal word, a CSR that may not be written,
/// misaligned targets and accesses, and accesses outside RAM. It says which place each candidate starts with which value.
pub fn leaves_are_possible()
    ensures { HavePossible }
{}

/// Does nothing. Its contract says that the premises of the laws are met, and there is a candidate, where addresses are
/// translated: for a load in S whose second page table entry is untouched, for a load and a store that such an entry lets
/// fail, for a fetch with an untouched entry, and for one that fails; and that each candidate starts this entry.
pub fn walks_are_possible()
    ensures { HaveWalks }
{}

/// Does nothing. Its contract says that the premises of the laws on biases and answers are met together, for a leaf with a
/// whole problem of a solver and two biases: the first one is kept, and the second one is dropped. Those of the laws on
/// answers of fetches are, for the fetch of a `do` leaf and for a `fault` leaf.
pub fn answers_are_possible()
    ensures biases { HaveKeptBias }
    ensures fetches { HaveAnsweredFetches }
{}
