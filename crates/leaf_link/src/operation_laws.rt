// The laws of single operations.
ghost use Rattle.leaf_link.specs.AllWays.{AllWaysAreBuilt, WaysAreBuilt};
ghost use Rattle.leaf_link.specs.Controls.{CsrsAreExact, ReturnsAreExact};
ghost use Rattle.leaf_link.specs.KindLaws.{AddressFenceIsExact, BranchesAreExact, BreakIsExact, CallIsExact, IllegalIsExact, JumpIsExact, JumpRegisterIsExact, PlainIsExact, WaysAreExact};
ghost use Rattle.leaf_link.specs.Reaching.{LoadsAreExact, StoresAreExact};
ghost use Rattle.leaf_link.specs.Ways.{DomainsAreOfOperations};

/// Does nothing. Its contract is the law of an operation: where its ways are what the rest of its script does,
/// what fits the cases of these ways stands one to one for the candidates with this operation.
pub fn ways_are_exact()
    ensures { WaysAreExact }
{}

/// Does nothing. Its contract says that the ways of an operation are what the rest of its script does: without a data access
/// whatever the rows, and with one where the rows are those of the translation.
pub fn ways_are_built()
    ensures plain { WaysAreBuilt }
    ensures all { AllWaysAreBuilt }
{}

/// Does nothing. Its contract says that values in the domains of an operation are of that operation, with fields that fit it.
pub fn domains_are_of_operations()
    ensures { DomainsAreOfOperations }
{}

/// Does nothing. Its contract says that the problems of register and immediate operations, LUI, AUIPC and FENCE, of
/// branches and jumps, of ECALL, EBREAK, the defined illegal words and SFENCE.VMA are exact.
pub fn operations_are_exact()
    ensures plain { PlainIsExact }
    ensures branches { BranchesAreExact }
    ensures jump { JumpIsExact }
    ensures jump_register { JumpRegisterIsExact }
    ensures call { CallIsExact }
    ensures breakpoint { BreakIsExact }
    ensures illegal { IllegalIsExact }
    ensures fence { AddressFenceIsExact }
{}

/// Does nothing. Its contract says that the problems of loads and stores are exact where the rows of their addresses
/// are those of the translation, and that those of CSR instructions and of returns from traps are.
pub fn accesses_are_exact()
    ensures loads { LoadsAreExact }
    ensures stores { StoresAreExact }
    ensures csrs { CsrsAreExact }
    ensures returned { ReturnsAreExact }
{}
