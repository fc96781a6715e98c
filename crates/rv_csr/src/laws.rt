//! The laws of writes, traps and returns.

ghost use Rattle.std.specs.Prelude.{◌≡◌};
ghost use Rattle.rv_csr.specs.declared.cause.TheConstants.{CAUSES};
ghost use Rattle.rv_csr.specs.declared.table.TheConstants.{REGISTERS};
ghost use Rattle.rv_csr.specs.Causes.{causes};
ghost use Rattle.rv_csr.specs.Table.{registers};
ghost use Rattle.rv_csr.specs.Laws.{HaveOwnAddresses, HaveOwnSlots, KeepsHiddenBits, KeepsOthers, KeepsWritten, MovesStatus, RestoresStatus, StartUnknown, WritesOneLazy};

/// Does nothing. Its contract says that a write is read back and changes nothing else, that a write of
/// sstatus keeps the bits of mstatus that it does not show, and what traps and returns do to each field
/// of mstatus.
pub fn csr_laws()
    ensures written { KeepsWritten }
    ensures others { KeepsOthers }
    ensures hidden { KeepsHiddenBits }
    ensures traps { MovesStatus }
    ensures returns { RestoresStatus }
{}

/// Does nothing. Its contract says how registers are found: no two share an address or a slot, no lazy
/// one has a value at first, and a write of a lazy one is seen at that one alone; and that registers and
/// causes stand in the order of their tables.
#[tactic(auto, using(crate::proofs::Places::own_addresses, crate::proofs::Places::none_at_first, crate::proofs::Places::lazy_after, crate::proofs::LegalValues::slots_apart))]
pub fn place_laws()
    ensures addresses { HaveOwnAddresses }
    ensures first { StartUnknown }
    ensures written { WritesOneLazy }
    ensures slots { HaveOwnSlots }
    ensures registers { REGISTERS ≡ registers }
    ensures causes { CAUSES ≡ causes }
{}
