// Where loads and stores lead.

use dom_set::Set;
use rv_csr::Cause;

/// Where the translations of addresses end.
#[derive(Clone, Copy, PartialEq, Eq)]
pub enum DataEnd {
    /// At a physical address in RAM: the base plus the virtual address's bits under the mask.
    At { base: u32, mask: u32 },
    /// In a page fault or an access fault.
    Fails(Cause),
}

/// Addresses and new page table entries with which loads or stores end alike.
#[derive(Drop)]
pub struct DataWay {
    /// The virtual addresses.
    pub ea: Set,
    /// The new root entries, or 0 where the root entry is not new.
    pub first: Set,
    /// The new second entries, or 0 where the second entry is not new.
    pub second: Set,
    /// Whether of the addresses only those count whose two indices, bits 31:22 and 21:12, differ.
    pub apart: bool,
    pub end: DataEnd,
}
