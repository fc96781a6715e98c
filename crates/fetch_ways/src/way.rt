// Where fetches lead.

use dom_set::Set;
use rv_csr::Cause;

/// Where the translation of a fetch ends.
#[derive(Clone, Copy, PartialEq, Eq)]
pub enum FetchEnd {
    /// At a physical address in RAM.
    At(u32),
    /// In a page fault or an access fault.
    Fails(Cause),
}

/// New page table entries with which a fetch ends alike.
#[derive(Drop)]
pub struct FetchWay {
    /// The new root entries, or 0 where the root entry is not new.
    pub first: Set,
    /// The new second entries, or 0 where the second entry is not new.
    pub second: Set,
    pub end: FetchEnd,
}
