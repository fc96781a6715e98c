// Where walks end.
use crate::Entries;
use rv_csr::Cause;

/// Where a walk ends.
#[derive(Clone, Copy, Debug, PartialEq, Eq)]
pub enum WalkEnd {
    /// At a physical address in RAM.
    Pa(u32),
    /// In a page fault or an access fault of the access.
    Fault(Cause),
    /// Beyond what the machine models: at a root entry that is a pointer with U, A or D set.
    Outside,
    /// At an entry whose word isn't known yet; this is its address.
    Missing(u32),
}

/// A walk: where it ends, and the entries that it read.
#[derive(Drop)]
pub struct Walk {
    pub outcome: WalkEnd,
    pub ptes: Entries,
}
