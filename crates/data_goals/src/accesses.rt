// What loads and stores may do.

use data_bytes::DataBytes;
use data_ways::DataWay;
use dom_set::Set;

/// What the loads and stores of a hart may do where it stands: where their addresses lead, and what may be done with the
/// bytes of memory.
#[derive(Drop)]
pub struct Accesses {
    pub bytes: DataBytes,
    /// The bytes of the page table entries that the fetch reads, to which the step may not store.
    pub walked: Set,
    /// The virtual addresses of which it is told where they lead.
    pub pages: Set,
    /// What a new root entry may be; 0 alone where no address is translated.
    pub firsts: Set,
    /// What a new second entry may be; 0 alone where no address is translated.
    pub seconds: Set,
    /// Where the addresses of loads lead.
    pub loads: Vec<DataWay>,
    /// Where those of stores lead.
    pub stores: Vec<DataWay>,
}
