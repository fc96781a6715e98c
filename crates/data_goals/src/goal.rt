// Where a load or store goes.

ghost use Rattle.std.specs.Prelude.{◌≡◌, IfOk};
ghost use Rattle.data_goals.specs.Goals.{access_of, cause_of, misses, ways_for};
ghost use Rattle.rv_hart.specs.Machine.{size_of};

use crate::accesses::Accesses;
use data_bytes::DataAccess;
use data_ways::{DataEnd, DataWay};
use dom_set::Set;
use rv_csr::Cause;
use rv_isa::Op;
use std::alloc::Global;

/// Where a load or store goes whose address leads as a way says.
#[derive(Clone, Copy, Debug, PartialEq, Eq)]
pub enum Goal {
    /// The address is no multiple of the access's size: it traps, wherever it leads.
    Misaligned,
    /// The translation or the access fails: it traps.
    Fails,
    /// It leads to a word that has a value.
    Known,
    /// It leads to a word of the pool, which the access starts.
    Fresh,
}

impl Goal {
    /// The cause of the trap of a load or store that goes there, and nothing where it retires.
    pub fn cause(self, op: Op, end: DataEnd) -> Option<Cause>
        ensures { result ≡ cause_of op end self }
    {
        match (self, end) {
            (Goal::Misaligned, _) => {
                if op.is_load() {
                    Some(Cause::LoadMisaligned)
                } else {
                    Some(Cause::StoreMisaligned)
                }
            }
            (Goal::Fails, DataEnd::Fails(cause)) => Some(cause),
            (Goal::Fails, DataEnd::At { .. }) | (Goal::Known | Goal::Fresh, _) => None,
        }
    }
}

/// How many bytes a load or store accesses; 4 for every other operation.
pub fn size_of(op: Op) -> u32
    ensures { result ≡ size_of op }
{
    u32::from(rv_hart::size_of(op))
}

/// The access of an operation: a load's, and else a store's.
pub fn access_of(op: Op) -> DataAccess
    ensures { result ≡ access_of op }
{
    if op.is_load() {
        DataAccess::Load
    } else {
        DataAccess::Store
    }
}

/// A way for misaligned addresses, which lead nowhere.
pub fn misses(alloc: Global) -> DataWay
    ensures { result ≡ misses }
{
    DataWay {
        ea: Set::new(alloc),
        first: Set::new(alloc),
        second: Set::new(alloc),
        apart: false,
        end: DataEnd::Fails(Cause::LoadMisaligned),
    }
}

impl Accesses {
    /// Where the addresses of a load or store lead.
    pub fn ways(&self, op: Op) -> &[DataWay]
        ensures { result.now ≡ ways_for self.now op }
    {
        if op.is_load() {
            &self.loads
        } else {
            &self.stores
        }
    }
}
