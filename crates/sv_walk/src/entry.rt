// The rules of Sv32 on one page table entry.
ghost use Rattle.std.specs.Prelude.{◌≡◌, ◌<◌};
ghost use Rattle.sv_walk.specs.Entry.{access_cause, bit_of, has, is_closed, is_invalid, is_out_of_reach, is_pointer, is_reserved, is_unaligned, is_unmarked, lacks_permission, page_cause};

use rv_csr::{Cause, Priv};

/// What an address is used for.
#[derive(Clone, Copy, Debug, PartialEq, Eq)]
pub enum Kind {
    Fetch,
    Load,
    Store,
}

/// What a translation depends on beside memory.
#[derive(Clone, Copy, Debug, PartialEq, Eq)]
pub struct View {
    pub satp: u32,
    /// The effective privilege of the access (Privileged, 3.1.6.3).
    pub privilege: Priv,
    /// S may access pages of U.
    pub sum: bool,
    /// Loads may be from executable pages.
    pub mxr: bool,
}

/// A bit of a page table entry (Privileged, 4.3.1).
#[derive(Clone, Copy, Debug, PartialEq, Eq)]
pub enum EntryFlag {
    Valid,
    Readable,
    Writable,
    Executable,
    User,
    Accessed,
    Dirty,
}

impl EntryFlag {
    /// Whether an entry has the bit set.
    pub fn is_set(self, entry: u32) -> bool
        ensures { result ≡ has self entry }
    {
        (entry >> self.bit()) & 1 == 1
    }

    fn bit(self) -> u32
        ensures value { result ≡ bit_of self }
        ensures narrow { result < 32 }
    {
        match self {
            EntryFlag::Valid => 0,
            EntryFlag::Readable => 1,
            EntryFlag::Writable => 2,
            EntryFlag::Executable => 3,
            EntryFlag::User => 4,
            EntryFlag::Accessed => 6,
            EntryFlag::Dirty => 7,
        }
    }
}

/// Whether an entry is none.
pub fn is_invalid(entry: u32) -> bool
    ensures { result ≡ is_invalid entry }
{
    !EntryFlag::Valid.is_set(entry)
        || (EntryFlag::Writable.is_set(entry) && !EntryFlag::Readable.is_set(entry))
}

/// Whether a valid entry leads to a further table.
pub fn is_pointer(entry: u32) -> bool
    ensures { result ≡ is_pointer entry }
{
    !EntryFlag::Readable.is_set(entry) && !EntryFlag::Executable.is_set(entry)
}

/// Whether a pointer has a bit set that pointers reserve.
pub fn is_reserved(entry: u32) -> bool
    ensures { result ≡ is_reserved entry }
{
    EntryFlag::User.is_set(entry)
        || EntryFlag::Accessed.is_set(entry)
        || EntryFlag::Dirty.is_set(entry)
}

/// Whether a superpage begins inside one.
pub fn is_unaligned(entry: u32) -> bool
    ensures { result ≡ is_unaligned entry }
{
    (entry >> 10) % 1024 != 0
}

/// Whether a leaf lacks the mark that the access wants.
fn is_unmarked(kind: Kind, entry: u32) -> bool
    ensures { result ≡ is_unmarked kind entry }
{
    let wants_dirty = matches!(kind, Kind::Store);
    !EntryFlag::Accessed.is_set(entry) || (wants_dirty && !EntryFlag::Dirty.is_set(entry))
}

/// Whether a leaf doesn't allow what the address is used for.
fn lacks_permission(v: View, kind: Kind, entry: u32) -> bool
    ensures { result ≡ lacks_permission v kind entry }
{
    let executable = EntryFlag::Executable.is_set(entry);
    match kind {
        Kind::Fetch => !executable,
        Kind::Load => !(EntryFlag::Readable.is_set(entry) || (v.mxr && executable)),
        Kind::Store => !EntryFlag::Writable.is_set(entry),
    }
}

/// Whether a leaf's page belongs to another privilege.
fn is_out_of_reach(v: View, kind: Kind, entry: u32) -> bool
    ensures { result ≡ is_out_of_reach v kind entry }
{
    let user = EntryFlag::User.is_set(entry);
    if matches!(v.privilege, Priv::S) {
        user && (matches!(kind, Kind::Fetch) || !v.sum)
    } else {
        !user
    }
}

/// Whether a leaf doesn't let the access through.
pub fn is_closed(v: View, kind: Kind, entry: u32) -> bool
    ensures { result ≡ is_closed v kind entry }
{
    is_unmarked(kind, entry) || lacks_permission(v, kind, entry) || is_out_of_reach(v, kind, entry)
}

impl Kind {
    /// The cause of a page fault.
    pub fn page_cause(self) -> Cause
        ensures { result ≡ page_cause self }
    {
        match self {
            Kind::Fetch => Cause::FetchPage,
            Kind::Load => Cause::LoadPage,
            Kind::Store => Cause::StorePage,
        }
    }

    /// The cause of an access fault.
    pub fn access_cause(self) -> Cause
        ensures { result ≡ access_cause self }
    {
        match self {
            Kind::Fetch => Cause::FetchAccess,
            Kind::Load => Cause::LoadAccess,
            Kind::Store => Cause::StoreAccess,
        }
    }
}
