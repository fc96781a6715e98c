// Which memory the accesses of other harts touch.

ghost use Rattle.std.specs.Prelude.{◌≡◌, ℕ, ◌+◌, ◌-◌, ◌%◌, ◌^◌, ◌<◌, ◌&&◌, nat_le, nat_lt, Some as SomeOf, IfOk, OnOk};
ghost use Rattle.std.specs.List.{list_any};
ghost use Rattle.tpl_admit.specs.Truth.{is_shared, record_touches, touches, trace_touches};
ghost use Rattle.tpl_admit.specs.Variables.{is_data};
ghost use Rattle.data_bytes.specs.Sets.{IsSetOf};
ghost use Rattle.leaf_stand.specs.Shared.{AddsSpans, traces_of};

use dom_set::{OutOfMemory, Set, set_laws};
use rv_hart::Record;
use rv_script::{Access, Role};
use std::alloc::Global;

/// `shared` looks at blocks of so many bytes.
const BLOCK: u64 = 64;

/// Whether a role is that of an access to data.
fn is_data(role: Role) -> bool
    ensures { result ≡ is_data role }
{
    match role {
        Role::Load | Role::Store => true,
        Role::Fetch | Role::Walk => false,
    }
}

/// The first and the last address of the blocks in which an access has bytes; the first is above the last where there are
/// none.
fn span_of(access: &Access) -> (u32, u32)
    ensures { (v : ℕ) → v < 2 ^ 32 → (nat_le result.0 v && nat_le v result.1) ≡ (nat_lt access.now.addr (v - v % 64 + 64) && nat_lt (v - v % 64) (access.now.addr + access.now.size)) }
{
    let first = u64::from(access.addr);
    let end = (first + u64::from(access.size) + (BLOCK - 1)) / BLOCK * BLOCK;
    if end == 0 {
        return (1, 0);
    }
    let last = (end - 1).min(u64::from(u32::MAX));
    ((first - first % BLOCK) as u32, last as u32)
}

/// Appends the blocks of an access to data.
fn push_access(spans: &mut Vec<(u32, u32)>, access: &Access) -> Result<(), OutOfMemory>
    ensures { OnOk result (AddsSpans (λ v. touches v access.now) spans.old.items spans.new.items) }
{
    if is_data(access.role) {
        spans.push(span_of(access))?;
    }
    Ok(())
}

/// Appends the blocks of the accesses to data among some.
fn push_accesses(spans: &mut Vec<(u32, u32)>, accesses: &[Access]) -> Result<(), OutOfMemory>
    ensures { OnOk result (AddsSpans (λ v. list_any (λ a. touches v a) accesses.now) spans.old.items spans.new.items) }
{
    for access in accesses {
        push_access(spans, access)?;
    }
    Ok(())
}

/// Appends the blocks of the accesses to data of records.
fn push_records(spans: &mut Vec<(u32, u32)>, records: &[Record]) -> Result<(), OutOfMemory>
    ensures { OnOk result (AddsSpans (λ v. trace_touches v records.now) spans.old.items spans.new.items) }
{
    for record in records {
        push_accesses(spans, record.accesses.as_slice())?;
    }
    Ok(())
}

/// The addresses in a block of 64 bytes in which an access to data of the records has a byte.
pub fn touched(alloc: Global, others: &[&[Record]]) -> Result<Set, OutOfMemory>
    ensures { IfOk result (IsSetOf (λ v. is_shared (traces_of others.now) (SomeOf v))) }
{
    set_laws();
    let mut spans = Vec::new(alloc);
    for records in others {
        push_records(&mut spans, records)?;
    }
    let set = Set::from_ranges(alloc, &spans, 1)?;
    Ok(set)
}

/// Whether an access to data has a byte in the block of 64 bytes that holds an address.
fn touches(addr: u32, access: &Access) -> bool
    ensures { result ≡ touches addr access.now }
{
    let (first, last) = span_of(access);
    is_data(access.role) && first <= addr && addr <= last
}

fn record_touches(addr: u32, record: &Record) -> bool
    ensures { result ≡ record_touches addr «record».now }
{
    record
        .accesses
        .as_slice()
        .iter()
        .any(|access| touches(addr, access))
}

fn trace_touches(addr: u32, records: &[Record]) -> bool
    ensures { result ≡ trace_touches addr records.now }
{
    records.iter().any(|record| record_touches(addr, record))
}

fn any_touches(addr: u32, others: &[&[Record]]) -> bool
    ensures { result ≡ list_any (λ r. trace_touches addr r.now) others.now }
{
    others.iter().any(|records| trace_touches(addr, records))
}

/// Whether an access to data of the records has a byte in the block of 64 bytes that holds an address.
pub fn is_touched(others: &[&[Record]], addr: u32) -> bool
    ensures { result ≡ is_shared (traces_of others.now) (SomeOf addr) }
{
    any_touches(addr, others)
}
