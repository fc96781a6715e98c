// What tables of values have at their indices.
ghost use Rattle.std.specs.Prelude.{◌≡◌, ◌-◌, ◌^◌, IfOk, IfSome, OnOk, Some, length, min, slice_get};
ghost use Rattle.word_sets.specs.Internal.Tables.{AreListed, AreOthers, AreRefused};

use dom_set::{OutOfMemory, Set};
use set_sums::Span;
use std::alloc::Global;

/// Indices of a table, and values that it has there, as ranges of one word each.
#[derive(Drop)]
pub struct Entries {
    pub indices: Vec<Span>,
    pub values: Vec<Span>,
}

/// The word from which on the table has no index that counts.
fn end_of(table: &[Option<u32>]) -> u32
    ensures { result ≡ min (length table.now) (2 ^ 32 - 1) }
{
    u32::try_from(table.len()).unwrap_or(u32::MAX)
}

/// The value that the table has at the index, if it has one.
fn value_at(table: &[Option<u32>], i: u32) -> Option<u32>
    ensures { IfSome result (λ v. slice_get table.now i ≡ Some (Some v)) }
{
    match table.get(i as usize) {
        Some(Some(value)) => Some(*value),
        Some(None) => None,
        None => None,
    }
}

/// Adds the index, if the table has a value there that is not in the set.
fn push_refused(
    indices: &mut Vec<Span>,
    i: u32,
    table: &[Option<u32>],
    values: &Set,
) -> Result<(), OutOfMemory>
    requires { AreRefused table.now values.now indices.old.items }
    ensures { OnOk result (AreRefused table.now values.now indices.new.items) }
{
    match value_at(table, i) {
        Some(value) => {
            if values.has(value) {
                return Ok(());
            }
            indices.push((i, i))?;
            Ok(())
        }
        None => Ok(()),
    }
}

/// The indices at which the table has a value that is not in the set, each as a range of its own.
pub fn refused_indices(
    alloc: Global,
    table: &[Option<u32>],
    values: &Set,
) -> Result<Vec<Span>, OutOfMemory>
    ensures { IfOk result (λ r. AreRefused table.now values.now r.items) }
{
    let mut refused = Vec::new(alloc);
    for i in 0..end_of(table) {
        push_refused(&mut refused, i, table, values)?;
    }
    Ok(refused)
}

/// Adds the index, if the table has another value there.
fn push_other(indices: &mut Vec<Span>, i: u32, table: &[Option<u32>]) -> Result<(), OutOfMemory>
    requires { AreOthers table.now indices.old.items }
    ensures { OnOk result (AreOthers table.now indices.new.items) }
{
    match value_at(table, i) {
        Some(value) => {
            if value == i {
                return Ok(());
            }
            indices.push((i, i))?;
            Ok(())
        }
        None => Ok(()),
    }
}

/// The indices at which the table has a value other than the index, each as a range of its own.
pub fn other_indices(alloc: Global, table: &[Option<u32>]) -> Result<Vec<Span>, OutOfMemory>
    ensures { IfOk result (λ r. AreOthers table.now r.items) }
{
    let mut others = Vec::new(alloc);
    for i in 0..end_of(table) {
        push_other(&mut others, i, table)?;
    }
    Ok(others)
}

/// Adds the index and the value that the table has there, if it has one.
fn push_entry(entries: &mut Entries, i: u32, table: &[Option<u32>]) -> Result<(), OutOfMemory>
    requires { AreListed table.now entries.old.indices.items entries.old.values.items }
    ensures { OnOk result (AreListed table.now entries.new.indices.items entries.new.values.items) }
{
    match value_at(table, i) {
        Some(value) => {
            entries.values.push((value, value))?;
            entries.indices.push((i, i))?;
            Ok(())
        }
        None => Ok(()),
    }
}

/// The indices of the set at which the table has a value, and these values.
pub fn entries_among(
    alloc: Global,
    table: &[Option<u32>],
    among: &Set,
) -> Result<Entries, OutOfMemory>
    ensures { IfOk result (λ r. AreListed table.now r.indices.items r.values.items) }
{
    let mut entries = Entries {
        indices: Vec::new(alloc),
        values: Vec::new(alloc),
    };
    for i in 0..end_of(table) {
        if among.has(i) {
            push_entry(&mut entries, i, table)?;
        }
    }
    Ok(entries)
}
