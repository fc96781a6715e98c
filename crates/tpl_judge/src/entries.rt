// Pairs of a key and a value, by ascending key.
ghost use Rattle.std.specs.Prelude.{◌≡◌, ◌≤◌, length, true, IfOk, OnOk};
ghost use Rattle.tpl_lang.specs.Faults.{has_key};
ghost use Rattle.tpl_lang.specs.Statements.{inserted, is_fixed_key, lazy_places, value_at};
ghost use Rattle.tpl_judge.specs.Internal.Entries.{place_of, value_in, value_of};
ghost use Rattle.tpl_state.specs.Internal.Ordered.{is_ascending};

use dom_set::OutOfMemory;
use std::alloc::Global;

/// How many pairs stand before the first of a greater key, searched for by halves.
fn place_of(entries: &[(u32, u32)], key: u32) -> usize
    requires ascending { is_ascending entries.now ≡ true }
    ensures place { result ≡ place_of key entries.now }
    ensures within { result ≤ length entries.now }
{
    entries.partition_point(|entry| entry.0 <= key)
}

/// Puts a pair behind those of lesser or equal keys.
#[tactic(auto, using(crate::proofs::Insertions::inserted_at, crate::proofs::Insertions::still_ascending))]
pub fn insert_pair(entries: &mut Vec<(u32, u32)>, key: u32, value: u32) -> Result<(), OutOfMemory>
    requires ascending { is_ascending entries.old.items ≡ true }
    ensures pair { OnOk result (entries.new.items ≡ inserted key value entries.old.items) }
    ensures ascending { is_ascending entries.new.items ≡ true }
{
    let place = place_of(entries, key);
    entries.insert(place, (key, value))?;
    Ok(())
}

/// The value of a pair, if it has the key.
fn value_in(entry: &(u32, u32), key: u32) -> Option<u32>
    ensures { result ≡ value_in key entry.now }
{
    if entry.0 == key { Some(entry.1) } else { None }
}

/// The value of the first pair with the key, searched for by halves.
fn value_of(entries: &[(u32, u32)], key: u32) -> Option<u32>
    requires ascending { is_ascending entries.now ≡ true }
    ensures { result ≡ value_of key entries.now }
{
    let at = entries.partition_point(|entry| entry.0 < key);
    match entries.get(at) {
        None => None,
        Some(entry) => value_in(entry, key),
    }
}

/// Whether a pair has the key.
#[tactic(auto, using(crate::proofs::Searches::has_its_value))]
pub fn has_key(entries: &[(u32, u32)], key: u32) -> bool
    requires ascending { is_ascending entries.now ≡ true }
    ensures { result ≡ has_key entries.now key }
{
    value_of(entries, key).is_some()
}

/// The value of the first pair with the key, or 0.
#[tactic(auto, using(crate::proofs::Searches::value_or_none))]
pub fn value_at(entries: &[(u32, u32)], key: u32) -> u32
    requires ascending { is_ascending entries.now ≡ true }
    ensures { result ≡ value_at entries.now key }
{
    value_of(entries, key).unwrap_or(0)
}

/// Whether the key is that of a fixed part: mstatus, medeleg or satp.
fn is_fixed_key(key: u32) -> bool
    ensures { result ≡ is_fixed_key key }
{
    key == 0x1300 || key == 0x1302 || key == 0x1180
}

/// The pairs whose keys are no fixed parts.
pub fn lazy_places(alloc: Global, entries: &[(u32, u32)]) -> Result<Vec<(u32, u32)>, OutOfMemory>
    ensures { IfOk result (λ v. v.items ≡ lazy_places entries.now) }
{
    let mut places = Vec::new(alloc);
    for entry in entries {
        if !is_fixed_key(entry.0) {
            places.push(*entry)?;
        }
    }
    Ok(places)
}
