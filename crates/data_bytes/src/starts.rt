// The addresses of loads and stores.
ghost use Rattle.std.specs.Prelude.{◌≡◌, ℕ, ◌+◌, ◌%◌, ◌^◌, ◌≤◌, not, ◌&&◌, nat_eq, IfOk};
ghost use Rattle.dom_set.specs.Elements.{is_in};
ghost use Rattle.data_bytes.specs.Sets.{IsSetOf};
ghost use Rattle.rv_script.specs.Bytes.{any_byte};
ghost use Rattle.data_bytes.specs.Starts.{IsSize, is_open, barred_of};

use crate::error::OutOfMemory;
use crate::memory::DataBytes;
use dom_set::Set;
use std::alloc::Global;

/// A load or a store.
#[derive(Clone, Copy, Debug, PartialEq, Eq)]
pub enum DataAccess {
    Load,
    Store,
}

/// The multiples of a size in bytes, which is 1, 2 or 4.
fn multiples(alloc: Global, size: u32) -> Result<Set, OutOfMemory>
    requires { IsSize size }
    ensures { IfOk result (IsSetOf (λ v. nat_eq (v % size) 0)) }
{
    Ok(Set::from_ranges(alloc, &[(0, u32::MAX)], size)?)
}

/// The addresses that are no multiples of a size in bytes, which is 1, 2 or 4.
pub fn misaligned(alloc: Global, size: u32) -> Result<Set, OutOfMemory>
    requires { IsSize size }
    ensures { IfOk result (IsSetOf (λ v. not (nat_eq (v % size) 0))) }
{
    let all = Set::all(alloc)?;
    Ok(all.minus(alloc, &multiples(alloc, size)?)?)
}

/// The addresses from which on one of so many bytes, 1, 2 or 4, is in the set.
fn starts_on(alloc: Global, bytes: &Set, size: u32) -> Result<Set, OutOfMemory>
    requires { IsSize size }
    ensures { IfOk result (λ s. (v : ℕ) → v + size ≤ 2 ^ 32 → is_in s v ≡ any_byte size v (is_in bytes.now)) }
{
    if size == 1 {
        return Ok(bytes.copy(alloc)?);
    }
    let pairs = bytes.or(alloc, &bytes.shift(alloc, u32::MAX)?)?;
    if size == 2 {
        return Ok(pairs);
    }
    Ok(pairs.or(alloc, &pairs.shift(alloc, u32::MAX - 1)?)?)
}

/// The multiples of a size, which is 1, 2 or 4 bytes, in a set, from which on no byte of an access of that size is barred.
pub fn open(alloc: Global, words: &Set, barred: &Set, size: u32) -> Result<Set, OutOfMemory>
    requires { IsSize size }
    ensures { IfOk result (IsSetOf (λ v. is_in words.now v && is_open barred.now size v)) }
{
    let starts = words.and(alloc, &multiples(alloc, size)?)?;
    let barred = starts_on(alloc, barred, size)?;
    Ok(starts.minus(alloc, &barred)?)
}

impl DataBytes {
    /// The bytes that a load or a store may not touch.
    fn barred(&self, access: DataAccess) -> &Set
        ensures { result.now ≡ barred_of self.now access }
    {
        match access {
            DataAccess::Load => &self.not_loaded,
            DataAccess::Store => &self.not_stored,
        }
    }

    /// The multiples of a size, which is 1, 2 or 4 bytes, outside of RAM.
    pub fn outside_starts(&self, alloc: Global, size: u32) -> Result<Set, OutOfMemory>
        requires { IsSize size }
        ensures { IfOk result (IsSetOf (λ v. is_in self.now.outside v && nat_eq (v % size) 0)) }
    {
        Ok(self.outside.and(alloc, &multiples(alloc, size)?)?)
    }

    /// Where a load or store of a size, which is 1, 2 or 4 bytes, may touch a known word.
    pub fn known_starts(
        &self,
        alloc: Global,
        size: u32,
        access: DataAccess,
    ) -> Result<Set, OutOfMemory>
        requires { IsSize size }
        ensures { IfOk result (IsSetOf (λ v. is_in self.now.known v && is_open (barred_of self.now access) size v)) }
    {
        open(alloc, &self.known, self.barred(access), size)
    }

    /// Where a load or store of a size, which is 1, 2 or 4 bytes, may start a word of the pool.
    pub fn fresh_starts(
        &self,
        alloc: Global,
        size: u32,
        access: DataAccess,
    ) -> Result<Set, OutOfMemory>
        requires { IsSize size }
        ensures { IfOk result (IsSetOf (λ v. is_in self.now.fresh v && is_open (barred_of self.now access) size v)) }
    {
        open(alloc, &self.fresh, self.barred(access), size)
    }
}
