// Which page table entries walks may not read, table by table.
ghost use Rattle.std.specs.Prelude.{◌≡◌, ℕ, ◌+◌, ◌*◌, ◌/◌, ◌%◌, ◌^◌, ◌<◌, ◌==◌, ◌&&◌, ◌||◌, false, true, nat_le, Bool, IfOk, OnOk};
ghost use Rattle.fetch_ways.specs.Ways.{is_free_walk};
ghost use Rattle.dom_set.specs.Elements.{is_in, is_matching};
ghost use Rattle.data_bytes.specs.Sets.{IsSetOf};
ghost use Rattle.data_ways.specs.Internal.Barring.{is_stored, races};
ghost use Rattle.data_ways.specs.Internal.Tables.{entry_of, index_at, IsPatternOf};

use crate::leading::reaching;
use crate::way::DataEnd;
use data_bytes::DataAccess;
use dom_set::{OutOfMemory, Set};
use foot_map::FootMap;
use row_parts::{Level, word_at};
use rv_mem::{Seen, Words};
use rv_script::Role;
use std::alloc::Global;
use sv_walk::View;

/// How many entries a table has.
pub const ENTRIES: u32 = 1024;

/// What the walks of a hart's loads or stores rest on: memory, what was touched, and how the hart sees addresses.
#[derive(Drop)]
pub struct Walker<'a, M: Words> {
    pub memory: &'a M,
    pub feet: &'a FootMap,
    pub hart: u8,
    pub view: View,
    pub access: DataAccess,
}

/// The pattern of the addresses with an index in a table.
fn pattern(level: Level, index: u32) -> (u32, u32)
    requires { index < 1024 }
    ensures { IsPatternOf level index result }
{
    match level {
        Level::Root => (0xffc0_0000, index * 0x40_0000),
        Level::Second => (0x003f_f000, index * 0x1000),
    }
}

/// The addresses with an index in a table.
pub fn slice(alloc: Global, level: Level, index: u32) -> Result<Set, OutOfMemory>
    requires { index < 1024 }
    ensures { IfOk result (IsSetOf (λ ea. index_at level ea == index)) }
{
    let slice = Set::from_patterns(alloc, &[pattern(level, index)])?;
    Ok(slice)
}

/// The elements of either set.
pub fn joined(alloc: Global, first: Set, second: &Set) -> Result<Set, OutOfMemory>
    ensures { IfOk result (IsSetOf (λ v. is_in first v || is_in second.now v)) }
{
    if second.is_empty() {
        return Ok(first);
    }
    let both = first.or(alloc, second)?;
    Ok(both)
}

/// The bytes from an address on, so many and one more.
fn bytes_from(alloc: Global, addr: u32, more: u32) -> Result<Set, OutOfMemory>
    requires { addr + more < 2 ^ 32 }
    ensures { IfOk result (IsSetOf (λ v. nat_le addr v && nat_le v (addr + more))) }
{
    let bytes = Set::from_ranges(alloc, &[(addr, addr + more)], 1)?;
    Ok(bytes)
}

impl<'a, M: Words> Walker<'a, M> {
    /// Whether the walk of the entry at an address, a multiple of 4, races with nothing.
    fn is_free(&self, addr: u64) -> bool
        requires small { addr < 2 ^ 32 }
        requires aligned { addr % 4 ≡ 0 }
        ensures { result ≡ is_free_walk self.now.feet.now self.now.hart addr }
    {
        match self.feet.may(self.hart, Role::Walk, addr as u32, 4) {
            None => true,
            Some(_) => false,
        }
    }

    /// Whether there is an entry at an address, a multiple of 4, and its walk races.
    fn races(&self, addr: u64) -> bool
        requires { addr % 4 ≡ 0 }
        ensures { result ≡ races (M.at self.now.memory.now) self.now.feet.now self.now.hart addr }
    {
        match word_at(self.memory, addr) {
            Seen::Vacant => false,
            Seen::Known(_) => !self.is_free(addr),
            Seen::Untouched => !self.is_free(addr),
        }
    }

    /// Appends the addresses with an index in the table in a frame, if the entry there races.
    fn push_racing(
        &self,
        patterns: &mut Vec<(u32, u32)>,
        level: Level,
        frame: u32,
        index: u32,
    ) -> Result<(), OutOfMemory>
        requires { index < 1024 }
        ensures { OnOk result ((ea : ℕ) → ea < 2 ^ 32 →
            is_matching patterns.new.items ea
            ≡ (is_matching patterns.old.items ea
            || (index_at level ea == index && races (M.at self.now.memory.now) self.now.feet.now self.now.hart (frame * 4096 + index * 4)))) }
    {
        if self.races(u64::from(frame) * 4096 + u64::from(index) * 4) {
            patterns.push(pattern(level, index))?;
        }
        Ok(())
    }

    /// The patterns of the addresses whose entry in the table in a frame races.
    fn racing_patterns(
        &self,
        alloc: Global,
        level: Level,
        frame: u32,
    ) -> Result<Vec<(u32, u32)>, OutOfMemory>
        ensures { IfOk result (λ ps. (ea : ℕ) → ea < 2 ^ 32 →
            is_matching ps.items ea ≡ races (M.at self.now.memory.now) self.now.feet.now self.now.hart (entry_of level frame ea)) }
    {
        let mut patterns = Vec::new(alloc);
        for index in 0..ENTRIES {
            self.push_racing(&mut patterns, level, frame, index)?;
        }
        Ok(patterns)
    }

    /// Whether no walk of an entry in a frame races.
    fn is_frame_free(&self, alloc: Global, frame: u32) -> Result<bool, OutOfMemory>
        requires { frame < 2 ^ 20 }
        ensures { IfOk result (λ free. free ≡ true → (i : ℕ) → i < 1024 →
            races (M.at self.now.memory.now) self.now.feet.now self.now.hart (frame * 4096 + i * 4) ≡ false) }
    {
        let Ok(free) = self
            .feet
            .allowed(alloc, self.hart, Role::Walk, frame * 4096)
        else {
            return Err(OutOfMemory);
        };
        let all = bytes_from(alloc, 0, 4095)?;
        Ok(free == all)
    }

    /// The addresses whose entry in the table in a frame races.
    pub fn racing(&self, alloc: Global, level: Level, frame: u32) -> Result<Set, OutOfMemory>
        ensures { IfOk result (IsSetOf (λ ea. races (M.at self.now.memory.now) self.now.feet.now self.now.hart (entry_of level frame ea))) }
    {
        // There is no RAM at 2^32 or more.
        if frame >= 0x10_0000 {
            return Ok(Set::new(alloc));
        }
        let free = self.is_frame_free(alloc, frame)?;
        if free {
            return Ok(Set::new(alloc));
        }
        let patterns = self.racing_patterns(alloc, level, frame)?;
        let racing = Set::from_patterns(alloc, &patterns)?;
        Ok(racing)
    }

    /// With some addresses those with an index in the table in a frame that lead a store to the entry there, if it is known.
    fn with_stored(
        &self,
        alloc: Global,
        stored: Set,
        base: u32,
        mask: u32,
        level: Level,
        frame: u32,
        index: u32,
    ) -> Result<Set, OutOfMemory>
        requires index { index < 1024 }
        requires frame { frame < 2 ^ 20 }
        ensures { IfOk result (IsSetOf (λ ea. is_in stored ea || (index_at level ea == index && is_stored (M.at self.now.memory.now) DataAccess.Store (DataEnd.At base mask) ea (frame * 4096 + index * 4)))) }
    {
        let addr = frame * 4096 + index * 4;
        match word_at(self.memory, u64::from(addr)) {
            Seen::Vacant => Ok(stored),
            Seen::Untouched => Ok(stored),
            Seen::Known(_) => {
                let word = bytes_from(alloc, addr, 3)?;
                let leading = reaching(alloc, base, mask, &word)?;
                let slice = slice(alloc, level, index)?;
                let own = leading.and(alloc, &slice)?;
                let both = joined(alloc, stored, &own)?;
                Ok(both)
            }
        }
    }

    /// The addresses that lead a store to their own known entry in the table in a frame.
    fn stored_at(
        &self,
        alloc: Global,
        base: u32,
        mask: u32,
        level: Level,
        frame: u32,
    ) -> Result<Set, OutOfMemory>
        ensures { IfOk result (IsSetOf (λ ea. is_stored (M.at self.now.memory.now) DataAccess.Store (DataEnd.At base mask) ea (entry_of level frame ea))) }
    {
        let mut stored = Set::new(alloc);
        if frame >= 0x10_0000 {
            return Ok(stored);
        }
        let table = bytes_from(alloc, frame * 4096, 4095)?;
        let leading = reaching(alloc, base, mask, &table)?;
        if leading.is_empty() {
            return Ok(stored);
        }
        for index in 0..ENTRIES {
            stored = self.with_stored(alloc, stored, base, mask, level, frame, index)?;
        }
        Ok(stored)
    }

    /// The addresses that lead stores with this end to their own known entry in the table in a frame; none for loads.
    pub fn stored(
        &self,
        alloc: Global,
        end: DataEnd,
        level: Level,
        frame: u32,
    ) -> Result<Set, OutOfMemory>
        ensures { IfOk result (IsSetOf (λ ea. is_stored (M.at self.now.memory.now) self.now.access end ea (entry_of level frame ea))) }
    {
        match self.access {
            DataAccess::Load => Ok(Set::new(alloc)),
            DataAccess::Store => match end {
                DataEnd::Fails(_) => Ok(Set::new(alloc)),
                DataEnd::At { base, mask } => self.stored_at(alloc, base, mask, level, frame),
            },
        }
    }
}
