// The addresses whose walks are barred.
ghost use Rattle.std.specs.Prelude.{◌≡◌, ℕ, ◌<◌, ◌%◌, ◌^◌, ◌&&◌, map, IfOk, OnOk, All};
ghost use Rattle.sv_walk.specs.Translation.{is_translated};
ghost use Rattle.row_parts.specs.declared.classes.Level.TheVariants.{Second};
ghost use Rattle.data_bytes.specs.Sets.{IsSetOf};
ghost use Rattle.data_ways.specs.Internal.Barring.{bars, is_stored, races};
ghost use Rattle.data_ways.specs.Internal.Tables.{any_pointer, entry_of, is_always_barred, is_newly_barred, meets, meets_behind, IsNewRoot, IsRootTable, IsTable};

use crate::pointers::{Pointer, pointers, untouched};
use crate::walker::{Walker, joined};
use crate::way::DataEnd;
use dom_set::{OutOfMemory, Set};
use row_parts::Level;
use rv_csr::Priv;
use rv_mem::Words;
use std::alloc::Global;
use sv_walk::{View, is_invalid, is_pointer, is_translated};

/// What is kept of the root table.
#[derive(Drop)]
pub struct RootTable {
    /// The frame that it is in.
    pub frame: u32,
    /// Its known entries that lead to further tables.
    pub pointers: Vec<Pointer>,
    /// The addresses whose root entry has no value yet.
    pub untouched: Set,
    /// The addresses whose walks race, whatever new root entries are.
    pub racing: Set,
}

/// What a root entry may be where it is new.
#[derive(Drop)]
pub struct NewRoot {
    pub value: u32,
    /// The addresses whose walks race at the second entry where their root entry is new and has this value.
    pub racing: Set,
}

impl<'a, M: Words> Walker<'a, M> {
    /// The addresses whose second entry races, behind the pointers.
    fn racing_behind(&self, alloc: Global, pointers: &[Pointer]) -> Result<Set, OutOfMemory>
        ensures { IfOk result (IsSetOf (λ ea. any_pointer pointers.now (λ frame. races (M.at self.now.memory.now) self.now.feet.now self.now.hart (entry_of Second frame ea)) ea)) }
    {
        let mut racing = Set::new(alloc);
        for pointer in pointers {
            let table = self.racing(alloc, Level::Second, pointer.frame)?;
            let here = table.and(alloc, &pointer.ea)?;
            racing = joined(alloc, racing, &here)?;
        }
        Ok(racing)
    }

    /// The addresses that lead stores with this end to their own known second entry, behind the pointers.
    fn stored_behind(
        &self,
        alloc: Global,
        end: DataEnd,
        pointers: &[Pointer],
    ) -> Result<Set, OutOfMemory>
        ensures { IfOk result (IsSetOf (λ ea. any_pointer pointers.now (λ frame. is_stored (M.at self.now.memory.now) self.now.access end ea (entry_of Second frame ea)) ea)) }
    {
        let mut stored = Set::new(alloc);
        for pointer in pointers {
            let table = self.stored(alloc, end, Level::Second, pointer.frame)?;
            let here = table.and(alloc, &pointer.ea)?;
            stored = joined(alloc, stored, &here)?;
        }
        Ok(stored)
    }

    /// What is kept of the root table.
    fn table_in(&self, alloc: Global, frame: u32) -> Result<RootTable, OutOfMemory>
        requires { frame ≡ self.now.view.satp % 2 ^ 22 }
        ensures { IfOk result (IsRootTable (M.at self.now.memory.now) self.now.feet.now self.now.hart self.now.view) }
    {
        let pointers = pointers(alloc, self.memory, frame)?;
        let untouched = untouched(alloc, self.memory, frame)?;
        let first = self.racing(alloc, Level::Root, frame)?;
        let behind = self.racing_behind(alloc, &pointers)?;
        let racing = joined(alloc, first, &behind)?;
        Ok(RootTable {
            frame,
            pointers,
            untouched,
            racing,
        })
    }

    /// What is kept of the root table, where addresses are translated.
    pub fn root_table(&self, alloc: Global) -> Result<Option<RootTable>, OutOfMemory>
        ensures { IfOk result (IsTable (M.at self.now.memory.now) self.now.feet.now self.now.hart self.now.view) }
    {
        if !is_translated(self.view) {
            return Ok(None);
        }
        let table = self.table_in(alloc, self.view.satp % 0x40_0000)?;
        Ok(Some(table))
    }

    /// The addresses whose walks race at the second entry where their root entry is new and has this value.
    fn racing_by(
        &self,
        alloc: Global,
        root: &Option<RootTable>,
        value: u32,
    ) -> Result<Set, OutOfMemory>
        requires { IsTable (M.at self.now.memory.now) self.now.feet.now self.now.hart self.now.view root.now }
        ensures { IfOk result (IsSetOf (λ ea. is_translated self.now.view && meets_behind (M.at self.now.memory.now) self.now.view (races (M.at self.now.memory.now) self.now.feet.now self.now.hart) value ea)) }
    {
        let Some(table) = root else {
            return Ok(Set::new(alloc));
        };
        if is_invalid(value) || !is_pointer(value) {
            return Ok(Set::new(alloc));
        }
        let racing = self.racing(alloc, Level::Second, value >> 10)?;
        let own = racing.and(alloc, &table.untouched)?;
        Ok(own)
    }

    /// What root entries may be where they are new.
    pub fn new_roots(
        &self,
        alloc: Global,
        root: &Option<RootTable>,
        values: &[u32],
    ) -> Result<Vec<NewRoot>, OutOfMemory>
        requires { IsTable (M.at self.now.memory.now) self.now.feet.now self.now.hart self.now.view root.now }
        ensures values { IfOk result (λ news. map (λ new. new.value) news.items ≡ values.now) }
        ensures racing { IfOk result (λ news. All (IsNewRoot (M.at self.now.memory.now) self.now.feet.now self.now.hart self.now.view) news.items) }
    {
        let mut news = Vec::new(alloc);
        for value in values {
            let racing = self.racing_by(alloc, root, *value)?;
            news.push(NewRoot {
                value: *value,
                racing,
            })?;
        }
        Ok(news)
    }

    /// The addresses whose walks are barred whatever new root entries are, by the root table.
    fn barred_at(&self, alloc: Global, table: &RootTable, end: DataEnd) -> Result<Set, OutOfMemory>
        requires { IsRootTable (M.at self.now.memory.now) self.now.feet.now self.now.hart self.now.view table.now }
        ensures { IfOk result (IsSetOf (λ ea. meets (M.at self.now.memory.now) self.now.view (bars (M.at self.now.memory.now) self.now.feet.now self.now.hart self.now.access end ea) ea)) }
    {
        let first = self.stored(alloc, end, Level::Root, table.frame)?;
        let behind = self.stored_behind(alloc, end, &table.pointers)?;
        let stored = joined(alloc, first, &behind)?;
        let barred = joined(alloc, stored, &table.racing)?;
        Ok(barred)
    }

    /// The addresses whose walks are barred whatever new root entries are, where they end so.
    pub fn barred(
        &self,
        alloc: Global,
        root: &Option<RootTable>,
        end: DataEnd,
    ) -> Result<Set, OutOfMemory>
        requires { IsTable (M.at self.now.memory.now) self.now.feet.now self.now.hart self.now.view root.now }
        ensures { IfOk result (IsSetOf (is_always_barred (M.at self.now.memory.now) self.now.feet.now self.now.hart self.now.view self.now.access end)) }
    {
        match root {
            None => Ok(Set::new(alloc)),
            Some(table) => self.barred_at(alloc, table, end),
        }
    }

    /// The addresses whose walks are barred at the second entry where their root entry is new and has this value.
    pub fn barred_by(
        &self,
        alloc: Global,
        root: &Option<RootTable>,
        end: DataEnd,
        new: &NewRoot,
    ) -> Result<Set, OutOfMemory>
        requires root { IsTable (M.at self.now.memory.now) self.now.feet.now self.now.hart self.now.view root.now }
        requires new { IsNewRoot (M.at self.now.memory.now) self.now.feet.now self.now.hart self.now.view new.now }
        ensures { IfOk result (IsSetOf (is_newly_barred (M.at self.now.memory.now) self.now.feet.now self.now.hart self.now.view self.now.access end new.now.value)) }
    {
        let Some(table) = root else {
            return Ok(Set::new(alloc));
        };
        if is_invalid(new.value) || !is_pointer(new.value) {
            return Ok(Set::new(alloc));
        }
        let stored = self.stored(alloc, end, Level::Second, new.value >> 10)?;
        let own = stored.and(alloc, &table.untouched)?;
        let barred = joined(alloc, own, &new.racing)?;
        Ok(barred)
    }
}
