// What tables of values leave of variables.
ghost use Rattle.std.specs.Prelude.{◌≡◌, IsTrue, OnOk};
ghost use Rattle.fd_prob.specs.Relations.{is_held, value_of};
ghost use Rattle.fd_narrow.specs.Internal.Steps.{IsOnly, Leaves};

use crate::domains::Domains;
use dom_set::OutOfMemory;
use fd_prob::Slot;
use set_sums::words_of;
use std::alloc::Global;
use word_sets::{entries_among, other_indices, refused_indices};

impl Domains {
    /// Takes the indices away at which the table has a value that the variable can't have.
    fn narrow_index(
        &mut self,
        alloc: Global,
        index: Slot,
        value: Slot,
        table: &[Option<u32>],
    ) -> Result<(), OutOfMemory>
        ensures { OnOk result (Leaves (λ x. IsTrue (is_held x index value table.now)) self.old self.new) }
    {
        let refused = refused_indices(alloc, table, self.domain(value))?;
        if refused.is_empty() {
            return Ok(());
        }
        let indices = words_of(alloc, &refused)?;
        self.take(alloc, index, &indices)
    }

    /// Cuts the variable to the values of the table, where it has one at each index that is left.
    fn narrow_entry(
        &mut self,
        alloc: Global,
        index: Slot,
        value: Slot,
        table: &[Option<u32>],
    ) -> Result<(), OutOfMemory>
        ensures { OnOk result (Leaves (λ x. IsTrue (is_held x index value table.now)) self.old self.new) }
    {
        let entries = entries_among(alloc, table, self.domain(index))?;
        let found = words_of(alloc, &entries.indices)?;
        let missing = self.domain(index).minus(alloc, &found)?;
        if missing.size() > 0 {
            return Ok(());
        }
        let values = words_of(alloc, &entries.values)?;
        self.cut(alloc, value, &values)
    }

    /// The variable has this value.
    fn fix(&mut self, alloc: Global, slot: Slot, value: u32) -> Result<(), OutOfMemory>
        ensures { OnOk result (Leaves (λ x. value_of x slot ≡ value) self.old self.new) }
    {
        let one = words_of(alloc, &[(value, value)])?;
        self.cut(alloc, slot, &one)
    }

    /// Cuts the variable to the value that the table has at the only index, if it has one there.
    fn narrow_at(
        &mut self,
        alloc: Global,
        at: u32,
        index: Slot,
        value: Slot,
        table: &[Option<u32>],
    ) -> Result<(), OutOfMemory>
        requires { IsOnly self.old index at }
        ensures { OnOk result (Leaves (λ x. IsTrue (is_held x index value table.now)) self.old self.new) }
    {
        match table.get(at as usize) {
            Some(Some(held)) => self.fix(alloc, value, *held),
            Some(None) => Ok(()),
            None => Ok(()),
        }
    }

    /// Takes the indices away at which the table has a value that is not the index itself.
    fn narrow_own(
        &mut self,
        alloc: Global,
        index: Slot,
        table: &[Option<u32>],
    ) -> Result<(), OutOfMemory>
        ensures { OnOk result (Leaves (λ x. IsTrue (is_held x index index table.now)) self.old self.new) }
    {
        let others = other_indices(alloc, table)?;
        let indices = words_of(alloc, &others)?;
        self.take(alloc, index, &indices)
    }

    /// Where the table has a value at the index, the variable has that value.
    pub(crate) fn narrow_held(
        &mut self,
        alloc: Global,
        index: Slot,
        value: Slot,
        table: &[Option<u32>],
    ) -> Result<(), OutOfMemory>
        ensures { OnOk result (Leaves (λ x. IsTrue (is_held x index value table.now)) self.old self.new) }
    {
        if index == value {
            return self.narrow_own(alloc, index, table);
        }
        if let Some(at) = self.single(index) {
            return self.narrow_at(alloc, at, index, value, table);
        }
        self.narrow_index(alloc, index, value, table)?;
        self.narrow_entry(alloc, index, value, table)
    }
}
