// What new root entries lead to.
ghost use Rattle.std.specs.Prelude.{◌≡◌, ℕ, ◌<◌, ◌≤◌, true, Option};
ghost use Rattle.row_parts.specs.Classes.{entry_at, has_index};
ghost use Rattle.addr_rows.specs.Combinations.{pointed};
ghost use Rattle.addr_rows.specs.Scenes.{setting_of};

use crate::scene::Scene;
use row_parts::{Entries, Indices, Target, is_same, is_same_target, root_target, word_at};
use rv_mem::Words;

/// New root entries of addresses that have these indices in their second tables, with what their ends
/// depend on.
#[derive(Drop)]
pub struct RootEntries<'a, M: Words> {
    pub scene: &'a Scene,
    pub memory: &'a M,
    pub indices: Indices,
}

impl<'a, M: Words> RootEntries<'a, M> {
    /// Whether the entries of two tables with the indices are the same.
    fn are_entries_same(&self, f: u32, g: u32) -> bool
        ensures { result ≡ true → (i : ℕ) → self.now.indices.first ≤ i → i < self.now.indices.end →
            entry_at (M.at self.now.memory.now) f i ≡ entry_at (M.at self.now.memory.now) g i }
    {
        for i in self.indices.first..self.indices.end {
            let one = word_at(self.memory, u64::from(f) * 4096 + u64::from(i) * 4);
            let other = word_at(self.memory, u64::from(g) * 4096 + u64::from(i) * 4);
            if !is_same(one, other) {
                return false;
            }
        }
        true
    }

    /// Whether pointers to two tables are seen to lead alike.
    fn are_tables_alike(&self, f: u32, g: u32) -> bool
        ensures { result ≡ true → (x : ℕ) (leaf : Option ℕ) → has_index self.now.indices.first self.now.indices.end x ≡ true →
            pointed (M.at self.now.memory.now) (setting_of self.now.scene.now) true f x leaf
            ≡ pointed (M.at self.now.memory.now) (setting_of self.now.scene.now) true g x leaf }
    {
        let root = self.scene.root_frame();
        if f == root || g == root {
            return false;
        }
        if self.scene.is_table(f) != self.scene.is_table(g) {
            return false;
        }
        self.are_entries_same(f, g)
    }
}

impl<'a, M: Words> Entries for RootEntries<'a, M> {
    ghost use Rattle.std.specs.Prelude.{true};
    ghost use Rattle.row_parts.specs.Classes.{has_index};
    ghost use Rattle.row_parts.specs.Rows.{when};
    ghost use Rattle.addr_rows.specs.Combinations.{rooted};
    ghost use Rattle.addr_rows.specs.Scenes.{setting_of};

    ghost ends = { λ r w x leaf. when (has_index r.indices.first r.indices.end x) (rooted (M.at r.memory.now) (setting_of r.scene.now) true w x leaf) };

    fn are_alike(&self, a: u32, b: u32) -> bool {
        let first = root_target(self.scene.view, self.scene.kind, a);
        let second = root_target(self.scene.view, self.scene.kind, b);
        if is_same_target(first, second) {
            return true;
        }
        match (first, second) {
            (Target::Table(f), Target::Table(g)) => self.are_tables_alike(f, g),
            _ => false,
        }
    }
}
