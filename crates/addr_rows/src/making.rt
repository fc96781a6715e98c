// The rows of a set of addresses.
ghost use Rattle.std.specs.Prelude.{not, true, [], ◌∷◌, ◌≡◌, ℕ, ◌+◌, ◌*◌, ◌%◌, ◌/◌, ◌^◌, ◌<◌, ◌≤◌, ◌++◌, ◌&&◌, ◌==◌, Option, Some as SomeOf, OnOk, IfOk};
ghost use Rattle.dom_set.specs.Elements.{is_in};
ghost use Rattle.rv_mem.specs.Ram.{in_ram};
ghost use Rattle.rv_mem.specs.Seen.{is_there};
ghost use Rattle.sv_walk.specs.Translation.{is_translated};
ghost use Rattle.rv_mem.specs.declared.words.Seen.TheVariants.{Untouched};
ghost use Rattle.row_parts.specs.Alike.{by_groups, by_word};
ghost use Rattle.row_parts.specs.Classes.{entry_at, same, TableOf};
ghost use Rattle.row_parts.specs.Gaps.{are_indices_equal, counts};
ghost use Rattle.row_parts.specs.Items.{by_kind};
ghost use Rattle.row_parts.specs.Rows.{Adds, end_at, ends_in, found, is_of, when};
ghost use Rattle.addr_rows.specs.Combinations.{at_root, at_second, is_own_entry, is_table, root_frame, rooted, second_reaches, ways};
ghost use Rattle.addr_rows.specs.Scenes.{setting_of, setting_with, AreKept, AddsPointed, AddsTranslated, is_some};

use crate::root_entries::RootEntries;
use crate::scene::Scene;
use dom_set::{OutOfMemory, Set};
use row_parts::{
    ClassPart, Forms, Group, Level, News, Row, RowEnd, chosen, copy_of, grouped, indices_of,
    is_empty, kinds_of, off_diagonal, page_of, push_all, push_reached, table_in, word_at,
};
use rv_csr::Priv;
use rv_mem::{Ram, Seen, Words};
use std::alloc::Global;
use sv_walk::{
    Kind, View, is_closed, is_invalid, is_pointer, is_reserved, is_translated, is_unaligned,
};

impl Scene {
    /// Whether a new root entry leads to the root table itself.
    fn leads_back(&self, own: &Option<Set>, frame: u32) -> bool
        ensures { result ≡ (is_some own.now && (frame == root_frame self.now.view)) }
    {
        match own {
            Some(_) => frame == self.root_frame(),
            None => false,
        }
    }

    /// Appends the rows of addresses with this second entry.
    #[tactic(auto, unfolding(sv_walk::specs::Translation::second_end))]
    fn push_second(
        &self,
        alloc: Global,
        rows: &mut Vec<Row>,
        set: &Set,
        news: &News,
        entry: u32,
    ) -> Result<(), OutOfMemory>
        ensures { OnOk result (Adds rows.old.items rows.new.items (λ x root leaf. found (counts news.now.apart x && (is_in set.now x && (is_of news.now.root root && is_of news.now.leaf leaf))) (second_reaches (setting_of self.now) x entry))) }
    {
        if is_invalid(entry) || is_pointer(entry) || is_closed(self.view, self.kind, entry) {
            let end = RowEnd::Fault(self.kind.page_cause());
            push_all(alloc, rows, set, news, end)?;
            return Ok(());
        }
        push_reached(
            alloc,
            rows,
            &self.ram,
            self.kind,
            set,
            news,
            entry >> 10,
            12,
        )?;
        Ok(())
    }

    /// Appends the rows of addresses with each new second entry of a group.
    fn push_second_group(
        &self,
        alloc: Global,
        rows: &mut Vec<Row>,
        set: &Set,
        own: &Option<Set>,
        apart: bool,
        group: &Group,
    ) -> Result<(), OutOfMemory>
        ensures { OnOk result (Adds rows.old.items rows.new.items (λ x root leaf. when (counts apart x && (is_in set.now x && (is_of own.now root && is_of (SomeOf group.now.values) leaf))) (second_reaches (setting_of self.now) x group.now.entry ∷ []))) }
    {
        let root = copy_of(alloc, own)?;
        let values = group.values.copy(alloc)?;
        let leaf = Some(values);
        let news = News { root, leaf, apart };
        self.push_second(alloc, rows, set, &news, group.entry)?;
        Ok(())
    }

    /// Appends the rows of addresses whose second entry has no value yet.
    fn push_new_seconds(
        &self,
        alloc: Global,
        rows: &mut Vec<Row>,
        set: &Set,
        own: &Option<Set>,
        apart: bool,
    ) -> Result<(), OutOfMemory>
        requires { AreKept self.now }
        ensures { OnOk result (Adds rows.old.items rows.new.items (λ x root leaf. when (counts apart x && (is_in set.now x && is_of own.now root)) (at_second (setting_of self.now) true x Untouched leaf))) }
    {
        for group in &self.seconds {
            self.push_second_group(alloc, rows, set, own, apart, group)?;
        }
        Ok(())
    }

    /// Appends the rows of addresses whose second entry may be new, where it stands in the table in which the
    /// new root entry stands: it has to be another word.
    fn push_apart(
        &self,
        alloc: Global,
        rows: &mut Vec<Row>,
        set: &Set,
        own: &Option<Set>,
    ) -> Result<(), OutOfMemory>
        requires { AreKept self.now }
        ensures { OnOk result (Adds rows.old.items rows.new.items (λ x root leaf. when (is_in set.now x && is_of own.now root) (at_second (setting_of self.now) (not (are_indices_equal x)) x Untouched leaf))) }
    {
        match page_of(alloc, set)? {
            Some(_) => {
                let left = off_diagonal(alloc, set)?;
                if is_empty(&left) {
                    return Ok(());
                }
                self.push_new_seconds(alloc, rows, &left, own, false)?;
                Ok(())
            }
            None => {
                // Without the addresses that don't count the set may be in a thousand pieces.
                self.push_new_seconds(alloc, rows, set, own, true)?;
                Ok(())
            }
        }
    }

    /// Appends the rows of addresses whose second entry may be new, in a frame that is a table's.
    #[tactic(auto, using(crate::proofs::Fresh::own_is, crate::proofs::Fresh::not_own))]
    fn push_untouched(
        &self,
        alloc: Global,
        rows: &mut Vec<Row>,
        set: &Set,
        own: &Option<Set>,
        frame: u32,
    ) -> Result<(), OutOfMemory>
        requires { AreKept self.now }
        ensures { OnOk result (Adds rows.old.items rows.new.items (λ x root leaf. when (is_in set.now x && is_of own.now root) (at_second (setting_of self.now) (not (is_own_entry (setting_of self.now) (is_some own.now) frame x)) x Untouched leaf))) }
    {
        if self.leads_back(own, frame) {
            self.push_apart(alloc, rows, set, own)?;
            return Ok(());
        }
        self.push_new_seconds(alloc, rows, set, own, false)?;
        Ok(())
    }

    /// Appends the rows of addresses whose second entry, in this frame, is seen so.
    #[tactic(auto, using(crate::proofs::Groups::grouped, crate::proofs::Groups::no_group), unfolding(crate::specs::Combinations::at_second))]
    fn push_seen_second(
        &self,
        alloc: Global,
        rows: &mut Vec<Row>,
        set: &Set,
        own: &Option<Set>,
        frame: u32,
        seen: Seen,
    ) -> Result<(), OutOfMemory>
        requires { AreKept self.now }
        ensures { OnOk result (Adds rows.old.items rows.new.items (λ x root leaf. when (is_in set.now x && is_of own.now root) (at_second (setting_of self.now) (is_table self.now.tables.items frame && not (is_own_entry (setting_of self.now) (is_some own.now) frame x)) x seen leaf))) }
    {
        let root = copy_of(alloc, own)?;
        let news = News {
            root,
            leaf: None,
            apart: false,
        };
        match seen {
            Seen::Vacant => {
                let beyond = RowEnd::Fault(self.kind.access_cause());
                push_all(alloc, rows, set, &news, beyond)?;
                Ok(())
            }
            Seen::Known(entry) => {
                self.push_second(alloc, rows, set, &news, entry)?;
                Ok(())
            }
            Seen::Untouched => {
                if self.is_table(frame) {
                    self.push_untouched(alloc, rows, set, own, frame)?;
                    return Ok(());
                }
                Ok(())
            }
        }
    }

    /// Appends the rows of addresses whose second entry is seen so, by the table in its frame.
    #[tactic(auto, using(crate::proofs::Groups::none_in, crate::proofs::Groups::second_class, crate::proofs::Fresh::class_is))]
    fn push_second_class<M: Words>(
        &self,
        alloc: Global,
        _m: &M,
        rows: &mut Vec<Row>,
        set: &Set,
        own: &Option<Set>,
        frame: u32,
        table: &[Seen],
        seen: Seen,
    ) -> Result<(), OutOfMemory>
        requires kept { AreKept self.now }
        requires table { TableOf (M.at _m.now) frame table.now }
        ensures { OnOk result (Adds rows.old.items rows.new.items (λ x root leaf. when (is_in set.now x && (is_of own.now root && same seen (entry_at (M.at _m.now) frame (x / 2 ^ 12 % 2 ^ 10)))) (at_second (setting_of self.now) (is_table self.now.tables.items frame && not (is_own_entry (setting_of self.now) (is_some own.now) frame x)) x seen leaf))) }
    {
        let part = ClassPart {
            table,
            seen,
            level: Level::Second,
        };
        let class = chosen(alloc, set, &part, 22)?;
        if is_empty(&class) {
            return Ok(());
        }
        self.push_seen_second(alloc, rows, &class, own, frame, seen)?;
        Ok(())
    }

    /// Appends the rows of addresses for each way that entries of their second table are seen.
    fn push_second_kinds<M: Words>(
        &self,
        alloc: Global,
        m: &M,
        rows: &mut Vec<Row>,
        set: &Set,
        own: &Option<Set>,
        frame: u32,
        table: &[Seen],
        kinds: &[Seen],
    ) -> Result<(), OutOfMemory>
        requires kept { AreKept self.now }
        requires table { TableOf (M.at m.now) frame table.now }
        ensures { OnOk result (Adds rows.old.items rows.new.items (λ x root leaf. when (is_in set.now x && is_of own.now root) (by_kind kinds.now (entry_at (M.at m.now) frame (x / 2 ^ 12 % 2 ^ 10)) (λ k. at_second (setting_of self.now) (is_table self.now.tables.items frame && not (is_own_entry (setting_of self.now) (is_some own.now) frame x)) x k leaf)))) }
    {
        for seen in kinds {
            self.push_second_class(alloc, m, rows, set, own, frame, table, *seen)?;
        }
        Ok(())
    }

    /// Appends the rows of addresses whose root entry leads to the table in a frame, by its entries.
    #[tactic(auto, using(crate::proofs::Fresh::kinds_end), unfolding(crate::specs::Combinations::pointed))]
    fn push_table<M: Words>(
        &self,
        alloc: Global,
        m: &M,
        rows: &mut Vec<Row>,
        set: &Set,
        own: &Option<Set>,
        frame: u32,
    ) -> Result<(), OutOfMemory>
        requires kept { AreKept self.now }
        requires frame { frame < 2 ^ 22 }
        ensures { OnOk result (AddsPointed (M.at m.now) self.now rows.old.items rows.new.items set.now own.now frame) }
    {
        let table = table_in(alloc, m, frame)?;
        let kinds = kinds_of(alloc, &table)?;
        self.push_second_kinds(alloc, m, rows, set, own, frame, &table, &kinds)?;
        Ok(())
    }

    /// Appends the rows of addresses whose root entry leads to the table in a frame.
    #[tactic(auto, unfolding(crate::specs::Combinations::pointed))]
    fn push_pointed<M: Words>(
        &self,
        alloc: Global,
        m: &M,
        rows: &mut Vec<Row>,
        set: &Set,
        own: &Option<Set>,
        frame: u32,
    ) -> Result<(), OutOfMemory>
        requires kept { AreKept self.now }
        requires frame { frame < 2 ^ 22 }
        ensures { OnOk result (AddsPointed (M.at m.now) self.now rows.old.items rows.new.items set.now own.now frame) }
    {
        match page_of(alloc, set)? {
            Some(page) => {
                let index = page % 1024;
                let seen = word_at(m, u64::from(frame) * 4096 + u64::from(index) * 4);
                self.push_seen_second(alloc, rows, set, own, frame, seen)?;
                Ok(())
            }
            None => {
                self.push_table(alloc, m, rows, set, own, frame)?;
                Ok(())
            }
        }
    }

    /// Appends the rows of addresses with this root entry.
    #[tactic(auto, using(crate::proofs::Groups::grouped), unfolding(crate::specs::Combinations::rooted))]
    fn push_root<M: Words>(
        &self,
        alloc: Global,
        m: &M,
        rows: &mut Vec<Row>,
        set: &Set,
        own: &Option<Set>,
        entry: u32,
    ) -> Result<(), OutOfMemory>
        requires { AreKept self.now }
        ensures { OnOk result (Adds rows.old.items rows.new.items (λ x root leaf. when (is_in set.now x && is_of own.now root) (rooted (M.at m.now) (setting_of self.now) (is_some own.now) entry x leaf))) }
    {
        let fault = RowEnd::Fault(self.kind.page_cause());
        let root = copy_of(alloc, own)?;
        let news = News {
            root,
            leaf: None,
            apart: false,
        };
        if is_invalid(entry) {
            push_all(alloc, rows, set, &news, fault)?;
            return Ok(());
        }
        if is_pointer(entry) {
            if is_reserved(entry) {
                push_all(alloc, rows, set, &news, RowEnd::Outside)?;
                return Ok(());
            }
            self.push_pointed(alloc, m, rows, set, own, entry >> 10)?;
            return Ok(());
        }
        if is_unaligned(entry) || is_closed(self.view, self.kind, entry) {
            push_all(alloc, rows, set, &news, fault)?;
            return Ok(());
        }
        push_reached(
            alloc,
            rows,
            &self.ram,
            self.kind,
            set,
            &news,
            (entry >> 20) * 1024,
            22,
        )?;
        Ok(())
    }

    /// Appends the rows of addresses with each new root entry of a group.
    fn push_root_group<M: Words>(
        &self,
        alloc: Global,
        m: &M,
        rows: &mut Vec<Row>,
        set: &Set,
        group: &Group,
    ) -> Result<(), OutOfMemory>
        requires kept { AreKept self.now }
        ensures { OnOk result (Adds rows.old.items rows.new.items (λ x root leaf. when (is_in set.now x && (true && is_of (SomeOf group.now.values) root)) (rooted (M.at m.now) (setting_of self.now) true group.now.entry x leaf))) }
    {
        let values = group.values.copy(alloc)?;
        self.push_root(alloc, m, rows, set, &Some(values), group.entry)?;
        Ok(())
    }

    /// Appends the rows of addresses with the new root entries of groups.
    fn push_root_groups<M: Words>(
        &self,
        alloc: Global,
        m: &M,
        rows: &mut Vec<Row>,
        set: &Set,
        groups: &[Group],
    ) -> Result<(), OutOfMemory>
        requires kept { AreKept self.now }
        ensures { OnOk result (Adds rows.old.items rows.new.items (λ x root leaf. when (is_in set.now x && true) (by_groups groups.now root (λ w. rooted (M.at m.now) (setting_of self.now) true w x leaf)))) }
    {
        for group in groups {
            self.push_root_group(alloc, m, rows, set, group)?;
        }
        Ok(())
    }

    /// Appends the rows of addresses whose root entry has no value yet.
    fn push_new_roots<M: Words>(
        &self,
        alloc: Global,
        m: &M,
        rows: &mut Vec<Row>,
        set: &Set,
    ) -> Result<(), OutOfMemory>
        requires kept { AreKept self.now }
        requires may { is_table self.now.tables.items (root_frame self.now.view) ≡ true }
        ensures { OnOk result (Adds rows.old.items rows.new.items (λ x root leaf. when (is_in set.now x) (at_root (M.at m.now) (setting_of self.now) x Untouched root leaf))) }
    {
        let firsts = Vec::from_slice(alloc, &self.firsts)?;
        let choice = RootEntries {
            scene: self,
            memory: m,
            indices: indices_of(alloc, set)?,
        };
        let groups = grouped(alloc, &choice, firsts)?;
        self.push_root_groups(alloc, m, rows, set, &groups)?;
        Ok(())
    }

    /// Appends the rows of addresses whose root entry is seen so.
    #[tactic(auto, using(crate::proofs::Groups::grouped, crate::proofs::Groups::no_group, crate::proofs::Groups::when_and), unfolding(crate::specs::Combinations::at_root))]
    fn push_seen_root<M: Words>(
        &self,
        alloc: Global,
        m: &M,
        rows: &mut Vec<Row>,
        set: &Set,
        seen: Seen,
    ) -> Result<(), OutOfMemory>
        requires { AreKept self.now }
        ensures { OnOk result (Adds rows.old.items rows.new.items (λ x root leaf. when (is_in set.now x) (at_root (M.at m.now) (setting_of self.now) x seen root leaf))) }
    {
        match seen {
            Seen::Vacant => {
                let end = RowEnd::Fault(self.kind.access_cause());
                let news = News {
                    root: None,
                    leaf: None,
                    apart: false,
                };
                push_all(alloc, rows, set, &news, end)?;
                Ok(())
            }
            Seen::Known(entry) => {
                self.push_root(alloc, m, rows, set, &None, entry)?;
                Ok(())
            }
            Seen::Untouched => {
                if self.is_table(self.root_frame()) {
                    self.push_new_roots(alloc, m, rows, set)?;
                    return Ok(());
                }
                Ok(())
            }
        }
    }

    /// Appends the rows of addresses whose root entry is seen so, by the root table.
    #[tactic(auto, using(crate::proofs::Groups::none_in, crate::proofs::Groups::root_class, crate::proofs::Fresh::class_is))]
    fn push_root_class<M: Words>(
        &self,
        alloc: Global,
        m: &M,
        rows: &mut Vec<Row>,
        set: &Set,
        table: &[Seen],
        seen: Seen,
    ) -> Result<(), OutOfMemory>
        requires kept { AreKept self.now }
        requires table { TableOf (M.at m.now) (root_frame self.now.view) table.now }
        ensures { OnOk result (Adds rows.old.items rows.new.items (λ x root leaf. when (is_in set.now x && (true && same seen (entry_at (M.at m.now) (root_frame self.now.view) (x / 2 ^ 22)))) (at_root (M.at m.now) (setting_of self.now) x seen root leaf))) }
    {
        let part = ClassPart {
            table,
            seen,
            level: Level::Root,
        };
        let class = chosen(alloc, set, &part, 32)?;
        if is_empty(&class) {
            return Ok(());
        }
        self.push_seen_root(alloc, m, rows, &class, seen)?;
        Ok(())
    }

    /// Appends the rows of addresses for each way that entries of the root table are seen.
    fn push_root_kinds<M: Words>(
        &self,
        alloc: Global,
        m: &M,
        rows: &mut Vec<Row>,
        set: &Set,
        table: &[Seen],
        kinds: &[Seen],
    ) -> Result<(), OutOfMemory>
        requires kept { AreKept self.now }
        requires table { TableOf (M.at m.now) (root_frame self.now.view) table.now }
        ensures { OnOk result (Adds rows.old.items rows.new.items (λ x root leaf. when (is_in set.now x && true) (by_kind kinds.now (entry_at (M.at m.now) (root_frame self.now.view) (x / 2 ^ 22)) (λ k. at_root (M.at m.now) (setting_of self.now) x k root leaf)))) }
    {
        for seen in kinds {
            self.push_root_class(alloc, m, rows, set, table, *seen)?;
        }
        Ok(())
    }

    /// Appends the rows of addresses that are translated, by the entries of the root table.
    #[tactic(auto, using(crate::proofs::Fresh::root_end))]
    fn push_root_table<M: Words>(
        &self,
        alloc: Global,
        m: &M,
        rows: &mut Vec<Row>,
        set: &Set,
    ) -> Result<(), OutOfMemory>
        requires { AreKept self.now }
        ensures { OnOk result (AddsTranslated (M.at m.now) self.now rows.old.items rows.new.items set.now) }
    {
        let table = table_in(alloc, m, self.root_frame())?;
        let kinds = kinds_of(alloc, &table)?;
        self.push_root_kinds(alloc, m, rows, set, &table, &kinds)?;
        Ok(())
    }

    /// Appends the rows of addresses that are translated.
    fn push_translated<M: Words>(
        &self,
        alloc: Global,
        m: &M,
        rows: &mut Vec<Row>,
        set: &Set,
    ) -> Result<(), OutOfMemory>
        requires { AreKept self.now }
        ensures { OnOk result (AddsTranslated (M.at m.now) self.now rows.old.items rows.new.items set.now) }
    {
        match page_of(alloc, set)? {
            Some(page) => {
                let index = page / 1024;
                let seen = word_at(
                    m,
                    u64::from(self.root_frame()) * 4096 + u64::from(index) * 4,
                );
                self.push_seen_root(alloc, m, rows, set, seen)?;
                Ok(())
            }
            None => {
                self.push_root_table(alloc, m, rows, set)?;
                Ok(())
            }
        }
    }

    /// Appends the rows of addresses.
    #[tactic(auto, using(crate::proofs::Groups::bare), unfolding(crate::specs::Combinations::ways))]
    fn push_ways<M: Words>(
        &self,
        alloc: Global,
        m: &M,
        rows: &mut Vec<Row>,
        set: &Set,
    ) -> Result<(), OutOfMemory>
        requires { AreKept self.now }
        ensures { OnOk result (Adds rows.old.items rows.new.items (λ x root leaf. when (is_in set.now x) (ways (M.at m.now) (setting_of self.now) x root leaf))) }
    {
        if is_translated(self.view) {
            self.push_translated(alloc, m, rows, set)?;
            return Ok(());
        }
        let news = News {
            root: None,
            leaf: None,
            apart: false,
        };
        push_reached(alloc, rows, &self.ram, self.kind, set, &news, 0, 32)?;
        Ok(())
    }
}

/// Where each address of a set leads, with what is known of memory and with each choice of page table
/// entries of the forms where an entry has no value yet. New entries stand in frames for tables, and a
/// new root entry and a new second entry are never the same word of memory. `ram` is the RAM of the
/// memory, and `v` and `kind` are what the addresses are used for. Each combination of an address with
/// new entries is in exactly one row, and a row holds nothing else; an untouched entry that stands in no
/// frame for tables has no row.
pub fn rows<M: Words>(
    alloc: Global,
    m: &M,
    ram: &Ram,
    v: View,
    kind: Kind,
    pages: &Set,
    forms: &Forms,
) -> Result<Vec<Row>, OutOfMemory>
    requires { (n : ℕ) → is_there (M.at m.now n) ≡ in_ram ram.now n }
    ensures { IfOk result (λ rs. (x : ℕ) (root leaf : Option ℕ) → x < 2 ^ 32 →
        ends_in rs.items x root leaf
        ≡ when (is_in pages.now x) (ways (M.at m.now) (setting_with ram.now v kind forms.now) x root leaf)) }
{
    let scene = Scene::new(alloc, ram, v, kind, forms)?;
    let mut rows = Vec::new(alloc);
    scene.push_ways(alloc, m, &mut rows, pages)?;
    Ok(rows)
}
