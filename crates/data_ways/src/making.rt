// The ways of loads and stores.
ghost use Rattle.std.specs.Prelude.{◌≡◌, ◌%◌, ◌<◌, ◌^◌, ◌&&◌, ◌||◌, not, Bool, ℕ, List, All, map, IfOk, OnOk};
ghost use Rattle.std.specs.List.{list_any};
ghost use Rattle.dom_set.specs.Elements.{is_in};
ghost use Rattle.rv_mem.specs.Ram.{in_ram};
ghost use Rattle.rv_mem.specs.Seen.{is_there};
ghost use Rattle.row_parts.specs.Gaps.{counts};
ghost use Rattle.addr_rows.specs.Walks.{EntryRow, has_value};
ghost use Rattle.leaf_link.specs.Reaching.{AreRows};
ghost use Rattle.leaf_link.specs.Turns.{Turn};
ghost use Rattle.data_ways.specs.Internal.Making.{end_for, in_ways, part_has, part_in, row_has, rows_have, takes};
ghost use Rattle.data_ways.specs.Internal.Tables.{IsNewRoot, IsTable};
ghost use Rattle.data_ways.specs.Ways.{AreDataWays, IsDataGround, kind_of};

use crate::barring::{NewRoot, RootTable};
use crate::walker::Walker;
use crate::way::{DataEnd, DataWay};
use addr_rows::{has_value, rows, rows_are_walks};
use data_bytes::DataAccess;
use dom_set::{OutOfMemory, Set, set_laws};
use foot_map::FootMap;
use leaf_link::rows_serve_leaves;
use row_parts::{Forms, Row, RowEnd, form_law, set_of};
use rv_isa::Instr;
use rv_mem::{Ram, Words};
use std::alloc::Global;
use sv_walk::{Kind, View};

/// The second entries of a row, or 0 where they are not new.
fn seconds_of(alloc: Global, leaf: &Option<Set>) -> Result<Set, OutOfMemory>
    ensures { IfOk result (λ s. (w : ℕ) → is_in s w ≡ has_value leaf.now w) }
{
    match leaf {
        Some(set) => {
            let copy = set.copy(alloc)?;
            Ok(copy)
        }
        None => {
            let zero = set_of(alloc, &[0])?;
            Ok(zero)
        }
    }
}

/// Where a row leads, if it says so.
fn end_for(end: RowEnd) -> Option<DataEnd>
    ensures { result ≡ end_for end }
{
    match end {
        RowEnd::Pa { base, mask } => Some(DataEnd::At { base, mask }),
        RowEnd::Fault(cause) => Some(DataEnd::Fails(cause)),
        RowEnd::Outside => None,
    }
}

/// The translations of an access.
fn kind_of(access: DataAccess) -> Kind
    ensures { result ≡ kind_of access }
{
    match access {
        DataAccess::Load => Kind::Load,
        DataAccess::Store => Kind::Store,
    }
}

/// Addresses of a row with its new entries, and where they lead.
#[derive(Drop)]
struct Part<'a> {
    ea: Set,
    root: &'a Option<Set>,
    leaf: &'a Option<Set>,
    /// Whether only addresses count whose two indices differ.
    apart: bool,
    end: DataEnd,
}

/// Appends the way of some addresses and root entries, if there are any.
fn push_way(
    alloc: Global,
    ways: &mut Vec<DataWay>,
    ea: Set,
    firsts: &[u32],
    leaf: &Option<Set>,
    apart: bool,
    end: DataEnd,
) -> Result<(), OutOfMemory>
    ensures { OnOk result ((test : DataEnd → Bool) (x first second : ℕ) →
        in_ways test ways.new.items x first second
        ≡ (in_ways test ways.old.items x first second || (test end && (((counts apart x && is_in ea x) && is_in firsts.now first) && has_value leaf.now second)))) }
{
    if ea.is_empty() || firsts.is_empty() {
        return Ok(());
    }
    let first = set_of(alloc, firsts)?;
    let second = seconds_of(alloc, leaf)?;
    ways.push(DataWay {
        ea,
        first,
        second,
        apart,
        end,
    })?;
    Ok(())
}

impl<'a, M: Words> Walker<'a, M> {
    /// Appends a possible root entry to those with which no address of a part is barred, or its own way.
    fn push_first(
        &self,
        alloc: Global,
        root: &Option<RootTable>,
        ways: &mut Vec<DataWay>,
        others: &mut Vec<u32>,
        part: &Part,
        new: &NewRoot,
    ) -> Result<(), OutOfMemory>
        requires root { IsTable (M.at self.now.memory.now) self.now.feet.now self.now.hart self.now.view root.now }
        requires new { IsNewRoot (M.at self.now.memory.now) self.now.feet.now self.now.hart self.now.view new.now }
        ensures { OnOk result ((test : DataEnd → Bool) (x first second : ℕ) → x < 2 ^ 32 →
            (in_ways test ways.new.items x first second || part_has test part.now (part_in part.now x && is_in others.new.items first) second)
            ≡ ((in_ways test ways.old.items x first second || part_has test part.now (part_in part.now x && is_in others.old.items first) second)
            || part_has test part.now (part_in part.now x && takes (M.at self.now.memory.now) self.now.feet.now self.now.hart self.now.view self.now.access part.now x first new.now) second)) }
    {
        if !has_value(part.root, new.value) {
            return Ok(());
        }
        let barred = self.barred_by(alloc, root, part.end, new)?;
        if barred.is_empty() {
            others.push(new.value)?;
            return Ok(());
        }
        let ea = part.ea.minus(alloc, &barred)?;
        push_way(
            alloc,
            ways,
            ea,
            &[new.value],
            part.leaf,
            part.apart,
            part.end,
        )?;
        Ok(())
    }

    /// Appends the ways of a part of a row.
    fn push_part(
        &self,
        alloc: Global,
        root: &Option<RootTable>,
        news: &[NewRoot],
        ways: &mut Vec<DataWay>,
        part: Part,
    ) -> Result<(), OutOfMemory>
        requires root { IsTable (M.at self.now.memory.now) self.now.feet.now self.now.hart self.now.view root.now }
        requires news { All (IsNewRoot (M.at self.now.memory.now) self.now.feet.now self.now.hart self.now.view) news.now }
        ensures { OnOk result ((test : DataEnd → Bool) (x first second : ℕ) → x < 2 ^ 32 →
            in_ways test ways.new.items x first second
            ≡ (in_ways test ways.old.items x first second
            || part_has test part.entry (part_in part.entry x && list_any (takes (M.at self.now.memory.now) self.now.feet.now self.now.hart self.now.view self.now.access part.entry x first) news.now) second)) }
    {
        let mut others = Vec::new(alloc);
        for new in news {
            self.push_first(alloc, root, ways, &mut others, &part, new)?;
        }
        push_way(
            alloc, ways, part.ea, &others, part.leaf, part.apart, part.end,
        )?;
        Ok(())
    }

    /// Appends the ways of a row.
    fn push_row(
        &self,
        alloc: Global,
        root: &Option<RootTable>,
        news: &[NewRoot],
        ways: &mut Vec<DataWay>,
        row: &Row,
    ) -> Result<(), OutOfMemory>
        requires root { IsTable (M.at self.now.memory.now) self.now.feet.now self.now.hart self.now.view root.now }
        requires news { All (IsNewRoot (M.at self.now.memory.now) self.now.feet.now self.now.hart self.now.view) news.now }
        ensures { OnOk result ((test : DataEnd → Bool) (x first second : ℕ) → x < 2 ^ 32 →
            in_ways test ways.new.items x first second
            ≡ (in_ways test ways.old.items x first second
            || row_has (M.at self.now.memory.now) self.now.feet.now self.now.hart self.now.view self.now.access test (map (λ new. new.value) news.now) row.now x first second)) }
    {
        let Some(end) = end_for(row.end) else {
            return Ok(());
        };
        let barred = self.barred(alloc, root, end)?;
        let left = row.ea.minus(alloc, &barred)?;
        let ea = left.tightened(alloc)?;
        let part = Part {
            ea,
            root: &row.root,
            leaf: &row.leaf,
            apart: row.apart,
            end,
        };
        self.push_part(alloc, root, news, ways, part)?;
        Ok(())
    }

    /// The ways of rows.
    fn ways(
        &self,
        alloc: Global,
        root: &Option<RootTable>,
        news: &[NewRoot],
        rows: &[Row],
    ) -> Result<Vec<DataWay>, OutOfMemory>
        requires root { IsTable (M.at self.now.memory.now) self.now.feet.now self.now.hart self.now.view root.now }
        requires news { All (IsNewRoot (M.at self.now.memory.now) self.now.feet.now self.now.hart self.now.view) news.now }
        ensures { IfOk result (λ ways. (test : DataEnd → Bool) (x first second : ℕ) → x < 2 ^ 32 →
            in_ways test ways.items x first second
            ≡ rows_have (M.at self.now.memory.now) self.now.feet.now self.now.hart self.now.view self.now.access test (map (λ new. new.value) news.now) rows.now x first second) }
    {
        let mut ways = Vec::new(alloc);
        for row in rows {
            self.push_row(alloc, root, news, &mut ways, row)?;
        }
        Ok(ways)
    }
}

/// The ways of loads, or of stores, of a hart that sees addresses as `view` says: each choice of an address of some pages
/// and of new page table entries of the forms, by where it leads, whose walk races with nothing. No store goes to a known
/// entry that its own walk reads.
pub fn data_ways<M: Words>(
    alloc: Global,
    m: &M,
    ram: &Ram,
    feet: &FootMap,
    hart: u8,
    view: View,
    access: DataAccess,
    pages: &Set,
    forms: &Forms,
) -> Result<Vec<DataWay>, OutOfMemory>
    requires { (n : ℕ) → is_there (M.at m.now n) ≡ in_ram ram.now n }
    ensures { IfOk result (λ ways. (t : Turn) → IsDataGround (M.at m.now) feet.now hart view forms.now t →
        AreDataWays t access (is_in pages.now) ways.items × (rows : List EntryRow) × AreRows t (is_in pages.now) (kind_of access) rows) }
{
    set_laws();
    rows_are_walks::<Instr>();
    rows_serve_leaves();
    form_law(&forms.tables, &forms.pool, &forms.flags);
    let found = rows(alloc, m, ram, view, kind_of(access), pages, forms)?;
    // A root entry that is not new stands as 0.
    let mut firsts = forms.firsts(alloc)?;
    firsts.push(0)?;
    let walker = Walker {
        memory: m,
        feet,
        hart,
        view,
        access,
    };
    let root = walker.root_table(alloc)?;
    let news = walker.new_roots(alloc, &root, &firsts)?;
    let ways = walker.ways(alloc, &root, &news, &found)?;
    Ok(ways)
}
