// The ways of a fetch.
ghost use Rattle.std.specs.Prelude.{◌≡◌, ◌%◌, ◌<◌, ◌++◌, [], ◌∷◌, if◌then◌else◌, ℕ, List, filter, IfOk, OnOk};
ghost use Rattle.dom_set.specs.Elements.{is_in};
ghost use Rattle.rv_mem.specs.Ram.{in_ram};
ghost use Rattle.rv_mem.specs.Seen.{is_there};
ghost use Rattle.addr_rows.specs.Walks.{has_value};
ghost use Rattle.leaf_link.specs.FetchRows.{AreFetchRows, FetchRow};
ghost use Rattle.leaf_link.specs.Turns.{Turn};
ghost use Rattle.fetch_ways.specs.Internal.Keeping.{end_for, passes, seconds_of, way_of, ways_of};
ghost use Rattle.fetch_ways.specs.Ways.{AreFetchWays, IsFetchGround};

use crate::walker::Walker;
use crate::way::{FetchEnd, FetchWay};
use addr_rows::{has_value, rows, rows_are_walks};
use dom_set::{OutOfMemory, Set, set_laws};
use foot_map::FootMap;
use leaf_link::rows_serve_leaves;
use row_parts::{Forms, Row, RowEnd, counts, form_law, set_of};
use rv_isa::Instr;
use rv_mem::{Ram, Words};
use std::alloc::Global;
use sv_walk::{Kind, View};

/// Where a row leads the pc, if it leads somewhere or fails.
fn end_for(pc: u32, end: RowEnd) -> Option<FetchEnd>
    ensures { result ≡ end_for pc end }
{
    match end {
        RowEnd::Pa { base, mask } => Some(FetchEnd::At(base.wrapping_add(pc & mask))),
        RowEnd::Fault(cause) => Some(FetchEnd::Fails(cause)),
        RowEnd::Outside => None,
    }
}

/// The second entries of a row, or 0 where they are not new.
fn seconds_of(alloc: Global, leaf: &Option<Set>) -> Result<Set, OutOfMemory>
    ensures { IfOk result (λ s. s ≡ seconds_of leaf.now) }
{
    match leaf {
        Some(set) => {
            let copy = set.copy(alloc)?;
            Ok(copy)
        }
        None => {
            let zero = set_of(alloc, &[0])?;
            Ok(zero)
        }
    }
}

impl<'a, M: Words> Walker<'a, M> {
    /// Appends a root entry, if a row has it and its walk keeps.
    fn push_kept(
        &self,
        kept: &mut Vec<u32>,
        row: &Row,
        end: FetchEnd,
        first: u32,
    ) -> Result<(), OutOfMemory>
        ensures { OnOk result (kept.new.items ≡ kept.old.items ++ (if passes (M.at self.now.memory.now) self.now.feet.now self.now.hart self.now.view self.now.pc row.now end first then first ∷ [] else [])) }
    {
        if has_value(&row.root, first) && self.keeps(first, end) {
            kept.push(first)?;
        }
        Ok(())
    }

    /// The root entries of a list that a row has and whose walks keep.
    fn kept(
        &self,
        alloc: Global,
        row: &Row,
        end: FetchEnd,
        listed: &[u32],
    ) -> Result<Vec<u32>, OutOfMemory>
        ensures { IfOk result (λ kept. kept.items ≡ filter (passes (M.at self.now.memory.now) self.now.feet.now self.now.hart self.now.view self.now.pc row.now end) listed.now) }
    {
        let mut kept = Vec::new(alloc);
        for first in listed {
            self.push_kept(&mut kept, row, end, *first)?;
        }
        Ok(kept)
    }

    /// Appends the way of a row, if it has one.
    fn push_way(
        &self,
        alloc: Global,
        ways: &mut Vec<FetchWay>,
        row: &Row,
        listed: &[u32],
    ) -> Result<(), OutOfMemory>
        ensures { OnOk result (ways.new.items ≡ ways.old.items ++ way_of (M.at self.now.memory.now) self.now.feet.now self.now.hart self.now.view self.now.pc listed.now row.now) }
    {
        if !counts(row.apart, self.pc) || !row.ea.has(self.pc) {
            return Ok(());
        }
        let Some(end) = end_for(self.pc, row.end) else {
            return Ok(());
        };
        let kept = self.kept(alloc, row, end, listed)?;
        if kept.is_empty() {
            return Ok(());
        }
        let first = set_of(alloc, &kept)?;
        let second = seconds_of(alloc, &row.leaf)?;
        ways.push(FetchWay { first, second, end })?;
        Ok(())
    }

    /// The ways of rows.
    fn ways(
        &self,
        alloc: Global,
        rows: &[Row],
        listed: &[u32],
    ) -> Result<Vec<FetchWay>, OutOfMemory>
        ensures { IfOk result (λ ways. ways.items ≡ ways_of (M.at self.now.memory.now) self.now.feet.now self.now.hart self.now.view self.now.pc listed.now rows.now) }
    {
        let mut ways = Vec::new(alloc);
        for row in rows {
            self.push_way(alloc, &mut ways, row, listed)?;
        }
        Ok(ways)
    }
}

/// The ways of the fetch of a hart that stands at a pc and sees addresses as `view` says: each choice of new page table
/// entries of the forms, by where it leads, whose walk races with nothing. Where an entry is new and the pc leads to an
/// address, the word there is not known, and is none of the new entries.
pub fn fetch_ways<M: Words>(
    alloc: Global,
    m: &M,
    ram: &Ram,
    feet: &FootMap,
    hart: u8,
    view: View,
    pc: u32,
    forms: &Forms,
) -> Result<Vec<FetchWay>, OutOfMemory>
    requires { (n : ℕ) → is_there (M.at m.now n) ≡ in_ram ram.now n }
    ensures { IfOk result (λ ways. (t : Turn) → IsFetchGround (M.at m.now) feet.now hart view pc forms.now t → AreFetchWays t ways.items × (rows : List FetchRow) × AreFetchRows t rows) }
{
    set_laws();
    rows_are_walks::<Instr>();
    rows_serve_leaves();
    form_law(&forms.tables, &forms.pool, &forms.flags);
    let page = Set::from_ranges(alloc, &[(pc, pc)], 1)?;
    let found = rows(alloc, m, ram, view, Kind::Fetch, &page, forms)?;
    // A root entry that is not new stands as 0.
    let mut firsts = forms.firsts(alloc)?;
    firsts.push(0)?;
    let walker = Walker {
        memory: m,
        feet,
        hart,
        view,
        pc,
    };
    let ways = walker.ways(alloc, &found, &firsts)?;
    Ok(ways)
}
