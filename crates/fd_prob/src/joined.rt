// Several lists of rows as one.
ghost use Rattle.std.specs.Prelude.{◌≤◌, ◌≡◌, ◌↔◌, ◌<◌, ◌&&◌, ◌||◌, IfOk, IsTrue, OnOk, count_by};
ghost use Rattle.std.specs.List.{list_all, list_any};
ghost use Rattle.rv_isa.specs.declared.operation.Op.{Op};
ghost use Rattle.fd_prob.specs.declared.problem.Assignment.{Assignment};
ghost use Rattle.fd_prob.specs.Internal.Joined.{all_hold};
ghost use Rattle.fd_prob.specs.Joining.{AreCommonRows, IsCommonRow, IsCommonSet, IsRestated, is_in_some_row, is_rows, some_row_holds};
ghost use Rattle.fd_prob.specs.Relations.{holds, is_in_row};

use crate::Items;
use crate::copies::{copy_rows, copy_sets};
use crate::problem::Case;
use crate::relation::{Quad, Rel};
use dom_set::{OutOfMemory, Set};
use std::alloc::Global;

/// What two sets have in common, unless that is nothing.
fn common(alloc: Global, a: &Set, b: &Set) -> Result<Option<Set>, OutOfMemory>
    ensures { IfOk result (IsCommonSet a.now b.now) }
{
    let common = a.and(alloc, b)?;
    if common.is_empty() {
        return Ok(None);
    }
    Ok(Some(common))
}

/// The row that holds where both do, unless two of their sets do not meet.
fn common_row(alloc: Global, a: &Quad, b: &Quad) -> Result<Option<Quad>, OutOfMemory>
    ensures { IfOk result (IsCommonRow a.now b.now) }
{
    let Some(root) = common(alloc, &a.root, &b.root)? else {
        return Ok(None);
    };
    let Some(leaf) = common(alloc, &a.leaf, &b.leaf)? else {
        return Ok(None);
    };
    let Some(word) = common(alloc, &a.word, &b.word)? else {
        return Ok(None);
    };
    let Some(ea) = common(alloc, &a.ea, &b.ea)? else {
        return Ok(None);
    };
    Ok(Some(Quad {
        ea,
        root,
        leaf,
        word,
    }))
}

/// Whether two rows have the same sets.
fn are_same(a: &Quad, b: &Quad) -> bool
    ensures { IsTrue result → a.now ≡ b.now }
{
    a.ea == b.ea && a.root == b.root && a.leaf == b.leaf && a.word == b.word
}

/// Whether a row is one of a list.
fn is_among(rows: &[Quad], row: &Quad) -> bool
    ensures { IsTrue result → (x : Assignment) → (list_any (is_in_row x) rows.now || is_in_row x row.now) ≡ list_any (is_in_row x) rows.now }
{
    for other in rows {
        if are_same(other, row) {
            return true;
        }
    }
    false
}

/// Puts a row at the end, if there is one that isn't there.
fn push_row(rows: &mut Vec<Quad>, row: Option<Quad>) -> Result<(), OutOfMemory>
    ensures { OnOk result ((x : Assignment) → list_any (is_in_row x) rows.new.items ≡ (list_any (is_in_row x) rows.old.items || is_in_some_row x row)) }
{
    let Some(row) = row else {
        return Ok(());
    };
    if is_among(rows, &row) {
        return Ok(());
    }
    rows.push(row)?;
    Ok(())
}

/// Puts at the end the rows that hold where the first one and one of the others do.
fn push_common(
    rows: &mut Vec<Quad>,
    alloc: Global,
    first: &Quad,
    others: &[Quad],
) -> Result<(), OutOfMemory>
    ensures { OnOk result ((x : Assignment) → list_any (is_in_row x) rows.new.items ≡ (list_any (is_in_row x) rows.old.items || (is_in_row x first.now && list_any (is_in_row x) others.now))) }
{
    for other in others {
        push_row(rows, common_row(alloc, first, other)?)?;
    }
    Ok(())
}

/// Rows of which one holds just where one of each list does.
fn common_rows(alloc: Global, firsts: &[Quad], others: &[Quad]) -> Result<Vec<Quad>, OutOfMemory>
    ensures { IfOk result (λ made. AreCommonRows firsts.now others.now made.items) }
{
    let mut rows = Vec::new(alloc);
    for first in firsts {
        push_common(&mut rows, alloc, first, others)?;
    }
    Ok(rows)
}

/// Relations of which none is one of rows, and the rows that were joined so far.
#[derive(Drop)]
struct Joined {
    rels: Items<Rel>,
    /// None where there was no relation of rows yet.
    rows: Option<Items<Quad>>,
}

/// Rows of which one holds just where one of the list does, and one of those before, if there were any.
fn with_rows(
    alloc: Global,
    before: Option<Items<Quad>>,
    rows: &[Quad],
) -> Result<Items<Quad>, OutOfMemory>
    ensures { IfOk result (λ made. (x : Assignment) → list_any (is_in_row x) made ≡ (some_row_holds x before && list_any (is_in_row x) rows.now)) }
{
    match before {
        Some(before) => {
            let rows = common_rows(alloc, before.as_slice(), rows)?;
            Ok(Items::from_vec(rows))
        }
        None => {
            let rows = copy_rows(alloc, rows)?;
            Ok(Items::from_vec(rows))
        }
    }
}

impl Joined {
    /// The same with one relation more.
    fn with(self, alloc: Global, rel: &Rel) -> Result<Joined, OutOfMemory>
        ensures holds { IfOk result (λ made. (op : Op) (x : Assignment) → all_hold op x made ≡ (all_hold op x self && holds op x rel.now)) }
        ensures none { count_by is_rows self.rels ≡ 0 → IfOk result (λ made. count_by is_rows made.rels ≡ 0) }
    {
        let Joined { mut rels, rows } = self;
        match rel {
            Rel::Rows(more) => {
                let rows = with_rows(alloc, rows, more.as_slice())?;
                Ok(Joined {
                    rels,
                    rows: Some(rows),
                })
            }
            _ => {
                rels.push(rel.copy(alloc)?)?;
                Ok(Joined { rels, rows })
            }
        }
    }

    /// The relations, with the rows as one of them.
    fn into_rels(self) -> Result<Items<Rel>, OutOfMemory>
        ensures holds { IfOk result (λ made. (op : Op) (x : Assignment) → list_all (holds op x) made ≡ all_hold op x self) }
        ensures few { count_by is_rows self.rels ≡ 0 → IfOk result (λ made. count_by is_rows made ≤ 1) }
    {
        let Joined { mut rels, rows } = self;
        if let Some(rows) = rows {
            rels.push(Rel::Rows(rows))?;
        }
        Ok(rels)
    }
}

/// Whether the relation is one of rows.
fn is_rows(rel: &Rel) -> bool
    ensures { result ≡ is_rows rel.now }
{
    matches!(rel, Rel::Rows(_))
}

impl Case {
    /// Whether more than one relation is one of rows.
    pub fn has_several_rows(&self) -> bool
        ensures { IsTrue result ↔ (1 < count_by is_rows self.now.rels) }
    {
        self.rels
            .as_slice()
            .iter()
            .filter(|rel| is_rows(rel))
            .count()
            > 1
    }

    /// The same case in memory of its own, but that its relations of rows are one, which holds just where they
    /// all do.
    pub fn joined(&self, alloc: Global) -> Result<Case, OutOfMemory>
        ensures { IfOk result (IsRestated self.now) }
    {
        let mut joined = Joined {
            rels: Items::new(alloc),
            rows: None,
        };
        for rel in self.rels.as_slice() {
            joined = joined.with(alloc, rel)?;
        }
        let rels = joined.into_rels()?;
        let doms = copy_sets(alloc, self.doms.as_slice())?;
        Ok(Case {
            op: self.op,
            doms: Items::from_vec(doms),
            rels,
        })
    }
}
