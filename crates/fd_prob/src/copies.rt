// Copies of what problems are made of, in memory of their own.
ghost use Rattle.std.specs.Prelude.{◌≡◌, ◌++◌, IfOk, OnOk};

use crate::Items;
use crate::problem::Case;
use crate::relation::{Quad, Rel};
use dom_set::{OutOfMemory, Set};
use std::alloc::Global;

/// The same sets, in memory of their own.
pub fn copy_sets(alloc: Global, sets: &[Set]) -> Result<Vec<Set>, OutOfMemory>
    ensures { IfOk result (λ made. made.items ≡ sets.now) }
{
    let mut made = Vec::new(alloc);
    for set in sets {
        made.push(set.copy(alloc)?)?;
    }
    Ok(made)
}

/// The same rows, in memory of their own.
pub fn copy_rows(alloc: Global, rows: &[Quad]) -> Result<Vec<Quad>, OutOfMemory>
    ensures { IfOk result (λ made. made.items ≡ rows.now) }
{
    let mut made = Vec::new(alloc);
    for row in rows {
        made.push(row.copy(alloc)?)?;
    }
    Ok(made)
}

/// Puts copies of the relations at the end of a list.
pub fn push_rels(rels: &mut Vec<Rel>, alloc: Global, more: &[Rel]) -> Result<(), OutOfMemory>
    ensures { OnOk result (rels.new.items ≡ rels.old.items ++ more.now) }
{
    for rel in more {
        rels.push(rel.copy(alloc)?)?;
    }
    Ok(())
}

impl Quad {
    /// The same row, in memory of its own.
    pub fn copy(&self, alloc: Global) -> Result<Quad, OutOfMemory>
        ensures { IfOk result (λ made. made ≡ self.now) }
    {
        let ea = self.ea.copy(alloc)?;
        let root = self.root.copy(alloc)?;
        let leaf = self.leaf.copy(alloc)?;
        let word = self.word.copy(alloc)?;
        Ok(Quad {
            ea,
            root,
            leaf,
            word,
        })
    }
}

impl Rel {
    /// The same relation, in memory of its own.
    pub fn copy(&self, alloc: Global) -> Result<Rel, OutOfMemory>
        ensures { IfOk result (λ made. made ≡ self.now) }
    {
        match self {
            Rel::Same(s, t) => Ok(Rel::Same(*s, *t)),
            Rel::Differ(s, t) => Ok(Rel::Differ(*s, *t)),
            Rel::Sum(s, t, u) => Ok(Rel::Sum(*s, *t, *u)),
            Rel::Taken(condition) => Ok(Rel::Taken(*condition)),
            Rel::Holds {
                index,
                value,
                table,
            } => {
                let table = Items::from_slice(alloc, table.as_slice())?;
                Ok(Rel::Holds {
                    index: *index,
                    value: *value,
                    table,
                })
            }
            Rel::Linked => Ok(Rel::Linked),
            Rel::Target(pc, set) => {
                let set = set.copy(alloc)?;
                Ok(Rel::Target(*pc, set))
            }
            Rel::Writes => Ok(Rel::Writes),
            Rel::In(s, set) => {
                let set = set.copy(alloc)?;
                Ok(Rel::In(*s, set))
            }
            Rel::Rows(rows) => {
                let rows = copy_rows(alloc, rows.as_slice())?;
                Ok(Rel::Rows(Items::from_vec(rows)))
            }
        }
    }
}

impl Case {
    /// The same case, in memory of its own.
    pub fn copy(&self, alloc: Global) -> Result<Case, OutOfMemory>
        ensures { IfOk result (λ made. made ≡ self.now) }
    {
        let doms = copy_sets(alloc, self.doms.as_slice())?;
        let mut rels = Vec::new(alloc);
        push_rels(&mut rels, alloc, self.rels.as_slice())?;
        Ok(Case {
            op: self.op,
            doms: Items::from_vec(doms),
            rels: Items::from_vec(rels),
        })
    }
}
