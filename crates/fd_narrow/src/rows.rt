// Rows of an address and words of memory, of which one has to hold.
ghost use Rattle.std.specs.Prelude.{◌≡◌, ◌||◌, ℕ, true, false, IfOk, IfSome, IsTrue, OnOk};
ghost use Rattle.std.specs.List.{list_all, list_any};
ghost use Rattle.rv_isa.specs.declared.operation.Op.{Op};
ghost use Rattle.dom_set.specs.Elements.{is_in};
ghost use Rattle.fd_prob.specs.Relations.{holds, is_in_row, value_of};
ghost use Rattle.fd_narrow.specs.Narrowing.{IsInside, domain_in};
ghost use Rattle.fd_narrow.specs.Internal.Parts.{IsLess, IsMissed, part_of, slot_of};
ghost use Rattle.fd_narrow.specs.Internal.Steps.{Leaves};
ghost use Rattle.fd_prob.specs.declared.problem.Assignment.{Assignment};

use crate::domains::Domains;
use dom_set::{OutOfMemory, Set};
use fd_prob::{Items, Quad, Rel, Slot};
use set_sums::meet;
use std::alloc::Global;

/// What a row has a set for.
#[derive(Clone, Copy, Debug, PartialEq, Eq)]
pub enum Part {
    Address,
    Root,
    Leaf,
    Word,
}

const PARTS: [Part; 4] = [Part::Root, Part::Leaf, Part::Word, Part::Address];

impl Part {
    /// The variable that is in the part's set.
    fn slot(self) -> Slot
        ensures { result ≡ slot_of self }
    {
        match self {
            Part::Address => Slot::Ea,
            Part::Root => Slot::FirstPte,
            Part::Leaf => Slot::SecondPte,
            Part::Word => Slot::DataWord,
        }
    }

    /// The row's set.
    fn of(self, row: &Quad) -> &Set
        ensures { result.now ≡ part_of self row.now }
    {
        match self {
            Part::Address => &row.ea,
            Part::Root => &row.root,
            Part::Leaf => &row.leaf,
            Part::Word => &row.word,
        }
    }
}

impl Domains {
    /// Whether each of the row's sets has a value of its variable.
    fn may_hold(&self, alloc: Global, row: &Quad) -> Result<bool, OutOfMemory>
        ensures { IfOk result (λ may. (x : Assignment) → IsInside self.now x → IsTrue (is_in_row x row.now) → may ≡ true) }
    {
        for part in PARTS {
            if !meet(alloc, self.domain(part.slot()), part.of(row))? {
                return Ok(false);
            }
        }
        Ok(true)
    }

    /// The domains of the four parts' variables.
    fn row_domains(&self, alloc: Global) -> Result<Quad, OutOfMemory>
        ensures { IfOk result (λ all. (part : Part) → part_of part all ≡ domain_in self.now (slot_of part)) }
    {
        let ea = self.domain(Slot::Ea).copy(alloc)?;
        let root = self.domain(Slot::FirstPte).copy(alloc)?;
        let leaf = self.domain(Slot::SecondPte).copy(alloc)?;
        let word = self.domain(Slot::DataWord).copy(alloc)?;
        Ok(Quad {
            ea,
            root,
            leaf,
            word,
        })
    }

    /// What the row does not have of the four sets, where the row may hold.
    fn less_row(&self, alloc: Global, row: &Quad, rest: Quad) -> Result<Quad, OutOfMemory>
        ensures { IfOk result (λ less. (part : Part) → IsLess self.now part row.now (part_of part rest) (part_of part less)) }
    {
        if !self.may_hold(alloc, row)? {
            return Ok(rest);
        }
        let ea = rest.ea.minus(alloc, &row.ea)?;
        let root = rest.root.minus(alloc, &row.root)?;
        let leaf = rest.leaf.minus(alloc, &row.leaf)?;
        let word = rest.word.minus(alloc, &row.word)?;
        Ok(Quad {
            ea,
            root,
            leaf,
            word,
        })
    }

    /// What no row that may hold has of the four variables' domains.
    fn rest_of(&self, alloc: Global, rows: &[Quad]) -> Result<Quad, OutOfMemory>
        ensures { IfOk result (λ rest. (part : Part) → IsMissed self.now part rows.now (part_of part rest)) }
    {
        let mut rest = self.row_domains(alloc)?;
        for row in rows {
            rest = self.less_row(alloc, row, rest)?;
        }
        Ok(rest)
    }

    /// Puts a row at the end, if it may hold.
    fn push_possible(
        &self,
        alloc: Global,
        made: &mut Vec<Quad>,
        row: &Quad,
    ) -> Result<(), OutOfMemory>
        ensures { OnOk result ((x : Assignment) → IsInside self.now x → list_any (is_in_row x) made.new.items ≡ (list_any (is_in_row x) made.old.items || is_in_row x row.now)) }
    {
        let may = self.may_hold(alloc, row)?;
        if may {
            made.push(row.copy(alloc)?)?;
        }
        Ok(())
    }

    /// The rows that may hold.
    fn possible_rows(&self, alloc: Global, rows: &[Quad]) -> Result<Vec<Quad>, OutOfMemory>
        ensures { IfOk result (λ made. (x : Assignment) → IsInside self.now x → list_any (is_in_row x) made.items ≡ list_any (is_in_row x) rows.now) }
    {
        let mut made = Vec::new(alloc);
        for row in rows {
            self.push_possible(alloc, &mut made, row)?;
        }
        Ok(made)
    }

    /// The relation, if it is one of rows with those alone that may hold.
    fn possible(&self, alloc: Global, rel: &Rel) -> Result<Rel, OutOfMemory>
        ensures { IfOk result (λ made. (op : Op) (x : Assignment) → IsInside self.now x → holds op x made ≡ holds op x rel.now) }
    {
        match rel {
            Rel::Rows(rows) => {
                let made = self.possible_rows(alloc, rows.as_slice())?;
                Ok(Rel::Rows(Items::from_vec(made)))
            }
            _ => {
                let same = rel.copy(alloc)?;
                Ok(same)
            }
        }
    }

    /// The relations, those of rows without rows of which a set has no value of its variable.
    pub fn possible_relations(&self, alloc: Global, rels: &[Rel]) -> Result<Vec<Rel>, OutOfMemory>
        ensures { IfOk result (λ made. (op : Op) (x : Assignment) → IsInside self.now x → list_all (holds op x) made.items ≡ list_all (holds op x) rels.now) }
    {
        let mut made = Vec::new(alloc);
        for rel in rels {
            made.push(self.possible(alloc, rel)?)?;
        }
        Ok(made)
    }

    /// The variables of the four parts are in the sets of the row.
    fn narrow_row(&mut self, alloc: Global, row: &Quad) -> Result<(), OutOfMemory>
        ensures { OnOk result (Leaves (λ x. IsTrue (is_in_row x row.now)) self.old self.new) }
    {
        for part in PARTS {
            self.narrow_in(alloc, part.slot(), part.of(row))?;
        }
        Ok(())
    }

    /// The only row that may hold, where there is just one.
    fn only_possible<'a>(
        &self,
        alloc: Global,
        rows: &'a [Quad],
    ) -> Result<Option<&'a Quad>, OutOfMemory>
        ensures { IfOk result (λ only. IfSome only (λ row. (x : Assignment) → IsInside self.now x → IsTrue (list_any (is_in_row x) rows.now) → IsTrue (is_in_row x row.now))) }
    {
        let mut only: Option<&Quad> = None;
        for row in rows {
            if self.may_hold(alloc, row)? {
                if only.is_some() {
                    return Ok(None);
                }
                only = Some(row);
            }
        }
        Ok(only)
    }

    /// One of the rows has the address and the words.
    pub(crate) fn narrow_rows(&mut self, alloc: Global, rows: &[Quad]) -> Result<(), OutOfMemory>
        ensures { OnOk result (Leaves (λ x. IsTrue (list_any (is_in_row x) rows.now)) self.old self.new) }
    {
        if let Some(row) = self.only_possible(alloc, rows)? {
            return self.narrow_row(alloc, row);
        }
        // What one part loses may rule out rows for the next: that is left to a later pass.
        let rest = self.rest_of(alloc, rows)?;
        for part in PARTS {
            self.take(alloc, part.slot(), part.of(&rest))?;
        }
        Ok(())
    }
}
