// The first case of a fetch: what counts for the space of a problem and for the order of its assignments.

ghost use Rattle.std.specs.Prelude.{◌≡◌, length, IfOk};
ghost use Rattle.fd_prob.specs.Fitting.{IsCase};
ghost use Rattle.fd_prob.specs.declared.slot.TheConstants.{SLOTS};
ghost use Rattle.leaf_link.specs.Firsts.{IsDomain};
ghost use Rattle.leaf_stand.specs.Internal.FirstCases.{IsFetchFirstCase, fetch_first_at};
ghost use Rattle.data_bytes.specs.Sets.{IsSetOf};
ghost use Rattle.leaf_stand.specs.Sets.{AreEach};

use crate::formats::Spans;
use crate::stand::Stand;
use dom_set::{OutOfMemory, Set};
use fd_prob::{Case, Items, Rel, SLOTS, Slot};
use std::alloc::Global;

impl Stand<'_> {
    fn fetch_first_set(
        &self,
        alloc: Global,
        first: &Set,
        second: &Set,
        slot: Slot,
    ) -> Result<Set, OutOfMemory>
        ensures { IfOk result (IsSetOf (fetch_first_at self.now first.now second.now slot)) }
    {
        match slot {
            Slot::FirstPte => first.copy(alloc),
            Slot::SecondPte => second.copy(alloc),
            Slot::Vector => self.vectors.copy(alloc),
            _ => Spans::one(0).set(alloc),
        }
    }

    fn fetch_first_domain(
        &self,
        alloc: Global,
        first: &Set,
        second: &Set,
        slot: Slot,
    ) -> Result<Set, OutOfMemory>
        ensures { IfOk result (λ set. IsDomain set (fetch_first_at self.now first.now second.now slot)) }
    {
        let set = self.fetch_first_set(alloc, first, second, slot)?;
        set.element_laws();
        Ok(set)
    }

    fn fetch_first_domains(
        &self,
        alloc: Global,
        first: &Set,
        second: &Set,
    ) -> Result<Vec<Set>, OutOfMemory>
        ensures each { IfOk result (λ doms. AreEach (λ slot set. IsDomain set (fetch_first_at self.now first.now second.now slot)) SLOTS doms.items) }
        ensures length { IfOk result (λ doms. length doms.items ≡ 14) }
    {
        let mut doms = Vec::new(alloc);
        for slot in SLOTS {
            doms.push(self.fetch_first_domain(alloc, first, second, slot)?)?;
        }
        Ok(doms)
    }

    /// The first case of a fetch, which nothing fits.
    pub fn fetch_first_case(
        &self,
        alloc: Global,
        first: &Set,
        second: &Set,
    ) -> Result<Case, OutOfMemory>
        ensures shape { IfOk result IsCase }
        ensures first { IfOk result (IsFetchFirstCase self.now first.now second.now) }
    {
        let doms = self.fetch_first_domains(alloc, first, second)?;
        let mut rels = Items::new(alloc);
        rels.push(Rel::Rows(Items::new(alloc)))?;
        Ok(Case {
            op: 0,
            doms: Items::from_vec(doms),
            rels,
        })
    }
}
