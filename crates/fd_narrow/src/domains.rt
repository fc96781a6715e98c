// The domains of a case's variables.
ghost use Rattle.std.specs.Prelude.{◌≡◌, length, IfOk, IfSome, OnOk, slice_set};
ghost use Rattle.fd_prob.specs.Fitting.{IsCase};
ghost use Rattle.fd_prob.specs.Slots.{slot_number};
ghost use Rattle.fd_narrow.specs.Narrowing.{domain_in};
ghost use Rattle.fd_narrow.specs.Internal.Steps.{IsNever, IsOnly, IsValueIn, IsValueOutside, Leaves};

use dom_set::{OutOfMemory, Set};
use fd_prob::{Case, Slot, copy_sets};
use std::alloc::Global;
use std::marker::Model;

/// What was counted of a domain since it was put in its place. Counting takes as long as a domain has pieces.
#[derive(Clone, Copy)]
struct Counts {
    size: Option<u64>,
}

/// Where nothing was counted yet.
const UNCOUNTED: Counts = Counts { size: None };

/// The domains of the variables of a case, in their order.
#[derive(Drop)]
pub struct Domains {
    sets: Vec<Set>,
    /// What was counted of each of them.
    counts: [Counts; 14],
}

impl Model for Domains {
    ghost use Rattle.std.specs.Prelude.{◌≡◌, ℕ, List, length};

    ghost Value = { List (List ℕ) };

    ghost view = { λ s. s.sets.items };

    ghost invariant = { λ s. length s.sets.items ≡ 14 };
}

/// The sum of the sizes of so few sets that it fits.
fn total_of(sets: &[Set]) -> u64
    requires { length sets.now ≡ 14 }
{
    let mut total = 0u64;
    for set in sets {
        total += set.size();
    }
    total
}

impl Domains {
    /// The domains of a case.
    pub fn of(alloc: Global, case: &Case) -> Result<Domains, OutOfMemory>
        requires { IsCase case.now }
        ensures { IfOk result (λ d. d ≡ case.now.doms) }
    {
        let sets = copy_sets(alloc, case.doms.as_slice())?;
        Ok(Domains {
            sets,
            counts: [UNCOUNTED; 14],
        })
    }

    /// The same domains, in memory of their own.
    pub fn copy(&self, alloc: Global) -> Result<Domains, OutOfMemory>
        ensures { IfOk result (λ d. d ≡ self.now) }
    {
        let sets = copy_sets(alloc, &self.sets)?;
        Ok(Domains {
            sets,
            counts: self.counts,
        })
    }

    /// The domains as sets, in the order of the variables.
    pub fn into_sets(self) -> Vec<Set>
        ensures sets { result.items ≡ self }
        ensures length { length result.items ≡ 14 }
    {
        self.sets
    }

    /// How many there are: one for each variable.
    pub fn count(&self) -> usize
        ensures all { result ≡ 14 }
        ensures length { length self.now ≡ 14 }
    {
        self.sets.len()
    }

    /// The domain of a variable.
    pub fn domain(&self, slot: Slot) -> &Set
        ensures { result.now ≡ domain_in self.now slot }
    {
        &self.sets[slot.number()]
    }

    /// Puts a set in the place of a variable's domain.
    pub fn set(&mut self, slot: Slot, set: Set)
        ensures { self.new ≡ slice_set self.old (slot_number slot) set }
    {
        self.sets[slot.number()] = set;
        self.counts[slot.number()] = UNCOUNTED;
    }

    /// How many values a variable has.
    pub(crate) fn size(&mut self, slot: Slot) -> u64
        ensures { self.new ≡ self.old }
    {
        if let Some(size) = self.counts[slot.number()].size {
            return size;
        }
        let size = self.domain(slot).size();
        self.counts[slot.number()].size = Some(size);
        size
    }

    /// Whether a variable has no value left.
    pub(crate) fn has_empty(&self) -> bool {
        self.sets.iter().any(|set| set.is_empty())
    }

    /// The sum of the domains' sizes.
    pub(crate) fn total(&self) -> u64 {
        total_of(&self.sets)
    }

    /// The variable's only value, where it has just one.
    pub(crate) fn single(&self, slot: Slot) -> Option<u32>
        ensures { IfSome result (IsOnly self.now slot) }
    {
        match self.domain(slot).only() {
            Some(value) => Some(value),
            None => None,
        }
    }

    /// Takes from a variable's domain what is not in the set.
    pub(crate) fn cut(&mut self, alloc: Global, slot: Slot, set: &Set) -> Result<(), OutOfMemory>
        ensures { OnOk result (Leaves (IsValueIn slot set.now) self.old self.new) }
    {
        // `count` says that there is a domain at the variable's place.
        self.count();
        let domain = self.domain(slot);
        domain.element_laws();
        if !domain.is_empty() {
            let left = domain.and(alloc, set)?;
            self.set(slot, left);
        }
        Ok(())
    }

    /// Takes from a variable's domain what is in the set.
    pub(crate) fn take(&mut self, alloc: Global, slot: Slot, set: &Set) -> Result<(), OutOfMemory>
        ensures { OnOk result (Leaves (IsValueOutside slot set.now) self.old self.new) }
    {
        // `count` says that there is a domain at the variable's place.
        self.count();
        let domain = self.domain(slot);
        domain.element_laws();
        if !domain.is_empty() {
            let left = domain.minus(alloc, set)?;
            self.set(slot, left);
        }
        Ok(())
    }

    /// Takes everything from a variable's domain, so that nothing is inside.
    pub(crate) fn empty(&mut self, alloc: Global, slot: Slot)
        ensures { Leaves IsNever self.old self.new }
    {
        // `count` says that there is a domain at the variable's place.
        self.count();
        self.set(slot, Set::new(alloc));
    }
}
