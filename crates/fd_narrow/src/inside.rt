// Sets that variables are in beside their domains.
ghost use Rattle.std.specs.Prelude.{◌≡◌, IsTrue, OnOk};
ghost use Rattle.dom_set.specs.Elements.{is_in};
ghost use Rattle.fd_prob.specs.Relations.{value_of};
ghost use Rattle.fd_prob.specs.declared.problem.Assignment.{Assignment};
ghost use Rattle.fd_narrow.specs.Narrowing.{IsInside};
ghost use Rattle.fd_narrow.specs.Internal.Steps.{IsValueIn, Leaves};

use crate::domains::Domains;
use dom_set::{OutOfMemory, Set};
use fd_prob::Slot;
use std::alloc::Global;

/// In how many pieces a domain is cut by a set of any number of pieces.
const FEW: usize = 4;

/// How many pairs of pieces of a domain and a set are looked at.
const PAIRS: usize = 1 << 18;

/// In how many pieces a domain is left, where what it has in common with a set was found.
const MOST: usize = 2048;

/// The lowest bits that are looked at.
const LOW: u32 = 3;

impl Domains {
    /// Whether the lowest bits of all values of a variable are known to be others than those of all numbers of a set.
    fn is_apart(&self, slot: Slot, set: &Set) -> bool
        ensures { IsTrue result → (x : Assignment) → IsInside self.now x → IsTrue (is_in set.now (value_of x slot)) → ⊥ }
    {
        let Some(bits) = self.domain(slot).bits_under(LOW) else {
            return false;
        };
        match set.bits_under(LOW) {
            Some(others) => bits != others,
            None => false,
        }
    }

    /// Empties a variable's domain, if that is known to have nothing of the set by the lowest bits.
    fn empty_apart(&mut self, alloc: Global, slot: Slot, set: &Set)
        ensures { Leaves (λ x. IsTrue (is_in set.now (value_of x slot))) self.old self.new }
    {
        if self.is_apart(slot, set) {
            self.empty(alloc, slot);
        }
    }

    /// Whether what a variable's domain and a set have in common is told soon.
    fn meets_soon(&self, slot: Slot, set: &Set) -> bool {
        self.domain(slot).pieces().saturating_mul(set.pieces()) <= PAIRS
    }

    /// Takes from a variable's domain what is not in the set, unless that leaves it in too many pieces.
    fn cut_to_few(&mut self, alloc: Global, slot: Slot, set: &Set) -> Result<(), OutOfMemory>
        ensures { OnOk result (Leaves (IsValueIn slot set.now) self.old self.new) }
    {
        // `count` says that there is a domain at the variable's place.
        self.count();
        let domain = self.domain(slot);
        domain.element_laws();
        let left = domain.and(alloc, set)?;
        if left.pieces() <= MOST.max(domain.pieces()) {
            self.set(slot, left);
        }
        Ok(())
    }

    /// The variable's value is in the set. Where the domain would fall into many pieces it is left as it is: a search tests
    /// each value, and cuts the domain where it has become small.
    pub(crate) fn narrow_in(
        &mut self,
        alloc: Global,
        slot: Slot,
        set: &Set,
    ) -> Result<(), OutOfMemory>
        ensures { OnOk result (Leaves (λ x. IsTrue (is_in set.now (value_of x slot))) self.old self.new) }
    {
        if self.domain(slot).pieces() <= FEW {
            return self.cut(alloc, slot, set);
        }
        if !self.meets_soon(slot, set) {
            self.empty_apart(alloc, slot, set);
            return Ok(());
        }
        self.cut_to_few(alloc, slot, set)
    }
}
