// Variables that have one value, or two.
ghost use Rattle.std.specs.Prelude.{not, IsTrue, OnOk};
ghost use Rattle.fd_prob.specs.Relations.{is_linked, is_same};
ghost use Rattle.fd_narrow.specs.Internal.Steps.{IsAnother, Leaves};

use crate::domains::Domains;
use dom_set::OutOfMemory;
use fd_prob::Slot;
use set_sums::words_of;
use std::alloc::Global;

impl Domains {
    /// Both variables have one value.
    pub(crate) fn narrow_same(&mut self, alloc: Global, s: Slot, t: Slot) -> Result<(), OutOfMemory>
        ensures { OnOk result (Leaves (λ x. IsTrue (is_same x s t)) self.old self.new) }
    {
        let common = self.domain(s).and(alloc, self.domain(t))?;
        self.cut(alloc, s, &common)?;
        self.cut(alloc, t, &common)
    }

    /// The variable has another value than this.
    fn take_value(&mut self, alloc: Global, slot: Slot, value: u32) -> Result<(), OutOfMemory>
        ensures { OnOk result (Leaves (IsAnother slot value) self.old self.new) }
    {
        let one = words_of(alloc, &[(value, value)])?;
        self.take(alloc, slot, &one)
    }

    /// Takes the only value of the second variable from the first, where it has just one.
    fn take_single(&mut self, alloc: Global, s: Slot, t: Slot) -> Result<(), OutOfMemory>
        ensures { OnOk result (Leaves (λ x. IsTrue (not (is_same x s t))) self.old self.new) }
    {
        match self.single(t) {
            Some(value) => self.take_value(alloc, s, value),
            None => Ok(()),
        }
    }

    /// The variables have two values.
    pub(crate) fn narrow_different(
        &mut self,
        alloc: Global,
        s: Slot,
        t: Slot,
    ) -> Result<(), OutOfMemory>
        ensures { OnOk result (Leaves (λ x. IsTrue (not (is_same x s t))) self.old self.new) }
    {
        if s == t {
            self.empty(alloc, s);
            return Ok(());
        }
        self.take_single(alloc, s, t)?;
        self.take_single(alloc, t, s)
    }

    /// One register has one value.
    pub(crate) fn narrow_linked(&mut self, alloc: Global) -> Result<(), OutOfMemory>
        ensures { OnOk result (Leaves (λ x. IsTrue (is_linked x)) self.old self.new) }
    {
        let common = self.domain(Slot::A).and(alloc, self.domain(Slot::B))?;
        if common.is_empty() {
            return self.narrow_different(alloc, Slot::Rs1, Slot::Rs2);
        }
        match (self.single(Slot::Rs1), self.single(Slot::Rs2)) {
            (Some(first), Some(second)) if first == second => {
                self.narrow_same(alloc, Slot::A, Slot::B)
            }
            _ => Ok(()),
        }
    }
}
