// Branches: variables that are equal or in order.
ghost use Rattle.std.specs.Prelude.{◌≡◌, IfOk, IfSome, IsTrue, OnOk, true, false};
ghost use Rattle.fd_prob.specs.Relations.{has_condition, is_same};
ghost use Rattle.fd_prob.specs.declared.slot.Slot.TheVariants as slots;
ghost use Rattle.fd_narrow.specs.Narrowing.{domain_in};
ghost use Rattle.fd_narrow.specs.Internal.Orders.{IsOrdered, IsRanked};
ghost use Rattle.fd_narrow.specs.Internal.Steps.{Leaves};
ghost use Rattle.word_sets.specs.Internal.Orders.{HasEnds};

use crate::domains::Domains;
use dom_set::OutOfMemory;
use fd_prob::Slot;
use rv_isa::Op;
use set_sums::Span;
use std::alloc::Global;
use word_sets::{Order, between, rank_ends};

impl Domains {
    /// The least and the greatest rank of a variable's values, unless it has none.
    fn ends_of(&self, alloc: Global, slot: Slot, order: Order) -> Result<Option<Span>, OutOfMemory>
        ensures { IfOk result (λ found. IfSome found (HasEnds order (domain_in self.now slot))) }
    {
        rank_ends(alloc, order, self.domain(slot))
    }

    /// Cuts the variable to the values between two ranks.
    fn cut_ranks(
        &mut self,
        alloc: Global,
        slot: Slot,
        order: Order,
        span: Span,
    ) -> Result<(), OutOfMemory>
        ensures { OnOk result (Leaves (IsRanked order slot span.0 span.1) self.old self.new) }
    {
        let set = between(alloc, order, span)?;
        self.cut(alloc, slot, &set)
    }

    /// The first variable comes before the greatest value of the second.
    fn cut_before(
        &mut self,
        alloc: Global,
        s: Slot,
        t: Slot,
        order: Order,
    ) -> Result<(), OutOfMemory>
        ensures { OnOk result (Leaves (IsOrdered order s t true) self.old self.new) }
    {
        match self.ends_of(alloc, t, order)? {
            Some(span) => self.cut_ranks(alloc, s, order, (0, span.1.saturating_sub(1))),
            None => Ok(()),
        }
    }

    /// The second variable comes after the least value of the first.
    fn cut_after(
        &mut self,
        alloc: Global,
        s: Slot,
        t: Slot,
        order: Order,
    ) -> Result<(), OutOfMemory>
        ensures { OnOk result (Leaves (IsOrdered order s t true) self.old self.new) }
    {
        match self.ends_of(alloc, s, order)? {
            Some(span) => { self.cut_ranks(alloc, t, order, (span.0.saturating_add(1), u32::MAX)) }
            None => Ok(()),
        }
    }

    /// The first variable comes at the least value of the second or after it.
    fn cut_from(&mut self, alloc: Global, s: Slot, t: Slot, order: Order) -> Result<(), OutOfMemory>
        ensures { OnOk result (Leaves (IsOrdered order s t false) self.old self.new) }
    {
        match self.ends_of(alloc, t, order)? {
            Some(span) => self.cut_ranks(alloc, s, order, (span.0, u32::MAX)),
            None => Ok(()),
        }
    }

    /// The second variable comes at the greatest value of the first or before it.
    fn cut_to(&mut self, alloc: Global, s: Slot, t: Slot, order: Order) -> Result<(), OutOfMemory>
        ensures { OnOk result (Leaves (IsOrdered order s t false) self.old self.new) }
    {
        match self.ends_of(alloc, s, order)? {
            Some(span) => self.cut_ranks(alloc, t, order, (0, span.1)),
            None => Ok(()),
        }
    }

    /// The value of rs1 comes before that of rs2, or does not.
    fn narrow_order(&mut self, alloc: Global, order: Order, before: bool) -> Result<(), OutOfMemory>
        ensures { OnOk result (Leaves (IsOrdered order slots.A slots.B before) self.old self.new) }
    {
        if before {
            self.cut_before(alloc, Slot::A, Slot::B, order)?;
            self.cut_after(alloc, Slot::A, Slot::B, order)
        } else {
            self.cut_from(alloc, Slot::A, Slot::B, order)?;
            self.cut_to(alloc, Slot::A, Slot::B, order)
        }
    }

    /// The value of rs1 is that of rs2, or is not.
    fn narrow_equal(&mut self, alloc: Global, equal: bool) -> Result<(), OutOfMemory>
        ensures { OnOk result (Leaves (λ x. is_same x slots.A slots.B ≡ equal) self.old self.new) }
    {
        if equal {
            self.narrow_same(alloc, Slot::A, Slot::B)
        } else {
            self.narrow_different(alloc, Slot::A, Slot::B)
        }
    }

    /// The operation is a branch, and its condition is this one.
    pub(crate) fn narrow_taken(
        &mut self,
        alloc: Global,
        op: Op,
        taken: bool,
    ) -> Result<(), OutOfMemory>
        ensures { OnOk result (Leaves (λ x. IsTrue (has_condition op x taken)) self.old self.new) }
    {
        match op {
            Op::Beq => self.narrow_equal(alloc, taken),
            Op::Bne => self.narrow_equal(alloc, !taken),
            Op::Blt => self.narrow_order(alloc, Order::Signed, taken),
            Op::Bge => self.narrow_order(alloc, Order::Signed, !taken),
            Op::Bltu => self.narrow_order(alloc, Order::Unsigned, taken),
            Op::Bgeu => self.narrow_order(alloc, Order::Unsigned, !taken),
            _ => {
                self.empty(alloc, Slot::A);
                Ok(())
            }
        }
    }
}
