// Where branches and jumps go.
ghost use Rattle.std.specs.Prelude.{ℕ, ◌+◌, ◌-◌, ◌%◌, ◌^◌, IsTrue, OnOk};
ghost use Rattle.dom_set.specs.Elements.{is_in};
ghost use Rattle.fd_prob.specs.Relations.{has_target, value_of};
ghost use Rattle.fd_prob.specs.declared.slot.Slot.TheVariants as slots;
ghost use Rattle.fd_narrow.specs.Internal.Steps.{Leaves};

use crate::domains::Domains;
use dom_set::{OutOfMemory, Set};
use fd_prob::Slot;
use rv_isa::Op;
use set_sums::{differences_within, shifted};
use std::alloc::Global;
use word_sets::with_odd;

impl Domains {
    /// The pc plus the immediate is in the set.
    fn narrow_jump(&mut self, alloc: Global, pc: u32, set: &Set) -> Result<(), OutOfMemory>
        ensures { OnOk result (Leaves (λ x. IsTrue (is_in set.now ((pc + value_of x slots.Imm) % 2 ^ 32))) self.old self.new) }
    {
        let immediates = shifted(alloc, set, 0u32.wrapping_sub(pc))?;
        self.cut(alloc, Slot::Imm, &immediates)
    }

    /// Cuts the first variable to what leads into the set when the second is added.
    fn narrow_addend(
        &mut self,
        alloc: Global,
        s: Slot,
        t: Slot,
        sums: &Set,
    ) -> Result<(), OutOfMemory>
        ensures { OnOk result (Leaves (λ x. IsTrue (is_in sums.now ((value_of x s + value_of x t) % 2 ^ 32))) self.old self.new) }
    {
        if self.is_only_one_fixed(s, t) {
            return Ok(());
        }
        let addends = differences_within(alloc, sums, self.domain(t), self.domain(s))?;
        self.cut(alloc, s, &addends)
    }

    /// The value of rs1 plus the immediate, with bit 0 cleared, is in the set.
    fn narrow_indirect(&mut self, alloc: Global, set: &Set) -> Result<(), OutOfMemory>
        ensures { OnOk result (Leaves (λ x. IsTrue (is_in set.now ((value_of x slots.A + value_of x slots.Imm) % 2 ^ 32 - (value_of x slots.A + value_of x slots.Imm) % 2 ^ 32 % 2))) self.old self.new) }
    {
        let sums = with_odd(alloc, set)?;
        self.narrow_addend(alloc, Slot::A, Slot::Imm, &sums)?;
        self.narrow_addend(alloc, Slot::Imm, Slot::A, &sums)
    }

    /// The operation is a branch or a jump, and from the pc its target is in the set.
    pub(crate) fn narrow_target(
        &mut self,
        alloc: Global,
        op: Op,
        pc: u32,
        set: &Set,
    ) -> Result<(), OutOfMemory>
        ensures { OnOk result (Leaves (λ x. IsTrue (has_target op x pc set.now)) self.old self.new) }
    {
        match op {
            Op::Jalr => self.narrow_indirect(alloc, set),
            Op::Jal | Op::Beq | Op::Bne | Op::Blt | Op::Bge | Op::Bltu | Op::Bgeu => {
                self.narrow_jump(alloc, pc, set)
            }
            _ => {
                self.empty(alloc, Slot::Imm);
                Ok(())
            }
        }
    }
}
