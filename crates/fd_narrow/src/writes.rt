// What instructions write to control and status registers.
ghost use Rattle.std.specs.Prelude.{ℕ, ◌≡◌, ◌^◌, ◌<◌, ◌&&◌, false, nat_eq, IfSome, IsTrue, OnOk, Some};
ghost use Rattle.rv_csr.specs.Table.{is_legal_at};
ghost use Rattle.fd_prob.specs.declared.problem.Assignment.{Assignment};
ghost use Rattle.fd_prob.specs.Relations.{is_none_or_legal, value_of, writes_legal, written_by};
ghost use Rattle.fd_prob.specs.declared.slot.Slot.TheVariants as slots;
ghost use Rattle.fd_narrow.specs.Narrowing.{IsInside};
ghost use Rattle.fd_narrow.specs.Internal.Steps.{Leaves};
ghost use Rattle.fd_narrow.specs.Internal.Writes.{IsLegalFrom, IsLegalOperand, by_register, written};
ghost use Rattle.word_sets.specs.Internal.Sources.{CanBe};

use crate::domains::Domains;
use dom_set::OutOfMemory;
use fd_prob::Slot;
use rv_isa::Op;
use set_sums::words_of;
use std::alloc::Global;
use word_sets::{Change, Made, legal_addresses, legal_sources};

impl Domains {
    /// The value of a variable, if it is known. Its values are words.
    fn known(&self, slot: Slot) -> Option<u32>
        ensures value { (x : Assignment) → IsInside self.now x → CanBe result (value_of x slot) }
        ensures word { (x : Assignment) → IsInside self.now x → value_of x slot < 2 ^ 32 }
    {
        // That the elements are words is said by their laws.
        self.domain(slot).element_laws();
        self.single(slot)
    }

    /// Whether 0 is a value of the variable.
    fn may_be_zero(&self, slot: Slot) -> bool
        ensures { result ≡ false → (x : Assignment) → IsInside self.now x → nat_eq (value_of x slot) 0 ≡ false }
    {
        self.domain(slot).has(0)
    }

    /// Whether the operand may be 0 and that writes nothing.
    fn may_write_nothing(&self, slot: Slot, zero: bool) -> bool
        ensures { result ≡ false → (x : Assignment) → IsInside self.now x → (zero && nat_eq (value_of x slot) 0) ≡ false }
    {
        zero && self.may_be_zero(slot)
    }

    /// The value of a variable is legal for the register.
    fn narrow_legal(&mut self, alloc: Global, slot: Slot, csr: u32) -> Result<(), OutOfMemory>
        ensures { OnOk result (Leaves (λ x. IsTrue (is_legal_at csr (value_of x slot))) self.old self.new) }
    {
        let set = legal_sources(alloc, csr, Made::Itself, None, false)?;
        self.cut(alloc, slot, &set)
    }

    /// What comes of the value of a variable and that of another is legal for the register, or the first
    /// is 0 and that writes nothing.
    fn cut_sources(
        &mut self,
        alloc: Global,
        csr: u32,
        how: Made,
        slot: Slot,
        other: Slot,
        zero: bool,
    ) -> Result<(), OutOfMemory>
        ensures { OnOk result (Leaves (IsLegalFrom csr how zero slot other) self.old self.new) }
    {
        let known = self.known(other);
        let set = legal_sources(alloc, csr, how, known, zero)?;
        self.cut(alloc, slot, &set)
    }

    /// The register's old value is one of which the operand makes a legal one, unless it may write nothing.
    fn narrow_old(
        &mut self,
        alloc: Global,
        slot: Slot,
        csr: u32,
        change: Change,
        zero: bool,
    ) -> Result<(), OutOfMemory>
        ensures { OnOk result (Leaves (IsLegalOperand csr change zero slot) self.old self.new) }
    {
        if self.may_write_nothing(slot, zero) {
            return Ok(());
        }
        self.cut_sources(alloc, csr, change.by_old(), Slot::OldCsr, slot, false)
    }

    /// What an operand makes of the register is legal.
    fn narrow_operand(
        &mut self,
        alloc: Global,
        slot: Slot,
        csr: u32,
        change: Change,
        zero: bool,
    ) -> Result<(), OutOfMemory>
        ensures { OnOk result (Leaves (IsLegalOperand csr change zero slot) self.old self.new) }
    {
        self.cut_sources(alloc, csr, change.by_operand(), slot, Slot::OldCsr, zero)?;
        self.narrow_old(alloc, slot, csr, change, zero)
    }

    /// Where no value of rs1 makes something legal of the register, rs1 is x0.
    fn narrow_rs1(&mut self, alloc: Global, csr: u32, change: Change) -> Result<(), OutOfMemory>
        ensures { OnOk result (Leaves (λ x. IsTrue (is_none_or_legal csr (by_register change x))) self.old self.new) }
    {
        let old = self.known(Slot::OldCsr);
        let set = legal_sources(alloc, csr, change.by_operand(), old, false)?;
        let operands = self.domain(Slot::A);
        if operands.size() == 0 {
            return Ok(());
        }
        let left = operands.and(alloc, &set)?;
        if left.size() > 0 {
            return Ok(());
        }
        let x0 = words_of(alloc, &[(0, 0)])?;
        self.cut(alloc, Slot::Rs1, &x0)
    }

    /// What the value of rs1 makes of the register is legal, unless rs1 is x0.
    fn narrow_register(
        &mut self,
        alloc: Global,
        csr: u32,
        change: Change,
    ) -> Result<(), OutOfMemory>
        ensures { OnOk result (Leaves (λ x. IsTrue (is_none_or_legal csr (by_register change x))) self.old self.new) }
    {
        if self.may_be_zero(Slot::Rs1) {
            return self.narrow_rs1(alloc, csr, change);
        }
        self.narrow_operand(alloc, Slot::A, csr, change, false)
    }

    /// What an operation writes to the register at the address is legal.
    fn narrow_written(&mut self, alloc: Global, op: Op, csr: u32) -> Result<(), OutOfMemory>
        ensures { OnOk result (Leaves (λ x. IsTrue (is_none_or_legal csr (written_by op x))) self.old self.new) }
    {
        match op {
            Op::Csrrw => self.narrow_legal(alloc, Slot::A, csr),
            Op::Csrrs => self.narrow_register(alloc, csr, Change::Sets),
            Op::Csrrc => self.narrow_register(alloc, csr, Change::Clears),
            Op::Csrrwi => self.narrow_legal(alloc, Slot::Imm, csr),
            Op::Csrrsi => self.narrow_operand(alloc, Slot::Imm, csr, Change::Sets, true),
            Op::Csrrci => self.narrow_operand(alloc, Slot::Imm, csr, Change::Clears, true),
            _ => Ok(()),
        }
    }

    /// The word that an operand makes of the old value, if it is known and written in any case.
    fn word_by_operand(&self, slot: Slot, change: Change, zero: bool) -> Option<u32>
        ensures { IfSome result (λ w. (x : Assignment) → IsInside self.now x → written change zero (value_of x slots.OldCsr) (value_of x slot) ≡ Some w) }
    {
        if self.may_write_nothing(slot, zero) {
            return None;
        }
        let operand = self.single(slot)?;
        let old = self.single(Slot::OldCsr)?;
        Some(change.by_operand().of(operand, old))
    }

    /// The word that the value of rs1 makes of the old value, if it is known and rs1 is not x0.
    fn word_by_register(&self, change: Change) -> Option<u32>
        ensures { IfSome result (λ w. (x : Assignment) → IsInside self.now x → by_register change x ≡ Some w) }
    {
        if self.may_be_zero(Slot::Rs1) {
            return None;
        }
        self.word_by_operand(Slot::A, change, false)
    }

    /// The word that an operation writes, if it is known and written in any case.
    fn word_written(&self, op: Op) -> Option<u32>
        ensures { IfSome result (λ w. (x : Assignment) → IsInside self.now x → written_by op x ≡ Some w) }
    {
        match op {
            Op::Csrrw => self.single(Slot::A),
            Op::Csrrs => self.word_by_register(Change::Sets),
            Op::Csrrc => self.word_by_register(Change::Clears),
            Op::Csrrwi => self.single(Slot::Imm),
            Op::Csrrsi => self.word_by_operand(Slot::Imm, Change::Sets, true),
            Op::Csrrci => self.word_by_operand(Slot::Imm, Change::Clears, true),
            _ => None,
        }
    }

    /// The register's address is one at which the word that is written is legal.
    fn narrow_address(&mut self, alloc: Global, op: Op) -> Result<(), OutOfMemory>
        ensures { OnOk result (Leaves (λ x. IsTrue (writes_legal op x)) self.old self.new) }
    {
        match self.word_written(op) {
            Some(word) => {
                let set = legal_addresses(alloc, word)?;
                self.cut(alloc, Slot::Csr, &set)
            }
            None => Ok(()),
        }
    }

    /// What the operation writes is legal.
    pub(crate) fn narrow_writes(&mut self, alloc: Global, op: Op) -> Result<(), OutOfMemory>
        ensures { OnOk result (Leaves (λ x. IsTrue (writes_legal op x)) self.old self.new) }
    {
        match self.single(Slot::Csr) {
            Some(csr) => self.narrow_written(alloc, op, csr),
            None => self.narrow_address(alloc, op),
        }
    }
}
