// The domains of a case.

ghost use Rattle.std.specs.Prelude.{◌≡◌, ℕ, ◌<◌, ◌^◌, ◌&&◌, false, nat_lt, length, IfOk};
ghost use Rattle.std.specs.Int.{IsPowerOfTwo};
ghost use Rattle.rv_isa.specs.Table.{row_of};
ghost use Rattle.rv_isa.specs.Numbers.{op_number};
ghost use Rattle.leaf_link.specs.Cases.{all_judged, all_tests, in_word, or_no, unless};
ghost use Rattle.tpl_ast.specs.Leaves.{same_var};
ghost use Rattle.leaf_link.specs.Kinds.{is_vector};
ghost use Rattle.data_bytes.specs.Sets.{IsSetOf};
ghost use Rattle.leaf_stand.specs.Sets.{AreDomains, in_spans};
ghost use Rattle.leaf_stand.specs.Posed.{allows, is_posed_at};
ghost use Rattle.leaf_stand.specs.Stands.{also_at, domain_at, old_at, open_at, shape_at, turn_of};

use crate::atoms::all_judged;
use crate::formats::{Spans, field, field_of};
use crate::shape::{End, Shape};
use crate::stand::Stand;
use dom_set::{OutOfMemory, Set};
use fd_prob::{SLOTS, Slot};
use rv_csr::{Cause, LazyRegister};
use rv_isa::{Op, decode};
use std::alloc::Global;
use tpl_ast::{Atom, Var};

impl Spans {
    /// The numbers as a set.
    pub fn set(self, alloc: Global) -> Result<Set, OutOfMemory>
        requires { IsPowerOfTwo self.align }
        ensures { IfOk result (IsSetOf (in_spans self)) }
    {
        Set::from_ranges(alloc, &self.ranges, self.align)
    }
}

impl Stand<'_> {
    /// The values of a field, by the known word or the format.
    pub fn fields(&self, alloc: Global, op: Op, slot: Slot) -> Result<Set, OutOfMemory>
        ensures { IfOk result (IsSetOf (in_word self.now.word op slot)) }
    {
        match self.word {
            None => field(op, op.number(), slot).set(alloc),
            Some(word) => match decode(word) {
                Some(i) => Spans::one(field_of(&i, i.op.number(), slot)).set(alloc),
                None => Ok(Set::new(alloc)),
            },
        }
    }

    /// The values of a field that pass the atoms, where the step uses the variable.
    fn passing_fields(
        &self,
        alloc: Global,
        leaf: &[Atom],
        op: Op,
        slot: Slot,
        used: bool,
        var: Var,
    ) -> Result<Set, OutOfMemory>
        ensures { IfOk result (IsSetOf (λ v. in_word self.now.word op slot v && unless used (all_tests (turn_of self.now) leaf.now var v))) }
    {
        let values = self.fields(alloc, op, slot)?;
        if used {
            self.passing(alloc, values, leaf, var)
        } else {
            Ok(values)
        }
    }

    /// Any word that passes the atoms where the step uses the variable, and else 0.
    fn words(&self, alloc: Global, leaf: &[Atom], used: bool, var: Var) -> Result<Set, OutOfMemory>
        ensures { IfOk result (IsSetOf (λ v. or_no used (nat_lt v (2 ^ 32) && all_tests (turn_of self.now) leaf.now var v) v)) }
    {
        if used {
            self.passing(alloc, Spans::up_to(u32::MAX).set(alloc)?, leaf, var)
        } else {
            Spans::one(0).set(alloc)
        }
    }

    /// The vectors that may be started for a trap; 0 alone where its vector is known.
    fn vectors_for(&self, alloc: Global, cause: Cause) -> Result<Set, OutOfMemory>
        ensures { IfOk result (IsSetOf (is_vector (turn_of self.now) cause)) }
    {
        match self.csrs.vector(self.privilege, cause.number()).1 {
            Some(_) => Spans::one(0).set(alloc),
            None => self.vectors.copy(alloc),
        }
    }

    pub fn ends(&self, alloc: Global, end: End) -> Result<Set, OutOfMemory>
        ensures { IfOk result (IsSetOf (also_at (turn_of self.now) end Slot.Vector)) }
    {
        match end {
            End::Retires => Spans::one(0).set(alloc),
            End::Traps(cause) => self.vectors_for(alloc, cause),
        }
    }

    /// The values of a CSR that the step reads; 0 alone where it reads none.
    fn old(&self, alloc: Global, reads: Option<LazyRegister>) -> Result<Set, OutOfMemory>
        ensures { IfOk result (IsSetOf (old_at (turn_of self.now) reads)) }
    {
        match reads {
            Some(register) => self.old_values(alloc, register),
            None => Spans::one(0).set(alloc),
        }
    }

    /// The domain of a variable.
    fn domain(
        &self,
        alloc: Global,
        leaf: &[Atom],
        shape: Shape,
        reads: Option<LazyRegister>,
        slot: Slot,
    ) -> Result<Set, OutOfMemory>
        ensures { IfOk result (IsSetOf (domain_at (turn_of self.now) leaf.now shape reads slot)) }
    {
        let op = shape.op;
        match slot {
            Slot::Op => self.passing_fields(alloc, leaf, op, slot, true, Var::Op),
            Slot::Rs1 => self.passing_fields(alloc, leaf, op, slot, op.has_rs1(), Var::Rs1),
            Slot::Rs2 => self.passing_fields(alloc, leaf, op, slot, op.has_rs2(), Var::Rs2),
            Slot::Imm => self.passing_fields(alloc, leaf, op, slot, op.has_imm(), Var::Imm),
            Slot::Rd => self.passing_fields(alloc, leaf, op, slot, op.has_rd(), Var::Rd),
            Slot::Csr => self.passing_fields(alloc, leaf, op, slot, op.has_csr(), Var::Csr),
            Slot::A => self.words(alloc, leaf, shape.uses_rs1(), Var::A),
            Slot::B => self.words(alloc, leaf, shape.uses_rs2(), Var::B),
            Slot::Ea => self.words(alloc, leaf, shape.uses_address(), Var::Ea),
            Slot::FirstPte => Spans::one(0).set(alloc),
            Slot::SecondPte => Spans::one(0).set(alloc),
            Slot::DataWord => Spans::one(0).set(alloc),
            Slot::OldCsr => self.old(alloc, reads),
            Slot::Vector => self.ends(alloc, shape.end),
        }
    }

    /// The domain of a variable, where a data access may start any word, and a step that retires without one may read any
    /// value of a CSR.
    pub fn open_domain(
        &self,
        alloc: Global,
        leaf: &[Atom],
        shape: Shape,
        slot: Slot,
    ) -> Result<Set, OutOfMemory>
        ensures { IfOk result (IsSetOf (open_at (turn_of self.now) leaf.now shape slot)) }
    {
        match (slot, shape.end) {
            (Slot::OldCsr, End::Retires) if !shape.reaches => Spans::up_to(u32::MAX).set(alloc),
            (Slot::DataWord, _) if shape.reaches => Spans::up_to(u32::MAX).set(alloc),
            _ => self.domain(alloc, leaf, shape, None, slot),
        }
    }

    /// The domains of all variables, in their order, of a step that reads a CSR or none.
    pub fn domains(
        &self,
        alloc: Global,
        leaf: &[Atom],
        shape: Shape,
        reads: Option<LazyRegister>,
    ) -> Result<Vec<Set>, OutOfMemory>
        ensures each { IfOk result (λ doms. AreDomains (domain_at (turn_of self.now) leaf.now shape reads) SLOTS doms.items) }
        ensures length { IfOk result (λ doms. length doms.items ≡ 14) }
    {
        let mut doms = Vec::new(alloc);
        for slot in SLOTS {
            doms.push(self.domain(alloc, leaf, shape, reads, slot)?)?;
        }
        Ok(doms)
    }

    /// Whether the atoms and a known word allow the operation.
    pub fn allows(&self, leaf: &[Atom], op: Op) -> bool
        ensures { result ≡ allows self.now leaf.now op }
    {
        let read = match self.word {
            None => true,
            Some(word) => match decode(word) {
                Some(i) => i.op.number() == op.number(),
                None => false,
            },
        };
        read && self.passes(leaf, Var::Op, u32::from(op.number()))
    }

    /// Whether a case is posed: what does not rest on the values holds.
    pub fn is_posed(&self, leaf: &[Atom], shape: Shape) -> bool
        ensures { result ≡ is_posed_at self.now leaf.now (shape_at shape) }
    {
        self.fetches
            && all_judged(shape, leaf)
            && self.passes(leaf, Var::Outcome, shape.end.outcome())
    }
}
