// First cases of operations: what counts for the space of a problem and for the order of its assignments.

ghost use Rattle.std.specs.Prelude.{◌≡◌, ℕ, ◌&&◌, if◌then◌else◌, nat_eq, true, false, length, IfOk};
ghost use Rattle.std.specs.List.{list_any};
ghost use Rattle.dom_set.specs.Elements.{is_within};
ghost use Rattle.rv_csr.specs.Table.{address_of};
ghost use Rattle.tpl_ast.specs.Leaves.{same_var};
ghost use Rattle.leaf_link.specs.Cases.{all_tests, or_no};
ghost use Rattle.leaf_link.specs.Firsts.{IsDomain, in_first_word, is_modelled};
ghost use Rattle.fd_prob.specs.Fitting.{IsCase};
ghost use Rattle.leaf_stand.specs.Internal.FirstCases.{AreFirstDomains, IsFirstCase, first_at, first_entries};
ghost use Rattle.data_bytes.specs.Sets.{IsSetOf};
ghost use Rattle.leaf_stand.specs.Stands.{turn_of};

use crate::formats::Spans;
use crate::shape::{has_address, has_old};
use crate::stand::Stand;
use dom_set::{OutOfMemory, Set};
use fd_prob::{Case, Items, Rel, SLOTS, Slot};
use rv_csr::{REGISTERS, Register, row_of};
use rv_isa::Op;
use std::alloc::Global;
use tpl_ast::{Atom, Var};

/// The addresses of CSRs, as ranges.
fn addresses(alloc: Global, registers: &[Register]) -> Result<Vec<(u32, u32)>, OutOfMemory>
    ensures { IfOk result (λ pairs. (v : ℕ) → is_within pairs.items v ≡ list_any (λ register. nat_eq (address_of register) v) registers.now) }
{
    let mut pairs = Vec::new(alloc);
    for register in registers {
        let address = u32::from(row_of(*register).address());
        pairs.push((address, address))?;
    }
    Ok(pairs)
}

/// The addresses of the modelled CSRs.
fn modelled(alloc: Global) -> Result<Set, OutOfMemory>
    ensures { IfOk result (IsSetOf is_modelled) }
{
    let pairs = addresses(alloc, &REGISTERS)?;
    Set::from_ranges(alloc, &pairs, 1)
}

impl Stand<'_> {
    /// The values of a field, by the known word or the format; of the CSR the modelled ones.
    fn first_fields(&self, alloc: Global, op: Op, slot: Slot) -> Result<Set, OutOfMemory>
        ensures { IfOk result (IsSetOf (in_first_word self.now.word op slot)) }
    {
        if self.word.is_none() && op.has_csr() && matches!(slot, Slot::Csr) {
            modelled(alloc)
        } else {
            self.fields(alloc, op, slot)
        }
    }

    /// The values of a field that pass the atoms on it.
    fn first_field(
        &self,
        alloc: Global,
        leaf: &[Atom],
        op: Op,
        slot: Slot,
        var: Var,
    ) -> Result<Set, OutOfMemory>
        ensures { IfOk result (IsSetOf (λ v. in_first_word self.now.word op slot v && all_tests (turn_of self.now) leaf.now var v)) }
    {
        let values = self.first_fields(alloc, op, slot)?;
        self.passing(alloc, values, leaf, var)
    }

    /// Any word, or 0 alone.
    fn any_if(&self, alloc: Global, has: bool) -> Result<Set, OutOfMemory>
        ensures { IfOk result (IsSetOf (or_no has true)) }
    {
        if has {
            Spans::up_to(u32::MAX).set(alloc)
        } else {
            Spans::one(0).set(alloc)
        }
    }

    /// The words that pass the atoms on a variable that the operation has; 0 alone in place of all words where it
    /// has it not.
    fn first_words(
        &self,
        alloc: Global,
        leaf: &[Atom],
        has: bool,
        var: Var,
    ) -> Result<Set, OutOfMemory>
        ensures { IfOk result (IsSetOf (λ v. or_no has true v && all_tests (turn_of self.now) leaf.now var v)) }
    {
        let values = self.any_if(alloc, has)?;
        self.passing(alloc, values, leaf, var)
    }

    /// What a new page table entry may be, the second one or else the root entry; 0 alone where the operation makes no data
    /// access.
    fn first_entries(&self, alloc: Global, op: Op, second: bool) -> Result<Set, OutOfMemory>
        ensures { IfOk result (IsSetOf (first_entries self.now op (λ a. if second then a.seconds else a.firsts))) }
    {
        match &self.accesses {
            Some(accesses) if has_address(op) => {
                if second {
                    accesses.seconds.copy(alloc)
                } else {
                    accesses.firsts.copy(alloc)
                }
            }
            _ => Spans::one(0).set(alloc),
        }
    }

    fn first_set(
        &self,
        alloc: Global,
        leaf: &[Atom],
        op: Op,
        slot: Slot,
    ) -> Result<Set, OutOfMemory>
        ensures { IfOk result (IsSetOf (first_at self.now leaf.now op slot)) }
    {
        match slot {
            Slot::Op => self.first_field(alloc, leaf, op, slot, Var::Op),
            Slot::Rs1 => self.first_field(alloc, leaf, op, slot, Var::Rs1),
            Slot::Rs2 => self.first_field(alloc, leaf, op, slot, Var::Rs2),
            Slot::Imm => self.first_field(alloc, leaf, op, slot, Var::Imm),
            Slot::Rd => self.first_field(alloc, leaf, op, slot, Var::Rd),
            Slot::Csr => self.first_field(alloc, leaf, op, slot, Var::Csr),
            Slot::Ea => self.first_words(alloc, leaf, has_address(op), Var::Ea),
            Slot::A => self.first_words(alloc, leaf, op.reads_rs1(), Var::A),
            Slot::B => self.first_words(alloc, leaf, op.reads_rs2(), Var::B),
            Slot::FirstPte => self.first_entries(alloc, op, false),
            Slot::SecondPte => self.first_entries(alloc, op, true),
            Slot::DataWord => self.any_if(alloc, has_address(op)),
            Slot::OldCsr => self.any_if(alloc, has_old(op)),
            Slot::Vector => self.vectors.copy(alloc),
        }
    }

    /// The domain of a variable in the first case of an operation.
    fn first_domain(
        &self,
        alloc: Global,
        leaf: &[Atom],
        op: Op,
        slot: Slot,
    ) -> Result<Set, OutOfMemory>
        ensures { IfOk result (λ set. IsDomain set (first_at self.now leaf.now op slot)) }
    {
        let set = self.first_set(alloc, leaf, op, slot)?;
        set.element_laws();
        Ok(set)
    }

    fn first_domains(&self, alloc: Global, leaf: &[Atom], op: Op) -> Result<Vec<Set>, OutOfMemory>
        ensures each { IfOk result (λ doms. AreFirstDomains self.now leaf.now op doms.items) }
        ensures length { IfOk result (λ doms. length doms.items ≡ 14) }
    {
        let mut doms = Vec::new(alloc);
        for slot in SLOTS {
            doms.push(self.first_domain(alloc, leaf, op, slot)?)?;
        }
        Ok(doms)
    }

    /// The first case of an operation, which nothing fits.
    pub fn first_case(&self, alloc: Global, leaf: &[Atom], op: Op) -> Result<Case, OutOfMemory>
        ensures shape { IfOk result IsCase }
        ensures first { IfOk result (IsFirstCase self.now leaf.now op) }
    {
        let doms = self.first_domains(alloc, leaf, op)?;
        let mut rels = Items::new(alloc);
        rels.push(Rel::Rows(Items::new(alloc)))?;
        Ok(Case {
            op: op.number(),
            doms: Items::from_vec(doms),
            rels,
        })
    }
}
