// What the relations of a case leave of how the values of rs1 and rs2 stand to each other.
ghost use Rattle.std.specs.Prelude.{◌≡◌, ◌↔◌, ℕ, ◌^◌, ◌<◌, IsTrue};
ghost use Rattle.rv_isa.specs.Arithmetic.{is_taken};
ghost use Rattle.fd_prob.specs.Relations.{holds, is_same, value_of};
ghost use Rattle.fd_prob.specs.declared.problem.Assignment.{Assignment};
ghost use Rattle.fd_prob.specs.declared.slot.Slot.TheVariants as slots;
ghost use Rattle.fd_narrow.specs.Narrowing.{IsInside, Narrows};
ghost use Rattle.fd_narrow.specs.declared.standings.Standing.TheVariants.{Equal};
ghost use Rattle.fd_narrow.specs.Internal.Standings.{IsRuledOut, IsUnfit, Stands, order_of, standing};

use crate::domains::Domains;
use fd_prob::{Rel, Slot};
use rv_isa::Op;
use std::alloc::Global;

/// How the value of rs1 stands to that of rs2, in the order in which the operation compares.
#[derive(Clone, Copy, Debug, PartialEq, Eq)]
pub enum Standing {
    Less,
    Equal,
    Greater,
}

fn is_equal(how: Standing) -> bool
    ensures { IsTrue result ↔ (how ≡ Equal) }
{
    how == Standing::Equal
}

/// Whether a branch goes to its target where the values stand so.
fn is_met(op: Op, how: Standing) -> bool
    ensures { (a b : ℕ) → a < 2 ^ 32 → b < 2 ^ 32 → standing (order_of op) a b ≡ how → is_taken op a b ≡ result }
{
    match op {
        Op::Beq => how == Standing::Equal,
        Op::Bne => how != Standing::Equal,
        Op::Blt | Op::Bltu => how == Standing::Less,
        Op::Bge | Op::Bgeu => how != Standing::Less,
        _ => false,
    }
}

/// Whether these are the values of rs1 and rs2.
fn are_operands(s: Slot, t: Slot) -> bool
    ensures { IsTrue result → (x : Assignment) → is_same x s t ≡ is_same x slots.A slots.B }
{
    s == Slot::A && t == Slot::B || s == Slot::B && t == Slot::A
}

impl Domains {
    /// Whether rs1 and rs2 are one register.
    fn is_one_register(&self) -> bool
        ensures { IsTrue result → (x : Assignment) → IsInside self.now x → value_of x slots.Rs1 ≡ value_of x slots.Rs2 }
    {
        match (self.single(Slot::Rs1), self.single(Slot::Rs2)) {
            (Some(first), Some(second)) => first == second,
            _ => false,
        }
    }

    /// Whether the relation fails wherever the values stand so.
    fn rules_out(&self, op: Op, rel: &Rel, how: Standing) -> bool
        ensures { IsTrue result → (x : Assignment) → IsInside self.now x → Stands op how x → IsTrue (holds op x rel.now) → ⊥ }
    {
        match rel {
            Rel::Same(s, t) => !is_equal(how) && are_operands(*s, *t),
            Rel::Differ(s, t) => is_equal(how) && are_operands(*s, *t),
            Rel::Taken(taken) => is_met(op, how) != *taken,
            Rel::Linked => !is_equal(how) && self.is_one_register(),
            _ => false,
        }
    }

    /// Whether one of the relations fails wherever the values stand so.
    fn is_ruled_out(&self, op: Op, rels: &[Rel], how: Standing) -> bool
        ensures { IsTrue result → IsRuledOut self.now op rels.now how }
    {
        for rel in rels {
            if self.rules_out(op, rel, how) {
                return true;
            }
        }
        false
    }

    /// Whether each way in which the values can stand is ruled out by one of the relations.
    fn has_no_standing(&self, op: Op, rels: &[Rel]) -> bool
        ensures { IsTrue result → IsUnfit self.now op rels.now }
    {
        self.domain(Slot::A).element_laws();
        self.domain(Slot::B).element_laws();
        if !self.is_ruled_out(op, rels, Standing::Less) {
            return false;
        }
        if !self.is_ruled_out(op, rels, Standing::Equal) {
            return false;
        }
        self.is_ruled_out(op, rels, Standing::Greater)
    }

    /// Empties a domain where the relations together leave no way in which the values can stand.
    pub(crate) fn narrow_standing(&mut self, alloc: Global, op: Op, rels: &[Rel])
        ensures { Narrows op rels.now self.old self.new }
    {
        if self.has_no_standing(op, rels) {
            self.empty(alloc, Slot::A);
        }
    }
}
