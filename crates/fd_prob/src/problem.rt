// Problems and what is assigned to their variables.
ghost use Rattle.std.specs.Prelude.{◌≡◌};
ghost use Rattle.fd_prob.specs.Fitting.{IsCase, domain_of};
ghost use Rattle.fd_prob.specs.Relations.{value_of};
ghost use Rattle.rv_isa.specs.Numbers.{op_numbered};

use crate::Items;
use crate::relation::Rel;
use crate::slot::Slot;
use dom_set::Set;
use rv_isa::{OPS, Op};

/// A value for each variable, in their order.
#[derive(Clone, Copy, Debug, PartialEq, Eq)]
pub struct Assignment {
    pub values: [u32; 14],
}

/// What may be with an operation: a domain for each variable, in their order, and relations that all hold.
#[derive(Drop)]
pub struct Case {
    /// The number of the operation, in the order of the table of instructions.
    pub op: u8,
    pub doms: Items<Set>,
    pub rels: Items<Rel>,
}

/// A problem: an assignment fits it where it fits one of the cases. The first case of an operation also says
/// what counts for the space and for the order of assignments.
#[derive(Drop)]
pub struct Problem {
    pub cases: Items<Case>,
    /// The draws for the variables, in their order.
    pub pivots: [u32; 14],
    /// The choices of a new root entry times those of a new second one, each at least 1; 1 where nothing is translated.
    pub pairs: u64,
    /// The problem is that of a fetch.
    pub fetch: bool,
}

/// What a bias adds to a problem.
#[derive(Drop)]
pub struct Extra {
    /// For each case, whether it stays; nothing fits one that does not, and it still counts for the space and the pivots.
    pub cases: Items<bool>,
    /// Variables, and what their domains are cut to in each case.
    pub cuts: Items<(Slot, Set)>,
    /// What is to hold in each case.
    pub rels: Items<Rel>,
}

impl Assignment {
    /// The value of a variable.
    pub fn value(&self, slot: Slot) -> u32
        ensures { result ≡ value_of self.now slot }
    {
        self.values[slot.number()]
    }
}

impl Case {
    /// The operation.
    pub fn operation(&self) -> Op
        requires { IsCase self.now }
        ensures { result ≡ op_numbered self.now.op }
    {
        OPS[usize::from(self.op)]
    }

    /// The domain of a variable.
    #[tactic(auto, unfolding(crate::specs::Fitting::domain_of))]
    pub fn domain(&self, slot: Slot) -> &Set
        requires { IsCase self.now }
        ensures { result.now ≡ domain_of self.now slot }
    {
        &self.doms.as_slice()[slot.number()]
    }
}
