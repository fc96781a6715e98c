// Which operations are posed, and the ways of their steps.

ghost use Rattle.std.specs.Prelude.{◌≡◌};
ghost use Rattle.std.specs.List.{list_all};
ghost use Rattle.rv_csr.specs.declared.status.Flag.TheVariants.{Tsr, Tvm};
ghost use Rattle.rv_hart.specs.Privileged.{is_withheld};
ghost use Rattle.rv_isa.specs.declared.operation.TheConstants.{OPS};
ghost use Rattle.leaf_stand.specs.Posed.{are_posable, is_posable};
ghost use Rattle.leaf_stand.specs.Stands.{turn_of};
ghost use Rattle.leaf_stand.specs.Internal.Ways.{ways_by};

use crate::kind::{Kind, is_data};
use crate::shape::End;
use crate::stand::Stand;
use crate::way::{Aim, Way};
use rv_csr::{Cause, LazyRegister, Priv};
use rv_isa::{OPS, Op};
use tpl_ast::Atom;

static RETIRES: [Way; 1] = [Way {
    end: End::Retires,
    taken: None,
    aim: Aim::Anywhere,
    reads: None,
}];

/// A branch that is taken retires at a multiple of 4, and traps at what is none.
static BRANCHES: [Way; 3] = [
    Way {
        end: End::Retires,
        taken: Some(true),
        aim: Aim::Aligned,
        reads: None,
    },
    Way {
        end: End::Retires,
        taken: Some(false),
        aim: Aim::Anywhere,
        reads: None,
    },
    Way {
        end: End::Traps(Cause::FetchMisaligned),
        taken: Some(true),
        aim: Aim::Misaligned,
        reads: None,
    },
];

static JUMPS: [Way; 2] = [
    Way {
        end: End::Retires,
        taken: None,
        aim: Aim::Aligned,
        reads: None,
    },
    Way {
        end: End::Traps(Cause::FetchMisaligned),
        taken: None,
        aim: Aim::Misaligned,
        reads: None,
    },
];

static CALLS_FROM_U: [Way; 1] = [Way {
    end: End::Traps(Cause::CallFromU),
    taken: None,
    aim: Aim::Anywhere,
    reads: None,
}];

static CALLS_FROM_S: [Way; 1] = [Way {
    end: End::Traps(Cause::CallFromS),
    taken: None,
    aim: Aim::Anywhere,
    reads: None,
}];

static CALLS_FROM_M: [Way; 1] = [Way {
    end: End::Traps(Cause::CallFromM),
    taken: None,
    aim: Aim::Anywhere,
    reads: None,
}];

static BREAKS: [Way; 1] = [Way {
    end: End::Traps(Cause::Breakpoint),
    taken: None,
    aim: Aim::Anywhere,
    reads: None,
}];

static REFUSALS: [Way; 1] = [Way {
    end: End::Traps(Cause::Illegal),
    taken: None,
    aim: Aim::Anywhere,
    reads: None,
}];

static MACHINE_RETURNS: [Way; 1] = [Way {
    end: End::Retires,
    taken: None,
    aim: Aim::Anywhere,
    reads: Some(LazyRegister::Mepc),
}];

static SUPERVISOR_RETURNS: [Way; 1] = [Way {
    end: End::Retires,
    taken: None,
    aim: Aim::Anywhere,
    reads: Some(LazyRegister::Sepc),
}];

impl Stand<'_> {
    /// Whether SFENCE.VMA is illegal (Privileged, 3.1.6.5).
    fn withholds_fences(&self) -> bool
        ensures { result ≡ is_withheld Tvm (turn_of self.now).fixed }
    {
        match self.privilege {
            Priv::U => true,
            Priv::S => self.csrs.tvm(),
            Priv::M => false,
        }
    }

    /// Whether SRET is illegal (Privileged, 3.1.6.5).
    fn withholds_returns(&self) -> bool
        ensures { result ≡ is_withheld Tsr (turn_of self.now).fixed }
    {
        match self.privilege {
            Priv::U => true,
            Priv::S => self.csrs.tsr(),
            Priv::M => false,
        }
    }

    /// The ways of a kind of operations.
    pub fn ways_by(&self, kind: Kind) -> &'static [Way]
        ensures { result.now ≡ ways_by self.now kind }
    {
        match kind {
            Kind::Plain => &RETIRES,
            Kind::Branch => &BRANCHES,
            Kind::Jump => &JUMPS,
            Kind::JumpRegister => &JUMPS,
            Kind::Call => match self.privilege {
                Priv::U => &CALLS_FROM_U,
                Priv::S => &CALLS_FROM_S,
                Priv::M => &CALLS_FROM_M,
            },
            Kind::Break => &BREAKS,
            Kind::Illegal => &REFUSALS,
            Kind::AddressFence => {
                if self.withholds_fences() {
                    &REFUSALS
                } else {
                    &RETIRES
                }
            }
            Kind::MachineReturn => match self.privilege {
                Priv::M => &MACHINE_RETURNS,
                Priv::S | Priv::U => &REFUSALS,
            },
            Kind::SupervisorReturn => {
                if self.withholds_returns() {
                    &REFUSALS
                } else {
                    &SUPERVISOR_RETURNS
                }
            }
            // Those of CSR instructions rest on registers, and those of loads and stores on memory.
            Kind::Csr | Kind::Data => &[],
        }
    }

    /// Whether an operation can be posed, or is not allowed by the atoms and a known word: a load or store can where it is told
    /// what loads and stores may do.
    fn is_posable(&self, leaf: &[Atom], op: Op) -> bool
        ensures { result ≡ is_posable self.now leaf.now op }
    {
        !is_data(op) || self.accesses.is_some() || !self.allows(leaf, op)
    }

    fn each_is_posable(&self, leaf: &[Atom], ops: &[Op]) -> bool
        ensures { result ≡ list_all (is_posable self.now leaf.now) ops.now }
    {
        for op in ops {
            if !self.is_posable(leaf, *op) {
                return false;
            }
        }
        true
    }

    /// Whether the atoms and a known word allow no operations but those that can be posed.
    pub fn are_posable(&self, leaf: &[Atom]) -> bool
        ensures { result ≡ are_posable self.now leaf.now }
    {
        self.each_is_posable(leaf, &OPS)
    }
}
