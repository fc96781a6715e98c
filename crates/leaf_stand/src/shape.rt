// What a step uses, by its operation and by how it ends.

ghost use Rattle.std.specs.Prelude.{◌≡◌};
ghost use Rattle.leaf_link.specs.Cases.{uses, uses_address, uses_condition, uses_rs1, uses_rs2};
ghost use Rattle.leaf_link.specs.Firsts.{has_old};
ghost use Rattle.rv_isa.specs.Fields.{has_address};
ghost use Rattle.rv_isa.specs.Table.{row_of};
ghost use Rattle.tpl_ast.specs.Leaves.{same_var, var_number};
ghost use Rattle.leaf_stand.specs.Stands.{outcome_at, shape_at};
ghost use Rattle.leaf_stand.specs.Relations.{slot_of};

use fd_prob::Slot;
use rv_csr::Cause;
use rv_isa::Op;
use tpl_ast::Var;

/// How a step ends.
#[derive(Clone, Copy)]
pub enum End {
    Retires,
    Traps(Cause),
}

/// An operation, how it ends, and whether it makes a data access.
#[derive(Clone, Copy)]
pub struct Shape {
    pub op: Op,
    pub end: End,
    pub reaches: bool,
}

impl End {
    /// The outcome, as atoms have it.
    pub fn outcome(self) -> u32
        ensures { result ≡ outcome_at self }
    {
        match self {
            End::Retires => 255,
            End::Traps(cause) => u32::from(cause.number()),
        }
    }
}

impl Shape {
    /// The value of rs1 matters.
    pub fn uses_rs1(self) -> bool
        ensures { result ≡ uses_rs1 (shape_at self) }
    {
        self.op.reads_rs1() && self.end.outcome() != 2
    }

    /// The value of rs2 matters.
    pub fn uses_rs2(self) -> bool
        ensures { result ≡ uses_rs2 (shape_at self) }
    {
        self.op.reads_rs2() && self.end.outcome() != 2
    }

    /// The virtual address matters.
    pub fn uses_address(self) -> bool
        ensures { result ≡ uses_address (shape_at self) }
    {
        (self.op.is_load() || self.op.is_store()) && self.uses_rs1()
    }

    /// It is a branch whose condition is looked at.
    pub fn uses_condition(self) -> bool
        ensures { result ≡ uses_condition (shape_at self) }
    {
        self.op.is_branch() && self.uses_rs1() && self.uses_rs2()
    }

    /// It has a target.
    pub fn uses_target(self) -> bool
        ensures { result ≡ uses (shape_at self) Var.Target }
    {
        self.op.is_branch() || self.op.is_jump() || (matches!(self.op, Op::Jalr) && self.uses_rs1())
    }

    /// The step has a value of the variable.
    pub fn uses(self, var: Var) -> bool
        ensures { result ≡ uses (shape_at self) var }
    {
        match var {
            Var::Op | Var::Outcome => true,
            Var::Rs1 => self.op.has_rs1(),
            Var::Rs2 => self.op.has_rs2(),
            Var::Rd => self.op.has_rd(),
            Var::Imm => self.op.has_imm(),
            Var::Csr => self.op.has_csr(),
            Var::A => self.uses_rs1(),
            Var::B => self.uses_rs2(),
            Var::Target => self.uses_target(),
            Var::Ea => self.uses_address(),
            Var::Pa => self.reaches,
        }
    }
}

/// The operation has a virtual address.
pub fn has_address(op: Op) -> bool
    ensures { result ≡ has_address (row_of op) }
{
    op.is_load() || op.is_store()
}

/// The operation may read a CSR.
pub fn has_old(op: Op) -> bool
    ensures { result ≡ has_old op }
{
    op.has_csr() || matches!(op, Op::Mret | Op::Sret)
}

/// The place of a variable in their order.
fn var_number(var: Var) -> u8
    ensures { result ≡ var_number var }
{
    match var {
        Var::Op => 0,
        Var::Rs1 => 1,
        Var::Rs2 => 2,
        Var::Rd => 3,
        Var::Imm => 4,
        Var::Csr => 5,
        Var::Ea => 6,
        Var::A => 7,
        Var::B => 8,
        Var::Pa => 9,
        Var::Target => 10,
        Var::Outcome => 11,
    }
}

/// Whether two variables are one.
pub fn same_var(var: Var, other: Var) -> bool
    ensures { result ≡ same_var var other }
{
    var_number(var) == var_number(other)
}

/// The variable of problems that stands for one of atoms.
pub fn slot_of(var: Var) -> Option<Slot>
    ensures { result ≡ slot_of var }
{
    match var {
        Var::Op => Some(Slot::Op),
        Var::Rs1 => Some(Slot::Rs1),
        Var::Rs2 => Some(Slot::Rs2),
        Var::Imm => Some(Slot::Imm),
        Var::Rd => Some(Slot::Rd),
        Var::Csr => Some(Slot::Csr),
        Var::Ea => Some(Slot::Ea),
        Var::A => Some(Slot::A),
        Var::B => Some(Slot::B),
        Var::Pa | Var::Target | Var::Outcome => None,
    }
}
