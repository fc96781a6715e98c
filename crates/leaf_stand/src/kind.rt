// Operations by how their steps go on after the sources.

ghost use Rattle.std.specs.Prelude.{◌≡◌};
ghost use Rattle.leaf_stand.specs.Kinds.{kind_of};
ghost use Rattle.leaf_stand.specs.Posed.{is_data};

use rv_isa::Op;

/// How the steps of an operation go on after their sources.
#[derive(Clone, Copy)]
pub enum Kind {
    /// It retires: a register or immediate operation, LUI, AUIPC or FENCE.
    Plain,
    Branch,
    /// JAL.
    Jump,
    /// JALR.
    JumpRegister,
    /// ECALL.
    Call,
    /// EBREAK.
    Break,
    /// ILLEGAL: the words 0 and 2^32 - 1, which raise an illegal instruction.
    Illegal,
    /// CSRRW, CSRRS, CSRRC and their forms with an immediate.
    Csr,
    /// MRET.
    MachineReturn,
    /// SRET.
    SupervisorReturn,
    /// SFENCE.VMA.
    AddressFence,
    /// Loads and stores.
    Data,
}

/// The kind of an operation.
pub fn kind_of(op: Op) -> Kind
    ensures { result ≡ kind_of op }
{
    match op {
        Op::Jal => Kind::Jump,
        Op::Jalr => Kind::JumpRegister,
        Op::Beq | Op::Bne | Op::Blt | Op::Bge | Op::Bltu | Op::Bgeu => Kind::Branch,
        Op::Lb | Op::Lh | Op::Lw | Op::Lbu | Op::Lhu | Op::Sb | Op::Sh | Op::Sw => Kind::Data,
        Op::Ecall => Kind::Call,
        Op::Ebreak => Kind::Break,
        Op::Csrrw | Op::Csrrs | Op::Csrrc | Op::Csrrwi | Op::Csrrsi | Op::Csrrci => Kind::Csr,
        Op::Mret => Kind::MachineReturn,
        Op::Sret => Kind::SupervisorReturn,
        Op::SfenceVma => Kind::AddressFence,
        Op::Illegal => Kind::Illegal,
        _ => Kind::Plain,
    }
}

/// Whether it is a load or a store.
pub fn is_data(op: Op) -> bool
    ensures { result ≡ is_data (kind_of op) }
{
    matches!(kind_of(op), Kind::Data)
}
