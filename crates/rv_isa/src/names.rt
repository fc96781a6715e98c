//! The names of the operations.

ghost use Rattle.std.specs.Prelude.{◌≡◌};
ghost use Rattle.rv_isa.specs.Names.{name_of};

use crate::operation::Op;

/// The name of an operation in lower case, with `_` for a dot.
pub fn name_of(op: Op) -> &'static [u8]
    ensures { result.now ≡ name_of op }
{
    match op {
        Op::Lui => b"lui",
        Op::Auipc => b"auipc",
        Op::Jal => b"jal",
        Op::Jalr => b"jalr",
        Op::Beq => b"beq",
        Op::Bne => b"bne",
        Op::Blt => b"blt",
        Op::Bge => b"bge",
        Op::Bltu => b"bltu",
        Op::Bgeu => b"bgeu",
        Op::Lb => b"lb",
        Op::Lh => b"lh",
        Op::Lw => b"lw",
        Op::Lbu => b"lbu",
        Op::Lhu => b"lhu",
        Op::Sb => b"sb",
        Op::Sh => b"sh",
        Op::Sw => b"sw",
        Op::Addi => b"addi",
        Op::Slti => b"slti",
        Op::Sltiu => b"sltiu",
        Op::Xori => b"xori",
        Op::Ori => b"ori",
        Op::Andi => b"andi",
        Op::Slli => b"slli",
        Op::Srli => b"srli",
        Op::Srai => b"srai",
        Op::Add => b"add",
        Op::Sub => b"sub",
        Op::Sll => b"sll",
        Op::Slt => b"slt",
        Op::Sltu => b"sltu",
        Op::Xor => b"xor",
        Op::Srl => b"srl",
        Op::Sra => b"sra",
        Op::Or => b"or",
        Op::And => b"and",
        Op::Fence => b"fence",
        Op::Ecall => b"ecall",
        Op::Ebreak => b"ebreak",
        Op::Mul => b"mul",
        Op::Mulh => b"mulh",
        Op::Mulhsu => b"mulhsu",
        Op::Mulhu => b"mulhu",
        Op::Div => b"div",
        Op::Divu => b"divu",
        Op::Rem => b"rem",
        Op::Remu => b"remu",
        Op::Csrrw => b"csrrw",
        Op::Csrrs => b"csrrs",
        Op::Csrrc => b"csrrc",
        Op::Csrrwi => b"csrrwi",
        Op::Csrrsi => b"csrrsi",
        Op::Csrrci => b"csrrci",
        Op::Mret => b"mret",
        Op::Sret => b"sret",
        Op::SfenceVma => b"sfence_vma",
        Op::Illegal => b"illegal",
    }
}
