//! The table of encodings: one row for each operation.

ghost use Rattle.std.specs.Prelude.{◌≡◌};
ghost use Rattle.rv_isa.specs.Reading.{IsNarrow};
ghost use Rattle.rv_isa.specs.Table.{row_of};

use crate::operation::Op;

/// What a row of the table fixes in a word and, by the variant, where the fields lie. The numbers
/// are the opcode, funct3 and funct7, in this order.
#[derive(Clone, Copy)]
pub enum Row {
    /// rd, rs1 and rs2 (Unprivileged, 2.2).
    R(u8, u8, u8),
    /// rd, rs1 and a signed immediate of 12 bits (Unprivileged, 2.2).
    I(u8, u8),
    /// rd, rs1 and the amount of a shift, 0 to 31 (Unprivileged, 2.4.1).
    Shift(u8, u8, u8),
    /// rs1, rs2 and a signed immediate of 12 bits (Unprivileged, 2.2).
    S(u8, u8),
    /// rs1, rs2 and an even signed immediate of 13 bits (Unprivileged, 2.3).
    B(u8, u8),
    /// rd and the upper 20 bits of the immediate (Unprivileged, 2.2).
    U(u8),
    /// rd and an even signed immediate of 21 bits (Unprivileged, 2.3).
    J(u8),
    /// rd, rs1 and a control and status register (Unprivileged, Zicsr).
    Csr(u8, u8),
    /// rd, an immediate from 0 to 31 and a control and status register (Unprivileged, Zicsr).
    CsrImmediate(u8, u8),
    /// The predecessor and successor sets, with the other fields 0 (Unprivileged, 2.7).
    FenceSets(u8, u8),
    /// rs1 and rs2, with rd 0 (Privileged, SFENCE.VMA).
    AddressFence(u8, u8, u8),
    /// The whole word is fixed.
    Fixed(u32),
    /// All zeros or all ones (Unprivileged, 1.5).
    DefinedIllegal,
}

/// The row of an operation.
pub fn row_of(op: Op) -> Row
    ensures value { result ≡ row_of op }
    ensures narrow { IsNarrow result }
{
    match op {
        Op::Lui => Row::U(0x37),
        Op::Auipc => Row::U(0x17),
        Op::Jal => Row::J(0x6f),
        Op::Jalr => Row::I(0x67, 0),
        Op::Beq => Row::B(0x63, 0),
        Op::Bne => Row::B(0x63, 1),
        Op::Blt => Row::B(0x63, 4),
        Op::Bge => Row::B(0x63, 5),
        Op::Bltu => Row::B(0x63, 6),
        Op::Bgeu => Row::B(0x63, 7),
        Op::Lb => Row::I(0x03, 0),
        Op::Lh => Row::I(0x03, 1),
        Op::Lw => Row::I(0x03, 2),
        Op::Lbu => Row::I(0x03, 4),
        Op::Lhu => Row::I(0x03, 5),
        Op::Sb => Row::S(0x23, 0),
        Op::Sh => Row::S(0x23, 1),
        Op::Sw => Row::S(0x23, 2),
        Op::Addi => Row::I(0x13, 0),
        Op::Slti => Row::I(0x13, 2),
        Op::Sltiu => Row::I(0x13, 3),
        Op::Xori => Row::I(0x13, 4),
        Op::Ori => Row::I(0x13, 6),
        Op::Andi => Row::I(0x13, 7),
        Op::Slli => Row::Shift(0x13, 1, 0x00),
        Op::Srli => Row::Shift(0x13, 5, 0x00),
        Op::Srai => Row::Shift(0x13, 5, 0x20),
        Op::Add => Row::R(0x33, 0, 0x00),
        Op::Sub => Row::R(0x33, 0, 0x20),
        Op::Sll => Row::R(0x33, 1, 0x00),
        Op::Slt => Row::R(0x33, 2, 0x00),
        Op::Sltu => Row::R(0x33, 3, 0x00),
        Op::Xor => Row::R(0x33, 4, 0x00),
        Op::Srl => Row::R(0x33, 5, 0x00),
        Op::Sra => Row::R(0x33, 5, 0x20),
        Op::Or => Row::R(0x33, 6, 0x00),
        Op::And => Row::R(0x33, 7, 0x00),
        Op::Fence => Row::FenceSets(0x0f, 0),
        Op::Ecall => Row::Fixed(0x0000_0073),
        Op::Ebreak => Row::Fixed(0x0010_0073),
        Op::Mul => Row::R(0x33, 0, 0x01),
        Op::Mulh => Row::R(0x33, 1, 0x01),
        Op::Mulhsu => Row::R(0x33, 2, 0x01),
        Op::Mulhu => Row::R(0x33, 3, 0x01),
        Op::Div => Row::R(0x33, 4, 0x01),
        Op::Divu => Row::R(0x33, 5, 0x01),
        Op::Rem => Row::R(0x33, 6, 0x01),
        Op::Remu => Row::R(0x33, 7, 0x01),
        Op::Csrrw => Row::Csr(0x73, 1),
        Op::Csrrs => Row::Csr(0x73, 2),
        Op::Csrrc => Row::Csr(0x73, 3),
        Op::Csrrwi => Row::CsrImmediate(0x73, 5),
        Op::Csrrsi => Row::CsrImmediate(0x73, 6),
        Op::Csrrci => Row::CsrImmediate(0x73, 7),
        Op::Mret => Row::Fixed(0x3020_0073),
        Op::Sret => Row::Fixed(0x1020_0073),
        Op::SfenceVma => Row::AddressFence(0x73, 0, 0x09),
        Op::Illegal => Row::DefinedIllegal,
    }
}
