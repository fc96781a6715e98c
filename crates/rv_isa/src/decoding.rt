//! Words as instructions.

ghost use Rattle.std.specs.Prelude.{◌≡◌, ◌≤◌, ◌<◌, ◌^◌, IfSome, Some, find};
ghost use Rattle.rv_isa.specs.Encoding.{IsEncoded, IsInRange, sign_extended};
ghost use Rattle.rv_isa.specs.Reading.{AreParts, branch_imm, decoded, instr_of, is_row, jump_imm, read_from, upper_imm};
ghost use Rattle.rv_isa.specs.Table.{row_of};
ghost use Rattle.rv_isa.specs.declared.instruction.Instr.{Instr as AnInstr};

use crate::instruction::Instr;
use crate::operation::{OPS, Op};
use crate::parts::Parts;
use crate::table::{Row, row_of};

/// The instruction that has this word; `None` where the table has none.
pub fn decode(word: u32) -> Option<Instr>
    ensures value { result ≡ decoded word }
    ensures found { IfSome result (λ i. IsEncoded i word) }
    ensures ranges { IfSome result IsInRange }
    ensures only { (i : AnInstr) → IsEncoded i word → result ≡ Some i }
{
    read_from(&OPS, Parts::of(word))
}

/// The instruction of the first operation whose row the parts meet.
fn read_from(ops: &[Op], parts: Parts) -> Option<Instr>
    requires { AreParts parts }
    ensures { result ≡ read_from ops.now parts }
{
    first_met(ops, parts).map(|op| instr_of(op, row_of(op), parts))
}

/// The first operation whose row the parts meet.
fn first_met(ops: &[Op], parts: Parts) -> Option<Op>
    requires { AreParts parts }
    ensures { result ≡ find (λ op. is_row (row_of op) parts) ops.now }
{
    ops.iter().copied().find(|op| is_row(row_of(*op), parts))
}

/// Whether the parts are those that the row fixes.
fn is_row(row: Row, p: Parts) -> bool
    requires { AreParts p }
    ensures { result ≡ is_row row p }
{
    match row {
        Row::R(opcode, funct3, funct7) => {
            p.opcode == opcode && p.funct3 == funct3 && p.funct7 == funct7
        }
        Row::I(opcode, funct3) | Row::S(opcode, funct3) | Row::B(opcode, funct3) => {
            p.opcode == opcode && p.funct3 == funct3
        }
        Row::U(opcode) | Row::J(opcode) => p.opcode == opcode,
        Row::Shift(opcode, funct3, funct7) => {
            p.opcode == opcode && p.funct3 == funct3 && p.funct7 == funct7
        }
        Row::Csr(opcode, funct3) | Row::CsrImmediate(opcode, funct3) => {
            p.opcode == opcode && p.funct3 == funct3
        }
        Row::FenceSets(opcode, funct3) => {
            p.opcode == opcode && p.funct3 == funct3 && p.rd == 0 && p.rs1 == 0 && p.funct7 < 8
        }
        Row::AddressFence(opcode, funct3, funct7) => {
            p.opcode == opcode && p.funct3 == funct3 && p.funct7 == funct7 && p.rd == 0
        }
        Row::Fixed(word) => p.word() == word,
        Row::DefinedIllegal => p.word() == 0 || p.word() == u32::MAX,
    }
}

/// The fields where the row's format has them.
fn instr_of(op: Op, row: Row, p: Parts) -> Instr
    requires { AreParts p }
    ensures { result ≡ instr_of op row p }
{
    let upper = u32::from(p.funct7) * 32 + u32::from(p.rs2);
    let split = u32::from(p.funct7) * 32 + u32::from(p.rd);
    let (rd, rs1, rs2, imm, csr) = match row {
        Row::R(..) => (p.rd, p.rs1, p.rs2, 0, 0),
        Row::I(..) => (p.rd, p.rs1, 0, sign_extended(12, upper), 0),
        Row::S(..) => (0, p.rs1, p.rs2, sign_extended(12, split), 0),
        Row::B(..) => (0, p.rs1, p.rs2, sign_extended(13, branch_imm(p)), 0),
        Row::U(_) => (p.rd, 0, 0, upper_imm(p), 0),
        Row::J(_) => (p.rd, 0, 0, sign_extended(21, jump_imm(p)), 0),
        Row::Shift(..) => (p.rd, p.rs1, 0, u32::from(p.rs2), 0),
        Row::Csr(..) => (p.rd, p.rs1, 0, 0, upper as u16),
        Row::CsrImmediate(..) => (p.rd, 0, 0, u32::from(p.rs1), upper as u16),
        Row::FenceSets(..) => (0, 0, 0, upper, 0),
        Row::AddressFence(..) => (0, p.rs1, p.rs2, 0, 0),
        Row::Fixed(_) => (0, 0, 0, 0, 0),
        Row::DefinedIllegal => (0, 0, 0, p.word(), 0),
    };
    Instr {
        op,
        rd,
        rs1,
        rs2,
        imm,
        csr,
    }
}

/// The low `width` bits of a word as a word, by copies of the highest of them (Unprivileged, 2.3).
fn sign_extended(width: u32, n: u32) -> u32
    requires some { 0 < width }
    requires narrow { width < 32 }
    requires fits { n < 2 ^ width }
    ensures { result ≡ sign_extended width n }
{
    if n < 1 << (width - 1) {
        n
    } else {
        n + (u32::MAX << width)
    }
}

/// The immediate that a branch scatters (Unprivileged, 2.3).
fn branch_imm(p: Parts) -> u32
    requires { AreParts p }
    ensures { result ≡ branch_imm p }
{
    let high = u32::from(p.funct7);
    let low = u32::from(p.rd);
    ((high >> 6) << 12) + ((low & 1) << 11) + ((high & 0x3f) << 5) + (low >> 1 << 1)
}

/// The immediate that a jump scatters (Unprivileged, 2.3).
fn jump_imm(p: Parts) -> u32
    requires { AreParts p }
    ensures { result ≡ jump_imm p }
{
    let high = u32::from(p.funct7);
    let low = u32::from(p.rs2);
    let middle = (u32::from(p.rs1) << 15) + (u32::from(p.funct3) << 12);
    ((high >> 6) << 20) + middle + ((low & 1) << 11) + ((high & 0x3f) << 5) + (low >> 1 << 1)
}

/// The upper 20 bits of the word, with zeros below them (Unprivileged, 2.3).
fn upper_imm(p: Parts) -> u32
    requires { AreParts p }
    ensures { result ≡ upper_imm p }
{
    let middle = (u32::from(p.rs1) << 15) + (u32::from(p.funct3) << 12);
    (u32::from(p.funct7) << 25) + (u32::from(p.rs2) << 20) + middle
}
