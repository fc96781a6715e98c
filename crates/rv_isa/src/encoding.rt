//! Instructions as words.

ghost use Rattle.std.specs.Prelude.{◌≡◌, ◌+◌, ◌*◌, ◌^◌, ◌<◌};
ghost use Rattle.rv_isa.specs.Encoding.{Fits, FitsRow, IsEncoded, bits, parts_of};
ghost use Rattle.rv_isa.specs.Reading.{AreParts, IsNarrow};

use crate::instruction::Instr;
use crate::parts::{Parts, bits};
use crate::table::{Row, row_of};

/// The instruction's word (Unprivileged, 2.2 and 2.3).
pub fn encode(i: &Instr) -> u32
    requires { Fits i.now }
    ensures { IsEncoded i.now result }
{
    parts_of(row_of(i.op), *i).word()
}

/// What stands where in the row's format.
fn parts_of(row: Row, i: Instr) -> Parts
    requires narrow { IsNarrow row }
    requires fits { FitsRow row i }
    ensures value { result ≡ parts_of row i }
    ensures parts { AreParts result }
{
    let Instr {
        rd,
        rs1,
        rs2,
        imm,
        ..
    } = i;
    let (high, low, even) = (bits(imm, 11, 5), bits(imm, 4, 0), even_low(imm));
    let csr = u32::from(i.csr);
    let (csr_high, csr_low) = (bits(csr, 11, 5), bits(csr, 4, 0));
    let cut = Parts::of(imm);
    match row {
        Row::R(opcode, f3, f7) => Parts::new(f7, rs2, rs1, f3, rd, opcode),
        Row::I(opcode, f3) => Parts::new(high, low, rs1, f3, rd, opcode),
        Row::S(opcode, f3) => Parts::new(high, rs2, rs1, f3, low, opcode),
        Row::B(opcode, f3) => Parts::new(even_high(imm, 12), rs2, rs1, f3, even, opcode),
        Row::U(opcode) => Parts::new(cut.funct7, cut.rs2, cut.rs1, cut.funct3, rd, opcode),
        Row::J(opcode) => Parts::new(even_high(imm, 20), even, cut.rs1, cut.funct3, rd, opcode),
        Row::Shift(opcode, f3, f7) => Parts::new(f7, imm as u8, rs1, f3, rd, opcode),
        Row::Csr(opcode, f3) => Parts::new(csr_high, csr_low, rs1, f3, rd, opcode),
        Row::CsrImmediate(opcode, f3) => Parts::new(csr_high, csr_low, imm as u8, f3, rd, opcode),
        Row::FenceSets(opcode, f3) => Parts::new(bits(imm, 7, 5), low, 0, f3, 0, opcode),
        Row::AddressFence(opcode, f3, f7) => Parts::new(f7, rs2, rs1, f3, 0, opcode),
        Row::Fixed(word) => Parts::of(word),
        Row::DefinedIllegal => cut,
    }
}

/// The part of an even immediate that begins with its sign: bit `sign` and bits 10 to 5.
fn even_high(imm: u32, sign: u32) -> u8
    requires { sign < 32 }
    ensures { result ≡ bits imm sign sign * 2 ^ 6 + bits imm 10 5 }
{
    (bits(imm, sign, sign) << 6) + bits(imm, 10, 5)
}

/// The part of an even immediate that ends with bit 11: bits 4 to 1 and that bit.
fn even_low(imm: u32) -> u8
    ensures { result ≡ bits imm 4 1 * 2 + bits imm 11 11 }
{
    (bits(imm, 4, 1) << 1) + bits(imm, 11, 11)
}
