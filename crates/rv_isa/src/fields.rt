//! Which fields an operation's words have, and which registers it reads.

ghost use Rattle.std.specs.Prelude.{◌≡◌};
ghost use Rattle.rv_isa.specs.Fields.{has_csr, has_imm, has_rd, has_rs1, has_rs2, is_jump, is_load, is_store, reads_rs1, reads_rs2};
ghost use Rattle.rv_isa.specs.Arithmetic.{is_branch};
ghost use Rattle.rv_isa.specs.Table.{row_of};

use crate::operation::Op;
use crate::table::{Row, row_of};

impl Op {
    /// Whether its words have the field rd.
    pub fn has_rd(self) -> bool
        ensures { result ≡ has_rd (row_of self) }
    {
        match row_of(self) {
            Row::R(..)
            | Row::I(..)
            | Row::Shift(..)
            | Row::U(_)
            | Row::J(_)
            | Row::Csr(..)
            | Row::CsrImmediate(..) => true,
            Row::S(..)
            | Row::B(..)
            | Row::FenceSets(..)
            | Row::AddressFence(..)
            | Row::Fixed(_)
            | Row::DefinedIllegal => false,
        }
    }

    /// Whether its words have the field rs1.
    pub fn has_rs1(self) -> bool
        ensures { result ≡ has_rs1 (row_of self) }
    {
        match row_of(self) {
            Row::R(..)
            | Row::I(..)
            | Row::Shift(..)
            | Row::S(..)
            | Row::B(..)
            | Row::Csr(..)
            | Row::AddressFence(..) => true,
            Row::U(_)
            | Row::J(_)
            | Row::CsrImmediate(..)
            | Row::FenceSets(..)
            | Row::Fixed(_)
            | Row::DefinedIllegal => false,
        }
    }

    /// Whether its words have the field rs2.
    pub fn has_rs2(self) -> bool
        ensures { result ≡ has_rs2 (row_of self) }
    {
        match row_of(self) {
            Row::R(..) | Row::S(..) | Row::B(..) | Row::AddressFence(..) => true,
            Row::I(..)
            | Row::Shift(..)
            | Row::U(_)
            | Row::J(_)
            | Row::Csr(..)
            | Row::CsrImmediate(..)
            | Row::FenceSets(..)
            | Row::Fixed(_)
            | Row::DefinedIllegal => false,
        }
    }

    /// Whether its words have an immediate.
    pub fn has_imm(self) -> bool
        ensures { result ≡ has_imm (row_of self) }
    {
        match row_of(self) {
            Row::I(..)
            | Row::Shift(..)
            | Row::S(..)
            | Row::B(..)
            | Row::U(_)
            | Row::J(_)
            | Row::CsrImmediate(..)
            | Row::FenceSets(..)
            | Row::DefinedIllegal => true,
            Row::R(..) | Row::Csr(..) | Row::AddressFence(..) | Row::Fixed(_) => false,
        }
    }

    /// Whether its words have the address of a control and status register.
    pub fn has_csr(self) -> bool
        ensures { result ≡ has_csr (row_of self) }
    {
        match row_of(self) {
            Row::Csr(..) | Row::CsrImmediate(..) => true,
            Row::R(..)
            | Row::I(..)
            | Row::Shift(..)
            | Row::S(..)
            | Row::B(..)
            | Row::U(_)
            | Row::J(_)
            | Row::FenceSets(..)
            | Row::AddressFence(..)
            | Row::Fixed(_)
            | Row::DefinedIllegal => false,
        }
    }

    /// Whether it uses the value of rs1. SFENCE.VMA is for all addresses here and uses none.
    pub fn reads_rs1(self) -> bool
        ensures { result ≡ reads_rs1 (row_of self) }
    {
        match row_of(self) {
            Row::R(..) | Row::I(..) | Row::Shift(..) | Row::S(..) | Row::B(..) | Row::Csr(..) =>
                true,
            Row::U(_)
            | Row::J(_)
            | Row::CsrImmediate(..)
            | Row::FenceSets(..)
            | Row::AddressFence(..)
            | Row::Fixed(_)
            | Row::DefinedIllegal => false,
        }
    }

    /// Whether it uses the value of rs2.
    pub fn reads_rs2(self) -> bool
        ensures { result ≡ reads_rs2 (row_of self) }
    {
        match row_of(self) {
            Row::R(..) | Row::S(..) | Row::B(..) => true,
            Row::I(..)
            | Row::Shift(..)
            | Row::U(_)
            | Row::J(_)
            | Row::Csr(..)
            | Row::CsrImmediate(..)
            | Row::FenceSets(..)
            | Row::AddressFence(..)
            | Row::Fixed(_)
            | Row::DefinedIllegal => false,
        }
    }

    /// Whether it is a load (Unprivileged, 2.6).
    pub fn is_load(self) -> bool
        ensures { result ≡ is_load (row_of self) }
    {
        match row_of(self) {
            Row::I(opcode, _) => opcode == 0x03,
            Row::R(..)
            | Row::Shift(..)
            | Row::S(..)
            | Row::B(..)
            | Row::U(_)
            | Row::J(_)
            | Row::Csr(..)
            | Row::CsrImmediate(..)
            | Row::FenceSets(..)
            | Row::AddressFence(..)
            | Row::Fixed(_)
            | Row::DefinedIllegal => false,
        }
    }

    /// Whether it is a store (Unprivileged, 2.6).
    pub fn is_store(self) -> bool
        ensures { result ≡ is_store (row_of self) }
    {
        match row_of(self) {
            Row::S(opcode, _) => opcode == 0x23,
            Row::R(..)
            | Row::I(..)
            | Row::Shift(..)
            | Row::B(..)
            | Row::U(_)
            | Row::J(_)
            | Row::Csr(..)
            | Row::CsrImmediate(..)
            | Row::FenceSets(..)
            | Row::AddressFence(..)
            | Row::Fixed(_)
            | Row::DefinedIllegal => false,
        }
    }

    /// Whether it is JAL (Unprivileged, 2.5.1).
    pub fn is_jump(self) -> bool
        ensures { result ≡ is_jump (row_of self) }
    {
        match row_of(self) {
            Row::J(opcode) => opcode == 0x6f,
            Row::R(..)
            | Row::I(..)
            | Row::Shift(..)
            | Row::S(..)
            | Row::B(..)
            | Row::U(_)
            | Row::Csr(..)
            | Row::CsrImmediate(..)
            | Row::FenceSets(..)
            | Row::AddressFence(..)
            | Row::Fixed(_)
            | Row::DefinedIllegal => false,
        }
    }

    /// Whether it is a branch (Unprivileged, 2.5.2).
    pub fn is_branch(self) -> bool
        ensures { result ≡ is_branch self }
    {
        match row_of(self) {
            Row::B(opcode, _) => opcode == 0x63,
            Row::R(..)
            | Row::I(..)
            | Row::Shift(..)
            | Row::S(..)
            | Row::U(_)
            | Row::J(_)
            | Row::Csr(..)
            | Row::CsrImmediate(..)
            | Row::FenceSets(..)
            | Row::AddressFence(..)
            | Row::Fixed(_)
            | Row::DefinedIllegal => false,
        }
    }
}
