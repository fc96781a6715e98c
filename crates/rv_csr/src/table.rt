//! The table of the registers.

ghost use Rattle.std.specs.Prelude.{◌≡◌, find, ◌==◌};
ghost use Rattle.rv_csr.specs.Table.{address_of, allows, csr_key, is_legal_at, register_at, row_of};

use crate::cause::{Cause, is_cause};
use std::marker::Model;

/// A register that is modelled, by its name in the manual.
#[derive(Clone, Copy, Debug, PartialEq, Eq)]
pub enum Register {
    /// A view of mstatus by a mask.
    Sstatus,
    Satp,
    Mstatus,
    Medeleg,
    /// The hart's number, which nothing writes.
    Mhartid,
    /// One whose value may not be known yet.
    Lazy(LazyRegister),
}

/// A register that has no value until it is written or is given its first one.
#[derive(Clone, Copy, Debug, PartialEq, Eq)]
pub enum LazyRegister {
    Stvec,
    Sscratch,
    Sepc,
    Scause,
    Stval,
    Mtvec,
    Mscratch,
    Mepc,
    Mcause,
    Mtval,
}

/// The registers in the order of their addresses.
pub const REGISTERS: [Register; 15] = [
    Register::Sstatus,
    Register::Lazy(LazyRegister::Stvec),
    Register::Lazy(LazyRegister::Sscratch),
    Register::Lazy(LazyRegister::Sepc),
    Register::Lazy(LazyRegister::Scause),
    Register::Lazy(LazyRegister::Stval),
    Register::Satp,
    Register::Mstatus,
    Register::Medeleg,
    Register::Lazy(LazyRegister::Mtvec),
    Register::Lazy(LazyRegister::Mscratch),
    Register::Lazy(LazyRegister::Mepc),
    Register::Lazy(LazyRegister::Mcause),
    Register::Lazy(LazyRegister::Mtval),
    Register::Mhartid,
];

/// The bits of mstatus that sstatus shows: SIE, SPIE, SPP, SUM and MXR (Privileged, 4.1.1).
pub const SSTATUS: u32 = 0x000c_0122;

/// The key of address 0 among the places of a hart. Those of its integer registers stand below.
pub const FIRST_KEY: u32 = 0x1000;

/// Which words may be written to a register.
#[derive(Clone, Copy, Debug, PartialEq, Eq)]
pub enum Values {
    /// Every word.
    All,
    /// Addresses of instructions.
    MultiplesOfFour,
    /// Words with no bit outside the mask.
    SubsetsOf(u32),
    /// Words with no bit outside the mask, of which MPP, bits 12:11, is a privilege.
    StatusWithin(u32),
    /// No translation, or Sv32 with ASID 0 and a root table at a physical address below 2^32.
    RootTables,
    /// The causes that a trap to S can have: no ECALL from M.
    CausesToS,
    /// The causes of traps.
    Causes,
    /// No word: the register is read-only.
    Nothing,
}

/// A row of the table: a register's name in lower case, its address and its legal values.
#[derive(Debug, Drop)]
pub struct Row {
    name: &'static str,
    address: u16,
    values: Values,
}

impl Model for Row {
    ghost use Rattle.rv_csr.specs.Rows.{TableRow};

    ghost Value = { TableRow };

    ghost view = { λ r. record { name = r.name.now; address = r.address; values = r.values } };
}

/// The row of a register.
pub fn row_of(register: Register) -> Row
    ensures { result ≡ row_of register }
{
    let (name, address, values) = match register {
        Register::Sstatus => ("sstatus", 0x100, Values::SubsetsOf(SSTATUS)),
        Register::Lazy(LazyRegister::Stvec) => ("stvec", 0x105, Values::MultiplesOfFour),
        Register::Lazy(LazyRegister::Sscratch) => ("sscratch", 0x140, Values::All),
        Register::Lazy(LazyRegister::Sepc) => ("sepc", 0x141, Values::MultiplesOfFour),
        Register::Lazy(LazyRegister::Scause) => ("scause", 0x142, Values::CausesToS),
        Register::Lazy(LazyRegister::Stval) => ("stval", 0x143, Values::All),
        Register::Satp => ("satp", 0x180, Values::RootTables),
        Register::Mstatus => ("mstatus", 0x300, Values::StatusWithin(0x005e_19aa)),
        Register::Medeleg => ("medeleg", 0x302, Values::SubsetsOf(0x0000_b3ff)),
        Register::Lazy(LazyRegister::Mtvec) => ("mtvec", 0x305, Values::MultiplesOfFour),
        Register::Lazy(LazyRegister::Mscratch) => ("mscratch", 0x340, Values::All),
        Register::Lazy(LazyRegister::Mepc) => ("mepc", 0x341, Values::MultiplesOfFour),
        Register::Lazy(LazyRegister::Mcause) => ("mcause", 0x342, Values::Causes),
        Register::Lazy(LazyRegister::Mtval) => ("mtval", 0x343, Values::All),
        Register::Mhartid => ("mhartid", 0xf14, Values::Nothing),
    };
    Row {
        name,
        address,
        values,
    }
}

impl Row {
    /// The register's name in lower case.
    pub fn name(&self) -> &'static str
        ensures { result.now ≡ self.now.name }
    {
        self.name
    }

    /// The register's address in CSR instructions.
    pub fn address(&self) -> u16
        ensures { result ≡ self.now.address }
    {
        self.address
    }

    /// The register's key among the places of a hart.
    pub fn key(&self) -> u32
        ensures { result ≡ csr_key self.now.address }
    {
        FIRST_KEY + u32::from(self.address)
    }

    /// Whether the value is legal for the register.
    pub fn allows(&self, value: u32) -> bool
        ensures { result ≡ allows self.now.values value }
    {
        match self.values {
            Values::All => true,
            Values::MultiplesOfFour => value % 4 == 0,
            Values::SubsetsOf(mask) => value & mask == value,
            Values::StatusWithin(mask) => value & mask == value && (value >> 11) & 3 != 2,
            Values::RootTables => value == 0 || (0x8000_0000..0x8010_0000).contains(&value),
            Values::CausesToS => {
                is_cause(value) && value != u32::from(Cause::CallFromM.number())
            }
            Values::Causes => is_cause(value),
            Values::Nothing => false,
        }
    }
}

/// The register at an address; `None` where none is modelled.
pub fn register_at(address: u16) -> Option<Register>
    ensures { result ≡ register_at address }
{
    first_at(&REGISTERS, address)
}

/// The first of the registers that has the address.
fn first_at(registers: &[Register], address: u16) -> Option<Register>
    ensures { result ≡ find (λ register. address_of register == address) registers.now }
{
    registers
        .iter()
        .copied()
        .find(|register| row_of(*register).address() == address)
}

/// Whether the address is that of one of the 15 registers other than mhartid, and the value is legal
/// for it.
pub fn legal(addr: u16, value: u32) -> bool
    ensures { result ≡ is_legal_at addr value }
{
    match register_at(addr) {
        Some(register) => row_of(register).allows(value),
        None => false,
    }
}
