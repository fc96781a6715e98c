//! An instruction's access to the registers.

ghost use Rattle.std.specs.Prelude.{◌≡◌, ◌≢◌};
ghost use Rattle.rv_csr.specs.State.{IsLegal};
ghost use Rattle.rv_csr.specs.Access.{access_of, is_denied, is_read_only, read_of, write_of};

use crate::csrs::Csrs;
use crate::privilege::Priv;
use crate::status::Flag;
use crate::table::{Register, register_at, row_of};

/// Whether an instruction has access to a register.
#[derive(Clone, Copy, Debug, PartialEq, Eq)]
pub enum CsrAccess {
    /// It has access to this one.
    Granted(Register),
    /// It is an illegal instruction.
    Denied,
    /// No register is modelled at the address.
    Outside,
}

/// What a read gives.
#[derive(Clone, Copy, Debug, PartialEq, Eq)]
pub enum Got {
    /// The register's value.
    Value(u32),
    /// The access is an illegal instruction.
    Denied,
    /// The register has no value yet.
    Untouched,
    /// No register is modelled at the address.
    Outside,
}

/// What a write did.
#[derive(Clone, Copy, Debug, PartialEq, Eq)]
pub enum Wrote {
    /// The value was kept as written.
    Done,
    /// The access is an illegal instruction.
    Denied,
    /// No register is modelled at the address, or the value is not legal for it.
    Outside,
}

/// Whether any access is illegal in a privilege (Privileged, 2.1 and 3.1.6.5).
fn is_denied(status: u32, register: Register, p: Priv) -> bool
    ensures { result ≡ is_denied status register p }
{
    let lowest = (row_of(register).address() >> 8) & 3;
    let is_satp = matches!(register, Register::Satp);
    p.level() < u32::from(lowest) || (is_satp && matches!(p, Priv::S) && Flag::Tvm.is_set(status))
}

/// Whether the register is never written (Privileged, 2.1).
fn is_read_only(register: Register) -> bool
    ensures { result ≡ is_read_only register }
{
    (row_of(register).address() >> 10) & 3 == 3
}

/// What an access at an address is, where mstatus is `status`.
fn access_of(status: u32, addr: u16, p: Priv, writes: bool) -> CsrAccess
    ensures { result ≡ access_of status addr p writes }
{
    let Some(register) = register_at(addr) else {
        return CsrAccess::Outside;
    };
    if is_denied(status, register, p) || (writes && is_read_only(register)) {
        return CsrAccess::Denied;
    }
    CsrAccess::Granted(register)
}

impl Csrs {
    /// Whether an instruction in a privilege has access to the register at an address, where `writes`
    /// says that it writes it (Privileged, 2.1).
    pub fn access(&self, addr: u16, p: Priv, writes: bool) -> CsrAccess
        ensures { result ≡ access_of self.now.mstatus addr p writes }
    {
        access_of(self.mstatus, addr, p, writes)
    }

    /// What a read at an address gives in a privilege.
    pub fn read(&self, addr: u16, p: Priv) -> Got
        ensures { result ≡ read_of self.now addr p }
    {
        match access_of(self.mstatus, addr, p, false) {
            CsrAccess::Outside => Got::Outside,
            CsrAccess::Denied => Got::Denied,
            CsrAccess::Granted(register) => match self.value_of(register) {
                Some(value) => Got::Value(value),
                None => Got::Untouched,
            },
        }
    }

    /// Writes the register at an address in a privilege.
    pub fn write(&mut self, addr: u16, p: Priv, value: u32) -> Wrote
        ensures answer { result ≡ (write_of self.old addr p value).0 }
        ensures after { self.new ≡ (write_of self.old addr p value).1 }
        ensures refused { result ≢ Wrote.Done → self.new ≡ self.old }
        ensures legal { IsLegal self.new }
    {
        match access_of(self.mstatus, addr, p, true) {
            CsrAccess::Outside => Wrote::Outside,
            CsrAccess::Denied => Wrote::Denied,
            CsrAccess::Granted(register) if row_of(register).allows(value) => {
                self.set(register, value);
                Wrote::Done
            }
            CsrAccess::Granted(_) => Wrote::Outside,
        }
    }
}
