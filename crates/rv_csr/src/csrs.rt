//! The values of a hart's registers.

ghost use Rattle.std.specs.Prelude.{◌≡◌, ◌<◌, IsTrue, IfSome, Some, true, slice_index_or, slice_set};
ghost use Rattle.rv_csr.specs.declared.table.Register.TheVariants.{Lazy as LazyOne};
ghost use Rattle.rv_csr.specs.Table.{is_legal, is_legal_at};
ghost use Rattle.rv_csr.specs.Status.{effective_privilege, is_set, mpp_of};
ghost use Rattle.rv_csr.specs.State.{AreLegalLazy, IsLegal, first_values, is_untouched, lazy_value, lazy_value_at, slot_of, started, value_of, with_value};

use crate::privilege::Priv;
use crate::status::{self, Flag};
use crate::table::{LazyRegister, Register, SSTATUS, register_at};
use std::marker::Model;

/// The control and status registers of a hart, each of which has a legal value or, if it is a lazy
/// one, none yet. Contracts see them as `CsrValues`.
#[derive(Clone, Copy, Debug, PartialEq, Eq)]
pub struct Csrs {
    pub(crate) mstatus: u32,
    pub(crate) medeleg: u32,
    pub(crate) satp: u32,
    hart: u32,
    pub(crate) lazy: [Option<u32>; 10],
}

impl Model for Csrs {
    ghost use Rattle.rv_csr.specs.State.{AreLegalLazy, CsrValues, IsLegal};

    ghost Value = { CsrValues };

    ghost view = { λ a. record { mstatus = a.mstatus; medeleg = a.medeleg; satp = a.satp; hart = a.hart; lazy = a.lazy } };

    ghost invariant = { λ a. IsLegal (record { mstatus = a.mstatus; medeleg = a.medeleg; satp = a.satp; hart = a.hart; lazy = a.lazy }) };

    ghost inverse = { λ v. record { mstatus = v.mstatus; medeleg = v.medeleg; satp = v.satp; hart = v.hart; lazy = v.lazy } };
}

/// The place of a lazy register in the field `lazy`.
pub(crate) fn slot(register: LazyRegister) -> usize
    ensures value { result ≡ slot_of register }
    ensures within { result < 10 }
{
    match register {
        LazyRegister::Stvec => 0,
        LazyRegister::Sscratch => 1,
        LazyRegister::Sepc => 2,
        LazyRegister::Scause => 3,
        LazyRegister::Stval => 4,
        LazyRegister::Mtvec => 5,
        LazyRegister::Mscratch => 6,
        LazyRegister::Mepc => 7,
        LazyRegister::Mcause => 8,
        LazyRegister::Mtval => 9,
    }
}

/// Gives a lazy register a value.
#[tactic(auto, using(crate::proofs::LegalValues::put_legal))]
pub(crate) fn put(lazy: &mut [Option<u32>; 10], register: LazyRegister, value: u32)
    requires before { AreLegalLazy lazy.old }
    requires legal { is_legal (LazyOne register) value ≡ true }
    ensures after { lazy.new ≡ slice_set lazy.old (slot_of register) (Some value) }
    ensures legal { AreLegalLazy lazy.new }
{
    lazy[slot(register)] = Some(value);
}

impl Csrs {
    /// The registers of a hart with this number, of which no lazy one has a value.
    #[tactic(auto, using(crate::proofs::LegalValues::none_legal))]
    pub fn new(hart: u32, mstatus: u32, medeleg: u32, satp: u32) -> Self
        requires mstatus { IsTrue (is_legal Register.Mstatus mstatus) }
        requires medeleg { IsTrue (is_legal Register.Medeleg medeleg) }
        requires satp { IsTrue (is_legal Register.Satp satp) }
        ensures values { result ≡ first_values hart mstatus medeleg satp }
        ensures legal { IsLegal result }
    {
        Csrs {
            mstatus,
            medeleg,
            satp,
            hart,
            lazy: [None; 10],
        }
    }

    /// Gives the lazy register at an address its first value.
    pub fn start(&mut self, addr: u16, value: u32)
        requires untouched { IsTrue (is_untouched self.old addr) }
        requires legal { IsTrue (is_legal_at addr value) }
        ensures after { self.new ≡ started addr value self.old }
        ensures legal { IsLegal self.new }
    {
        if let Some(Register::Lazy(register)) = register_at(addr) {
            put(&mut self.lazy, register, value);
        }
    }

    /// The value of a register, where it is known.
    pub fn value_of(&self, register: Register) -> Option<u32>
        ensures { result ≡ value_of self.now register }
    {
        match register {
            Register::Sstatus => Some(self.mstatus & SSTATUS),
            Register::Satp => Some(self.satp),
            Register::Mstatus => Some(self.mstatus),
            Register::Medeleg => Some(self.medeleg),
            Register::Mhartid => Some(self.hart),
            Register::Lazy(register) => self.lazy[slot(register)],
        }
    }

    /// Gives a register a legal value, whatever the privilege.
    pub fn set(&mut self, register: Register, value: u32)
        requires { is_legal register value ≡ true }
        ensures after { self.new ≡ with_value register value self.old }
        ensures legal { IsLegal self.new }
    {
        match register {
            Register::Sstatus => self.mstatus = status::with_sstatus(value, self.mstatus),
            Register::Satp => self.satp = value,
            Register::Mstatus => self.mstatus = value,
            Register::Medeleg => self.medeleg = value,
            Register::Mhartid => unreachable!(),
            Register::Lazy(register) => put(&mut self.lazy, register, value),
        }
    }
}

/// The values by name.
impl Csrs {
    pub fn mstatus(&self) -> u32
        ensures { result ≡ self.now.mstatus }
    {
        self.mstatus
    }

    pub fn medeleg(&self) -> u32
        ensures { result ≡ self.now.medeleg }
    {
        self.medeleg
    }

    pub fn satp(&self) -> u32
        ensures { result ≡ self.now.satp }
    {
        self.satp
    }

    /// The hart's number, mhartid.
    pub fn hart(&self) -> u32
        ensures { result ≡ self.now.hart }
    {
        self.hart
    }

    /// Does nothing. Its contract says that each value is legal at all times.
    pub fn legal_values(&self)
        ensures { IsLegal self.now }
    {
        let _ = &self.mstatus;
    }

    /// The value of a lazy register, where it is known.
    pub fn lazy(&self, register: LazyRegister) -> Option<u32>
        ensures value { result ≡ lazy_value self.now register }
        ensures legal { IfSome result (λ n. is_legal (LazyOne register) n ≡ true) }
    {
        self.lazy[slot(register)]
    }

    /// The value of the lazy register at an address, where there is one and it is known.
    pub fn lazy_at(&self, addr: u16) -> Option<u32>
        ensures { result ≡ lazy_value_at self.now addr }
    {
        match register_at(addr) {
            Some(Register::Lazy(register)) => self.lazy(register),
            _ => None,
        }
    }
}

/// The fields of mstatus that steer translation and returns (Privileged, 3.1.6).
impl Csrs {
    /// Whether data accesses have the privilege MPP.
    pub fn mprv(&self) -> bool
        ensures { result ≡ is_set Flag.Mprv self.now.mstatus }
    {
        Flag::Mprv.is_set(self.mstatus)
    }

    /// Whether S may access the pages of U.
    pub fn sum(&self) -> bool
        ensures { result ≡ is_set Flag.Sum self.now.mstatus }
    {
        Flag::Sum.is_set(self.mstatus)
    }

    /// Whether loads may be from executable pages.
    pub fn mxr(&self) -> bool
        ensures { result ≡ is_set Flag.Mxr self.now.mstatus }
    {
        Flag::Mxr.is_set(self.mstatus)
    }

    /// Whether accesses to satp, and SFENCE.VMA, are illegal in S.
    pub fn tvm(&self) -> bool
        ensures { result ≡ is_set Flag.Tvm self.now.mstatus }
    {
        Flag::Tvm.is_set(self.mstatus)
    }

    /// Whether SRET is illegal in S.
    pub fn tsr(&self) -> bool
        ensures { result ≡ is_set Flag.Tsr self.now.mstatus }
    {
        Flag::Tsr.is_set(self.mstatus)
    }

    /// MPP: the privilege that MRET goes to.
    pub fn mpp(&self) -> Priv
        ensures { result ≡ mpp_of self.now.mstatus }
    {
        status::mpp_of(self.mstatus)
    }

    /// The effective privilege of a data access in a privilege.
    pub fn effective_privilege(&self, p: Priv) -> Priv
        ensures { result ≡ effective_privilege self.now.mstatus p }
    {
        status::effective_privilege(self.mstatus, p)
    }
}
