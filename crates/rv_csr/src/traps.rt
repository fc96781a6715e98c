//! Traps and the returns from them.

ghost use Rattle.std.specs.Prelude.{◌≡◌, ◌%◌, IsTrue, IsSome, IfSome, Some, true};
ghost use Rattle.rv_csr.specs.declared.table.Register.TheVariants.{Lazy as LazyOne};
ghost use Rattle.rv_csr.specs.Causes.{is_cause};
ghost use Rattle.rv_csr.specs.Table.{is_legal};
ghost use Rattle.rv_csr.specs.Status.{mpp_of, spp_of};
ghost use Rattle.rv_csr.specs.State.{IsLegal, lazy_value};
ghost use Rattle.rv_csr.specs.Traps.{after_mret, after_sret, takes_trap, trapped, trapped_to, vector_register};

use crate::csrs::{Csrs, put, slot};
use crate::privilege::Priv;
use crate::status;
use crate::table::LazyRegister;

/// The privilege that takes a trap, by medeleg.
#[tactic(auto, using(crate::proofs::LegalValues::cause_narrow))]
fn takes_trap(medeleg: u32, from: Priv, cause: u8) -> Priv
    requires { IsTrue (is_cause cause) }
    ensures { result ≡ takes_trap medeleg from cause }
{
    let delegated = (medeleg >> cause) & 1 == 1;
    match from {
        Priv::M => Priv::M,
        Priv::S | Priv::U if delegated => Priv::S,
        Priv::S | Priv::U => Priv::M,
    }
}

/// The register with the address where traps to a privilege go (Privileged, 3.1.7 and 4.1.2).
pub fn vector_register(to: Priv) -> LazyRegister
    ensures { result ≡ vector_register to }
{
    match to {
        Priv::S => LazyRegister::Stvec,
        Priv::M | Priv::U => LazyRegister::Mtvec,
    }
}

impl Csrs {
    /// The privilege that takes a trap, and its vector, where that is known (Privileged, 3.1.8).
    pub fn vector(&self, from: Priv, cause: u8) -> (Priv, Option<u32>)
        requires { IsTrue (is_cause cause) }
        ensures privilege { result.0 ≡ takes_trap self.now.medeleg from cause }
        ensures vector { result.1 ≡ lazy_value self.now (vector_register result.0) }
        ensures aligned { IfSome result.1 (λ n. n % 4 ≡ 0) }
    {
        let to = takes_trap(self.medeleg, from, cause);
        (to, self.lazy(vector_register(to)))
    }

    /// Takes a trap at an instruction: the privilege and the pc after it. `value` is the trap value.
    #[tactic(auto, using(crate::proofs::LegalValues::delegated_legal))]
    pub fn enter_trap(&mut self, from: Priv, cause: u8, pc: u32, value: u32) -> (Priv, u32)
        requires cause { IsTrue (is_cause cause) }
        requires pc { pc % 4 ≡ 0 }
        requires vector { IsSome (lazy_value self.old (vector_register (takes_trap self.old.medeleg from cause))) }
        ensures privilege { result.0 ≡ takes_trap self.old.medeleg from cause }
        ensures pc { Some result.1 ≡ lazy_value self.old (vector_register result.0) }
        ensures aligned { result.1 % 4 ≡ 0 }
        ensures after { self.new ≡ trapped self.old from cause pc value }
        ensures legal { IsLegal self.new }
    {
        let to = takes_trap(self.medeleg, from, cause);
        let vector = self.known(vector_register(to));
        match to {
            Priv::S => self.trap_to_supervisor(from, cause, pc, value),
            Priv::M | Priv::U => self.trap_to_machine(from, cause, pc, value),
        }
        (to, vector)
    }

    /// The value of a lazy register that has one.
    #[tactic(auto, using(crate::proofs::LegalValues::known_legal))]
    fn known(&self, register: LazyRegister) -> u32
        requires { IsSome (lazy_value self.now register) }
        ensures value { Some result ≡ lazy_value self.now register }
        ensures legal { is_legal (LazyOne register) result ≡ true }
    {
        self.lazy[slot(register)].unwrap()
    }

    fn trap_to_supervisor(&mut self, from: Priv, cause: u8, pc: u32, value: u32)
        requires cause { is_legal (LazyOne LazyRegister.Scause) cause ≡ true }
        requires pc { pc % 4 ≡ 0 }
        ensures after { self.new ≡ trapped_to Priv.S self.old from cause pc value }
        ensures legal { IsLegal self.new }
    {
        self.mstatus = status::trapped_to_supervisor(from, self.mstatus);
        put(&mut self.lazy, LazyRegister::Stval, value);
        put(&mut self.lazy, LazyRegister::Scause, u32::from(cause));
        put(&mut self.lazy, LazyRegister::Sepc, pc);
    }

    fn trap_to_machine(&mut self, from: Priv, cause: u8, pc: u32, value: u32)
        requires cause { IsTrue (is_cause cause) }
        requires pc { pc % 4 ≡ 0 }
        ensures after { self.new ≡ trapped_to Priv.M self.old from cause pc value }
        ensures legal { IsLegal self.new }
    {
        self.mstatus = status::trapped_to_machine(from, self.mstatus);
        put(&mut self.lazy, LazyRegister::Mtval, value);
        put(&mut self.lazy, LazyRegister::Mcause, u32::from(cause));
        put(&mut self.lazy, LazyRegister::Mepc, pc);
    }

    /// Returns from a trap to M: the privilege and the pc after it (Privileged, 3.3.2).
    pub fn mret(&mut self) -> (Priv, u32)
        requires { IsSome (lazy_value self.old LazyRegister.Mepc) }
        ensures privilege { result.0 ≡ mpp_of self.old.mstatus }
        ensures pc { Some result.1 ≡ lazy_value self.old LazyRegister.Mepc }
        ensures aligned { result.1 % 4 ≡ 0 }
        ensures after { self.new ≡ after_mret self.old }
        ensures legal { IsLegal self.new }
    {
        let to = self.mpp();
        let pc = self.known(LazyRegister::Mepc);
        self.mstatus = status::after_mret(self.mstatus);
        (to, pc)
    }

    /// Returns from a trap to S: the privilege and the pc after it (Privileged, 3.3.2).
    pub fn sret(&mut self) -> (Priv, u32)
        requires { IsSome (lazy_value self.old LazyRegister.Sepc) }
        ensures privilege { result.0 ≡ spp_of self.old.mstatus }
        ensures pc { Some result.1 ≡ lazy_value self.old LazyRegister.Sepc }
        ensures aligned { result.1 % 4 ≡ 0 }
        ensures after { self.new ≡ after_sret self.old }
        ensures legal { IsLegal self.new }
    {
        let to = status::spp_of(self.mstatus);
        let pc = self.known(LazyRegister::Sepc);
        self.mstatus = status::after_sret(self.mstatus);
        (to, pc)
    }
}
