//! The fields of mstatus, and what traps and returns make of them.

ghost use Rattle.std.specs.Prelude.{◌≡◌, ◌<◌, ◌^◌, bit_and};
ghost use Rattle.rv_csr.specs.Status.{IsLegalStatus, bit_of, effective_privilege, flag_bits, is_set, left_to, mpp_of, replaced, spp_of, status_after_mret, status_after_sret, trapped_to_machine, trapped_to_supervisor, with_flag, with_mpp, with_sstatus};

use crate::privilege::Priv;
use crate::table::SSTATUS;

/// A field of mstatus that is one bit (Privileged, 3.1.6).
#[derive(Clone, Copy, Debug, PartialEq, Eq)]
pub enum Flag {
    /// Interrupts are enabled in S.
    Sie,
    /// Interrupts are enabled in M.
    Mie,
    /// What SIE becomes at SRET: it was SIE before the trap to S.
    Spie,
    /// What MIE becomes at MRET: it was MIE before the trap to M.
    Mpie,
    /// SRET goes to S, and not to U.
    Spp,
    /// Data accesses have the privilege MPP.
    Mprv,
    /// S may access the pages of U.
    Sum,
    /// Loads may be from executable pages.
    Mxr,
    /// Accesses to satp, and SFENCE.VMA, are illegal in S.
    Tvm,
    /// SRET is illegal in S.
    Tsr,
}

impl Flag {
    /// The flag's bit in mstatus.
    fn bit(self) -> u32
        ensures value { result ≡ bit_of self }
        ensures narrow { result < 32 }
    {
        match self {
            Flag::Sie => 1,
            Flag::Mie => 3,
            Flag::Spie => 5,
            Flag::Mpie => 7,
            Flag::Spp => 8,
            Flag::Mprv => 17,
            Flag::Sum => 18,
            Flag::Mxr => 19,
            Flag::Tvm => 20,
            Flag::Tsr => 22,
        }
    }

    /// The word with this bit alone.
    fn mask(self) -> u32
        ensures { result ≡ 2 ^ bit_of self }
    {
        match self {
            Flag::Sie => 1 << 1,
            Flag::Mie => 1 << 3,
            Flag::Spie => 1 << 5,
            Flag::Mpie => 1 << 7,
            Flag::Spp => 1 << 8,
            Flag::Mprv => 1 << 17,
            Flag::Sum => 1 << 18,
            Flag::Mxr => 1 << 19,
            Flag::Tvm => 1 << 20,
            Flag::Tsr => 1 << 22,
        }
    }

    /// The flag alone, as on or off.
    fn bits(self, on: bool) -> u32
        ensures { result ≡ flag_bits self on }
    {
        if on { self.mask() } else { 0 }
    }

    pub fn is_set(self, status: u32) -> bool
        ensures { result ≡ is_set self status }
    {
        (status >> self.bit()) & 1 == 1
    }
}

/// MPP: the privilege that MRET goes to.
pub(crate) fn mpp_of(status: u32) -> Priv
    ensures { result ≡ mpp_of status }
{
    Priv::at((status >> 11) & 3)
}

/// What SPP stands for: the privilege that SRET goes to.
pub(crate) fn spp_of(status: u32) -> Priv
    ensures { result ≡ spp_of status }
{
    if Flag::Spp.is_set(status) {
        Priv::S
    } else {
        Priv::U
    }
}

/// The privilege of a data access in a privilege.
pub(crate) fn effective_privilege(status: u32, p: Priv) -> Priv
    ensures { result ≡ effective_privilege status p }
{
    if Flag::Mprv.is_set(status) {
        mpp_of(status)
    } else {
        p
    }
}

/// The bits of the mask replaced.
fn replaced(mask: u32, old: u32, bits: u32) -> u32
    ensures { result ≡ replaced mask old bits }
{
    (old & !mask) | bits
}

#[tactic(auto, using(crate::proofs::LegalStatus::flag_legal))]
fn with_flag(flag: Flag, on: bool, status: u32) -> u32
    requires { IsLegalStatus status }
    ensures value { result ≡ with_flag flag on status }
    ensures legal { IsLegalStatus result }
{
    replaced(flag.mask(), status, flag.bits(on))
}

#[tactic(auto, using(crate::proofs::LegalStatus::mpp_legal))]
fn with_mpp(p: Priv, status: u32) -> u32
    requires { IsLegalStatus status }
    ensures value { result ≡ with_mpp p status }
    ensures legal { IsLegalStatus result }
{
    replaced(0x1800, status, p.level() << 11)
}

/// mstatus after a write of sstatus.
#[tactic(auto, using(crate::proofs::LegalStatus::sstatus_legal))]
pub(crate) fn with_sstatus(value: u32, status: u32) -> u32
    requires legal { IsLegalStatus status }
    requires within { bit_and value SSTATUS ≡ value }
    ensures value { result ≡ with_sstatus value status }
    ensures legal { IsLegalStatus result }
{
    replaced(SSTATUS, status, value)
}

/// mstatus after a trap to M.
pub(crate) fn trapped_to_machine(from: Priv, status: u32) -> u32
    requires { IsLegalStatus status }
    ensures value { result ≡ trapped_to_machine from status }
    ensures legal { IsLegalStatus result }
{
    let saved = with_flag(Flag::Mpie, Flag::Mie.is_set(status), status);
    let cleared = with_flag(Flag::Mie, false, saved);
    with_mpp(from, cleared)
}

/// mstatus after a trap to S.
pub(crate) fn trapped_to_supervisor(from: Priv, status: u32) -> u32
    requires { IsLegalStatus status }
    ensures value { result ≡ trapped_to_supervisor from status }
    ensures legal { IsLegalStatus result }
{
    let saved = with_flag(Flag::Spie, Flag::Sie.is_set(status), status);
    let cleared = with_flag(Flag::Sie, false, saved);
    with_flag(Flag::Spp, matches!(from, Priv::S), cleared)
}

/// mstatus after a return to the privilege.
fn left_to(p: Priv, status: u32) -> u32
    requires { IsLegalStatus status }
    ensures value { result ≡ left_to p status }
    ensures legal { IsLegalStatus result }
{
    match p {
        Priv::M => status,
        Priv::S | Priv::U => with_flag(Flag::Mprv, false, status),
    }
}

/// mstatus after an MRET.
pub(crate) fn after_mret(status: u32) -> u32
    requires { IsLegalStatus status }
    ensures value { result ≡ status_after_mret status }
    ensures legal { IsLegalStatus result }
{
    let enabled = with_flag(Flag::Mie, Flag::Mpie.is_set(status), status);
    let saved = with_flag(Flag::Mpie, true, enabled);
    left_to(mpp_of(status), with_mpp(Priv::U, saved))
}

/// mstatus after an SRET.
pub(crate) fn after_sret(status: u32) -> u32
    requires { IsLegalStatus status }
    ensures value { result ≡ status_after_sret status }
    ensures legal { IsLegalStatus result }
{
    let enabled = with_flag(Flag::Sie, Flag::Spie.is_set(status), status);
    let saved = with_flag(Flag::Spie, true, enabled);
    left_to(spp_of(status), with_flag(Flag::Spp, false, saved))
}
