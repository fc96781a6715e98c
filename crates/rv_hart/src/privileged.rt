// Traps, instructions on control and status registers, and returns from traps.
ghost use Rattle.std.specs.Prelude.{◌≡◌};
ghost use Rattle.rv_script.specs.Folds.{prefixed};
ghost use Rattle.rv_isa.specs.Encoding.{IsInRange};
ghost use Rattle.rv_hart.specs.Privileged.{lazy_address, trap, refused, is_swap, writes_csr, csr_result, write_csr, csr_granted, csr_row, csr_immediate_row, mret_row, sret_row, is_withheld, address_fence_row, call_row};
ghost use Rattle.rv_hart.specs.Changes.{IsSoundWrite};
ghost use Rattle.rv_hart.specs.Sighted.{answer_seen, sighted};
ghost use Rattle.rv_hart.specs.View.{known, fixed_of, looked};
ghost use Rattle.rv_hart.specs.Clauses.{IsSound};

use crate::looked::{Looked, go_to, rd_of, retire};
use crate::seeing::Sighted;
use crate::{Control, Hart};
use rv_csr::{Cause, CsrAccess, Flag, LazyRegister, Priv, Register, row_of, vector_register};
use rv_isa::{Instr, Op};
use rv_script::{Accesses, Place};

/// The place of a lazy register.
fn place_of(register: LazyRegister) -> Place
    ensures { result ≡ Place.Csr (lazy_address register) }
{
    Place::Csr(row_of(Register::Lazy(register)).address())
}

/// A trap.
#[tactic(auto, using(crate::proofs::Prefixes::prefixed_none, crate::proofs::CsrPlaces::own_address), unfolding(crate::specs::Privileged::trap))]
pub fn trap<M: Sighted>(
    h: &Hart,
    m: &M,
    word: u32,
    cause: Cause,
    value: u32,
    log: &Accesses,
) -> Looked
    ensures sound { IsSound h.now.privilege h.now.csrs result }
    ensures answer { looked log.now result ≡ prefixed log.now (answer_seen (sighted (M.sights m.now)) (known h.now (M.at m.now)) (trap (fixed_of h.now (M.at m.now)) word cause value)) }
{
    let number = cause.number();
    match h.csrs.vector(h.privilege, number) {
        (to, None) => Looked::Missing(place_of(vector_register(to))),
        (_, Some(vector)) => {
            let control = Control::Trap {
                cause: number,
                value,
            };
            Looked::Does(go_to(word, None, control, vector))
        }
    }
}

/// An illegal instruction.
pub fn refuse<M: Sighted>(h: &Hart, m: &M, word: u32, log: &Accesses) -> Looked
    ensures sound { IsSound h.now.privilege h.now.csrs result }
    ensures answer { looked log.now result ≡ prefixed log.now (answer_seen (sighted (M.sights m.now)) (known h.now (M.at m.now)) (refused (fixed_of h.now (M.at m.now)) word)) }
{
    trap(h, m, word, Cause::Illegal, word, log)
}

/// ECALL.
pub fn call<M: Sighted>(h: &Hart, m: &M, word: u32, log: &Accesses) -> Looked
    ensures sound { IsSound h.now.privilege h.now.csrs result }
    ensures answer { looked log.now result ≡ prefixed log.now (answer_seen (sighted (M.sights m.now)) (known h.now (M.at m.now)) (call_row (fixed_of h.now (M.at m.now)) word)) }
{
    let cause = match h.privilege {
        Priv::U => Cause::CallFromU,
        Priv::S => Cause::CallFromS,
        Priv::M => Cause::CallFromM,
    };
    trap(h, m, word, cause, 0, log)
}

/// Whether an instruction writes its operand as it is.
fn is_swap(op: Op) -> bool
    ensures { result ≡ is_swap op }
{
    matches!(op, Op::Csrrw | Op::Csrrwi)
}

/// Whether an instruction with this field for its operand writes.
fn writes_csr(op: Op, field: u32) -> bool
    ensures { result ≡ writes_csr op field }
{
    is_swap(op) || field != 0
}

/// What an instruction writes, of the old value and the operand.
fn csr_result(op: Op, old: u32, operand: u32) -> u32
    ensures { result ≡ csr_result op old operand }
{
    match op {
        Op::Csrrw | Op::Csrrwi => operand,
        Op::Csrrs | Op::Csrrsi => old | operand,
        _ => old & !operand,
    }
}

/// A write of a value that is known, which has to be legal.
#[tactic(auto, using(crate::proofs::Prefixes::prefixed_none))]
fn write_csr<M: Sighted>(
    h: &Hart,
    m: &M,
    word: u32,
    rd: Option<(u8, u32)>,
    register: Register,
    value: u32,
    log: &Accesses,
) -> Looked
    requires { IsSoundWrite rd }
    ensures sound { IsSound h.now.privilege h.now.csrs result }
    ensures answer { looked log.now result ≡ prefixed log.now (answer_seen (sighted (M.sights m.now)) (known h.now (M.at m.now)) (write_csr (fixed_of h.now (M.at m.now)) word rd register value)) }
{
    if row_of(register).allows(value) {
        let next_pc = h.pc.wrapping_add(4);
        Looked::Does(go_to(word, rd, Control::Write(register, value), next_pc))
    } else {
        Looked::Outside
    }
}

/// An access to a CSR that is granted, with a known operand.
#[tactic(auto, using(crate::proofs::Prefixes::prefixed_none, crate::proofs::CsrPlaces::old_told), unfolding(crate::specs::Privileged::csr_granted))]
fn granted<M: Sighted>(
    h: &Hart,
    m: &M,
    word: u32,
    i: &Instr,
    writes: bool,
    register: Register,
    operand: u32,
    log: &Accesses,
) -> Looked
    requires { IsInRange i.now }
    ensures sound { IsSound h.now.privilege h.now.csrs result }
    ensures answer { looked log.now result ≡ prefixed log.now (answer_seen (sighted (M.sights m.now)) (known h.now (M.at m.now)) (csr_granted (fixed_of h.now (M.at m.now)) word i.now writes register operand)) }
{
    if is_swap(i.op) && i.rd == 0 {
        return write_csr(h, m, word, None, register, operand, log);
    }
    let Some(old) = h.csrs.value_of(register) else {
        return Looked::Missing(Place::Csr(row_of(register).address()));
    };
    let rd = rd_of(i.rd, old);
    if writes {
        let value = csr_result(i.op, old, operand);
        write_csr(h, m, word, rd, register, value, log)
    } else {
        Looked::Does(retire(h.pc, word, rd))
    }
}

/// CSRRW, CSRRS and CSRRC.
#[tactic(auto, unfolding(crate::specs::Privileged::csr_row))]
pub fn csr_register<M: Sighted>(h: &Hart, m: &M, word: u32, i: &Instr, log: &Accesses) -> Looked
    requires { IsInRange i.now }
    ensures sound { IsSound h.now.privilege h.now.csrs result }
    ensures answer { looked log.now result ≡ prefixed log.now (answer_seen (sighted (M.sights m.now)) (known h.now (M.at m.now)) (csr_row (fixed_of h.now (M.at m.now)) word i.now)) }
{
    let writes = writes_csr(i.op, u32::from(i.rs1));
    match h.csrs.access(i.csr, h.privilege, writes) {
        CsrAccess::Outside => Looked::Outside,
        CsrAccess::Denied => refuse(h, m, word, log),
        CsrAccess::Granted(register) => match h.register(i.rs1) {
            None => Looked::Missing(Place::Reg(i.rs1)),
            Some(a) => granted(h, m, word, i, writes, register, a, log),
        },
    }
}

/// CSRRWI, CSRRSI and CSRRCI.
#[tactic(auto, unfolding(crate::specs::Privileged::csr_immediate_row))]
pub fn csr_immediate<M: Sighted>(h: &Hart, m: &M, word: u32, i: &Instr, log: &Accesses) -> Looked
    requires { IsInRange i.now }
    ensures sound { IsSound h.now.privilege h.now.csrs result }
    ensures answer { looked log.now result ≡ prefixed log.now (answer_seen (sighted (M.sights m.now)) (known h.now (M.at m.now)) (csr_immediate_row (fixed_of h.now (M.at m.now)) word i.now)) }
{
    let writes = writes_csr(i.op, i.imm);
    match h.csrs.access(i.csr, h.privilege, writes) {
        CsrAccess::Outside => Looked::Outside,
        CsrAccess::Denied => refuse(h, m, word, log),
        CsrAccess::Granted(register) => granted(h, m, word, i, writes, register, i.imm, log),
    }
}

/// MRET.
#[tactic(auto, using(crate::proofs::Prefixes::prefixed_none, crate::proofs::CsrPlaces::own_address), unfolding(crate::specs::Privileged::mret_row))]
pub fn return_from_machine<M: Sighted>(h: &Hart, m: &M, word: u32, log: &Accesses) -> Looked
    ensures sound { IsSound h.now.privilege h.now.csrs result }
    ensures answer { looked log.now result ≡ prefixed log.now (answer_seen (sighted (M.sights m.now)) (known h.now (M.at m.now)) (mret_row (fixed_of h.now (M.at m.now)) word)) }
{
    if !matches!(h.privilege, Priv::M) {
        return refuse(h, m, word, log);
    }
    match h.csrs.lazy(LazyRegister::Mepc) {
        None => Looked::Missing(place_of(LazyRegister::Mepc)),
        Some(target) => Looked::Does(go_to(word, None, Control::Mret, target)),
    }
}

/// Whether an instruction for the supervisor is illegal.
fn is_withheld<M: Sighted>(h: &Hart, m: &M, flag: Flag) -> bool
    ensures { result ≡ is_withheld flag (fixed_of h.now (M.at m.now)) }
{
    match h.privilege {
        Priv::U => true,
        Priv::S => flag.is_set(h.csrs.mstatus()),
        Priv::M => false,
    }
}

/// SRET.
#[tactic(auto, using(crate::proofs::Prefixes::prefixed_none, crate::proofs::CsrPlaces::own_address), unfolding(crate::specs::Privileged::sret_row))]
pub fn return_from_supervisor<M: Sighted>(h: &Hart, m: &M, word: u32, log: &Accesses) -> Looked
    ensures sound { IsSound h.now.privilege h.now.csrs result }
    ensures answer { looked log.now result ≡ prefixed log.now (answer_seen (sighted (M.sights m.now)) (known h.now (M.at m.now)) (sret_row (fixed_of h.now (M.at m.now)) word)) }
{
    if is_withheld(h, m, Flag::Tsr) {
        return refuse(h, m, word, log);
    }
    match h.csrs.lazy(LazyRegister::Sepc) {
        None => Looked::Missing(place_of(LazyRegister::Sepc)),
        Some(target) => Looked::Does(go_to(word, None, Control::Sret, target)),
    }
}

/// SFENCE.VMA.
#[tactic(auto, using(crate::proofs::Prefixes::prefixed_none), unfolding(crate::specs::Privileged::address_fence_row))]
pub fn fence_addresses<M: Sighted>(h: &Hart, m: &M, word: u32, log: &Accesses) -> Looked
    ensures sound { IsSound h.now.privilege h.now.csrs result }
    ensures answer { looked log.now result ≡ prefixed log.now (answer_seen (sighted (M.sights m.now)) (known h.now (M.at m.now)) (address_fence_row (fixed_of h.now (M.at m.now)) word)) }
{
    if is_withheld(h, m, Flag::Tvm) {
        refuse(h, m, word, log)
    } else {
        Looked::Does(retire(h.pc, word, None))
    }
}
