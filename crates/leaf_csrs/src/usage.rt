// How an instruction may use a register, and what that says of its variables.

ghost use Rattle.std.specs.Prelude.{◌≡◌, ℕ, ◌&&◌, Bool, length, slice_get, IfOk};
ghost use Rattle.dom_set.specs.Elements.{is_within};
ghost use Rattle.rv_isa.specs.Table.{row_of};
ghost use Rattle.rv_csr.specs.Table.{address_of};
ghost use Rattle.rv_script.specs.declared.place.Place.TheVariants.{Reg};
ghost use Rattle.leaf_link.specs.Cases.{is_some_word};
ghost use Rattle.leaf_link.specs.Controls.{is_read_old};
ghost use Rattle.leaf_link.specs.Turns.{is_narrow, is_small};
ghost use Rattle.data_goals.specs.Goals.{IsCut};
ghost use Rattle.data_bytes.specs.Sets.{IsSetOf};
ghost use Rattle.leaf_stand.specs.Stands.{held, turn_of};
ghost use Rattle.leaf_csrs.specs.Usages.{field_test, old_test, rd_test, source_test, usage_test, usages, usages_of};

use crate::accesses::{is_swap, refuses};
use crate::numbers::{not_zero, one, push_one, set_of};
use dom_set::{OutOfMemory, Set};
use fd_prob::Slot;
use leaf_stand::Stand;
use rv_csr::{LazyRegister, Register, row_of};
use rv_isa::Op;
use std::alloc::Global;

/// How an instruction uses a register that it has access to.
#[derive(Clone, Copy)]
pub enum Usage {
    /// It writes the CSR and doesn't read it.
    Replaces,
    /// It reads the CSR and always writes it.
    Swaps,
    /// It reads the CSR, and writes it where its operand's field is not 0.
    Changes,
    /// It reads the CSR and doesn't write it.
    Looks,
}

static OVERWRITES: [Usage; 2] = [Usage::Replaces, Usage::Swaps];

static CHANGES: [Usage; 1] = [Usage::Changes];

static LOOKS: [Usage; 1] = [Usage::Looks];

/// The usages of a register that may only be read, or may be written, by an operation that always writes, or not always.
fn usages(swaps: bool, read_only: bool) -> &'static [Usage]
    ensures { result.now ≡ usages swaps read_only }
{
    match (swaps, read_only) {
        (true, true) => &[],
        (true, false) => &OVERWRITES,
        (false, true) => &LOOKS,
        (false, false) => &CHANGES,
    }
}

/// How an operation may use a register: in no way where each access to it is refused.
pub fn usages_of(stand: &Stand, op: Op, register: Register) -> &'static [Usage]
    ensures { result.now ≡ usages_of stand.now op register }
{
    if refuses(stand, false, register) {
        return &[];
    }
    usages(is_swap(op), refuses(stand, true, register))
}

/// What a usage says of rd.
fn rd_cut(alloc: Global, usage: Usage) -> Result<Option<Set>, OutOfMemory>
    ensures { IfOk result (IsCut (rd_test usage)) }
{
    match usage {
        Usage::Replaces => one(alloc, 0),
        Usage::Swaps => not_zero(alloc),
        Usage::Changes | Usage::Looks => Ok(None),
    }
}

/// What a usage says of the field of the operand.
fn field_cut(alloc: Global, usage: Usage) -> Result<Option<Set>, OutOfMemory>
    ensures { IfOk result (IsCut (field_test usage)) }
{
    match usage {
        Usage::Looks => one(alloc, 0),
        Usage::Replaces | Usage::Swaps | Usage::Changes => Ok(None),
    }
}

/// The values that a register may have when it is read.
fn read_cut(alloc: Global, stand: &Stand, register: Register) -> Result<Option<Set>, OutOfMemory>
    ensures { IfOk result (IsCut (is_read_old (turn_of stand.now) register)) }
{
    match register {
        Register::Lazy(lazy) => {
            let set = stand.old_values(alloc, lazy)?;
            Ok(Some(set))
        }
        _ => one(alloc, stand.csrs.value_of(register).unwrap_or(0)),
    }
}

/// What a usage says of the old value.
fn old_cut(
    alloc: Global,
    stand: &Stand,
    register: Register,
    usage: Usage,
) -> Result<Option<Set>, OutOfMemory>
    ensures { IfOk result (IsCut (old_test stand.now register usage)) }
{
    match usage {
        Usage::Replaces => one(alloc, 0),
        Usage::Swaps => read_cut(alloc, stand, register),
        Usage::Changes => read_cut(alloc, stand, register),
        Usage::Looks => read_cut(alloc, stand, register),
    }
}

/// Whether the register has few legal values.
fn has_few_values(register: Register) -> bool
    ensures { result ≡ is_narrow (row_of Op.Csrrw) (address_of register) }
{
    match register {
        Register::Mstatus | Register::Sstatus | Register::Medeleg | Register::Satp => true,
        Register::Lazy(LazyRegister::Mcause) | Register::Lazy(LazyRegister::Scause) => true,
        _ => false,
    }
}

/// Whether the operation writes a register that has few legal values from a source register.
fn is_narrow(op: Op, register: Register) -> bool
    ensures { result ≡ is_narrow (row_of op) (address_of register) }
{
    match op {
        Op::Csrrw | Op::Csrrs | Op::Csrrc => has_few_values(register),
        _ => false,
    }
}

/// The numbers of the registers that are known, as ranges.
fn known_numbers(alloc: Global, registers: &[Option<u32>]) -> Result<Vec<(u32, u32)>, OutOfMemory>
    requires { length registers.now ≡ 32 }
    ensures { IfOk result (λ pairs. (v : ℕ) → is_within pairs.items v ≡ is_some_word (held (slice_get registers.now v))) }
{
    let mut pairs = Vec::new(alloc);
    for number in 0..32 {
        push_one(&mut pairs, number, registers[number as usize].is_some())?;
    }
    Ok(pairs)
}

/// The numbers of the registers that are known.
fn known_registers(alloc: Global, stand: &Stand) -> Result<Set, OutOfMemory>
    ensures { IfOk result (IsSetOf (λ n. is_some_word ((turn_of stand.now).known (Reg n)))) }
{
    let pairs = known_numbers(alloc, &stand.registers)?;
    set_of(alloc, &pairs)
}

/// What is asked of the source register.
fn source_cut(
    alloc: Global,
    stand: &Stand,
    op: Op,
    register: Register,
    few_sources: bool,
) -> Result<Option<Set>, OutOfMemory>
    requires few { few_sources ≡ is_small (turn_of stand.now).sources }
    ensures { IfOk result (IsCut (source_test stand.now op register)) }
{
    if few_sources || !is_narrow(op, register) {
        return Ok(None);
    }
    let set = known_registers(alloc, stand)?;
    Ok(Some(set))
}

/// The words that both let through.
fn both(alloc: Global, first: Option<Set>, second: Option<Set>) -> Result<Option<Set>, OutOfMemory>
    ensures { (p q : ℕ → Bool) → IsCut p first → IsCut q second → IfOk result (IsCut (λ v. p v && q v)) }
{
    let Some(set) = first else {
        return Ok(second);
    };
    let Some(other) = second else {
        return Ok(Some(set));
    };
    let left = set.and(alloc, &other)?;
    Ok(Some(left))
}

/// What a usage says of the field of the source register.
fn first_cut(
    alloc: Global,
    stand: &Stand,
    op: Op,
    register: Register,
    usage: Usage,
    few_sources: bool,
) -> Result<Option<Set>, OutOfMemory>
    requires few { few_sources ≡ is_small (turn_of stand.now).sources }
    ensures { IfOk result (IsCut (λ v. field_test usage v && source_test stand.now op register v)) }
{
    let field = field_cut(alloc, usage)?;
    let source = source_cut(alloc, stand, op, register, few_sources)?;
    both(alloc, field, source)
}

/// What a usage of a register says of one variable; `None` where each word passes. `few_sources` says that the atoms
/// leave few values of a.
pub fn usage_cut(
    alloc: Global,
    stand: &Stand,
    op: Op,
    register: Register,
    usage: Usage,
    slot: Slot,
    few_sources: bool,
) -> Result<Option<Set>, OutOfMemory>
    requires few { few_sources ≡ is_small (turn_of stand.now).sources }
    ensures { IfOk result (IsCut (usage_test stand.now op register usage slot)) }
{
    match slot {
        Slot::Rs1 => {
            if op.has_rs1() {
                first_cut(alloc, stand, op, register, usage, few_sources)
            } else {
                Ok(None)
            }
        }
        Slot::Imm => {
            if op.has_rs1() {
                Ok(None)
            } else {
                field_cut(alloc, usage)
            }
        }
        Slot::Rd => rd_cut(alloc, usage),
        Slot::Csr => one(alloc, u32::from(row_of(register).address())),
        Slot::OldCsr => old_cut(alloc, stand, register, usage),
        _ => Ok(None),
    }
}
