// Which accesses are refused, and what that says of variables.

ghost use Rattle.std.specs.Prelude.{◌≡◌, ℕ, ◌&&◌, nat_eq, IfOk};
ghost use Rattle.std.specs.List.{list_any};
ghost use Rattle.dom_set.specs.Elements.{is_within};
ghost use Rattle.rv_csr.specs.Table.{address_of};
ghost use Rattle.data_goals.specs.Goals.{IsCut};
ghost use Rattle.leaf_csrs.specs.Usages.{is_refused_at, refused_field, refused_test, refuses};

use crate::accesses::{is_swap, refuses};
use crate::numbers::{not_zero, push_one, set_of};
use dom_set::{OutOfMemory, Set};
use fd_prob::Slot;
use leaf_stand::Stand;
use rv_csr::{REGISTERS, Register, row_of};
use rv_isa::Op;
use std::alloc::Global;

/// The addresses of the refused ones of the registers, as ranges.
fn addresses(
    alloc: Global,
    stand: &Stand,
    written: bool,
    registers: &[Register],
) -> Result<Vec<(u32, u32)>, OutOfMemory>
    ensures { IfOk result (λ pairs. (v : ℕ) → is_within pairs.items v ≡ list_any (λ register. nat_eq (address_of register) v && refuses stand.now written register) registers.now) }
{
    let mut pairs = Vec::new(alloc);
    for register in registers {
        let address = u32::from(row_of(*register).address());
        push_one(&mut pairs, address, refuses(stand, written, *register))?;
    }
    Ok(pairs)
}

/// The addresses of registers that are refused.
fn csr_cut(alloc: Global, stand: &Stand, written: bool) -> Result<Option<Set>, OutOfMemory>
    ensures { IfOk result (IsCut (is_refused_at stand.now written)) }
{
    let pairs = addresses(alloc, stand, written, &REGISTERS)?;
    let set = set_of(alloc, &pairs)?;
    Ok(Some(set))
}

/// What is asked of the field of the operand: where a register may only be read, that it is written.
fn field_cut(alloc: Global, op: Op, written: bool) -> Result<Option<Set>, OutOfMemory>
    ensures { IfOk result (IsCut (refused_field op written)) }
{
    if !written || is_swap(op) {
        return Ok(None);
    }
    not_zero(alloc)
}

/// What the refusal of an access says of one variable; `None` where each word passes. At `written` it is refused since it
/// writes what may only be read, and else since the register may not be accessed.
pub fn refused_cut(
    alloc: Global,
    stand: &Stand,
    op: Op,
    written: bool,
    slot: Slot,
) -> Result<Option<Set>, OutOfMemory>
    ensures { IfOk result (IsCut (refused_test stand.now op written slot)) }
{
    match slot {
        Slot::Rs1 => {
            if op.has_rs1() {
                field_cut(alloc, op, written)
            } else {
                Ok(None)
            }
        }
        Slot::Imm => {
            if op.has_rs1() {
                Ok(None)
            } else {
                field_cut(alloc, op, written)
            }
        }
        Slot::Csr => csr_cut(alloc, stand, written),
        _ => Ok(None),
    }
}
