// Whether just the places that are known of a hart are told, with their values.
ghost use Rattle.std.specs.Prelude.{◌≡◌, ◌↔◌, ℕ, ◌≤◌, ◌<◌, IsTrue, true, slice_index_or};
ghost use Rattle.rv_csr.specs.declared.table.Register.{Register as ARegister};
ghost use Rattle.rv_csr.specs.State.{lazy_value_at};
ghost use Rattle.rv_csr.specs.Table.{address_of, csr_key};
ghost use Rattle.tpl_admit.specs.Starts.{lookup};
ghost use Rattle.tpl_ast.specs.States.{ArePlaces};
ghost use Rattle.given_start.specs.Knowledge.{known_of};
ghost use Rattle.replay_check.specs.Internal.Memory.{is_ascending};

use crate::lookup::value_of;
use rv_csr::{REGISTERS, Register, row_of};
use rv_hart::Hart;

/// Whether the registers are as told.
fn are_registers_told(hart: &Hart, told: &[(u32, u32)]) -> bool
    requires { is_ascending 0 told.now ≡ true }
    ensures { IsTrue result ↔ ((key : ℕ) → 1 ≤ key → key < 32 → lookup told.now key ≡ slice_index_or hart.now.regs key None) }
{
    for key in 1..32u8 {
        if value_of(told, u32::from(key)) != hart.register(key) {
            return false;
        }
    }
    true
}

/// Whether a lazy CSR is as told, or nothing is told of another one.
fn is_csr_told(hart: &Hart, told: &[(u32, u32)], register: Register) -> bool
    requires { is_ascending 0 told.now ≡ true }
    ensures { IsTrue result ↔ (lookup told.now (csr_key (address_of register)) ≡ lazy_value_at hart.now.csrs (address_of register)) }
{
    let row = row_of(register);
    value_of(told, row.key()) == hart.csrs.lazy_at(row.address())
}

/// Whether the lazy CSRs are as told, and nothing is told of the others.
fn are_csrs_told(hart: &Hart, told: &[(u32, u32)]) -> bool
    requires { is_ascending 0 told.now ≡ true }
    ensures { IsTrue result ↔ ((register : ARegister) → lookup told.now (csr_key (address_of register)) ≡ lazy_value_at hart.now.csrs (address_of register)) }
{
    for register in REGISTERS {
        if !is_csr_told(hart, told, register) {
            return false;
        }
    }
    true
}

/// Whether just the known places are told, each with its value.
pub fn are_told(hart: &Hart, told: &[(u32, u32)]) -> bool
    requires { ArePlaces 0 told.now }
    ensures { IsTrue result ↔ ((key : ℕ) → lookup told.now key ≡ known_of hart.now key) }
{
    are_registers_told(hart, told) && are_csrs_told(hart, told)
}
