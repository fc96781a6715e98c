// How privileges, roles and places are written.
ghost use Rattle.std.specs.Prelude.{◌≡◌, ◌++◌, ◌==◌, OnOk, find, string_bytes};
ghost use Rattle.rv_csr.specs.Table.{address_of, csr_key};
ghost use Rattle.trace_text.specs.Numbers.{letter, role_name, csr_name, place_name};

use rv_csr::{REGISTERS, Register, row_of};
use rv_hart::{Priv, Role};
use std::alloc::AllocError;
use std::fmt::Write;

pub(crate) fn letter_of(privilege: Priv) -> &'static str
    ensures { result.now ≡ letter privilege }
{
    match privilege {
        Priv::U => "u",
        Priv::S => "s",
        Priv::M => "m",
    }
}

pub(crate) fn role_of(role: Role) -> &'static str
    ensures { result.now ≡ role_name role }
{
    match role {
        Role::Fetch => "fetch",
        Role::Walk => "walk",
        Role::Load => "load",
        Role::Store => "store",
    }
}

/// The first of the registers that has the key.
fn first_with(registers: &[Register], key: u32) -> Option<Register>
    ensures { result ≡ find (λ register. csr_key (address_of register) == key) registers.now }
{
    registers
        .iter()
        .copied()
        .find(|register| row_of(*register).key() == key)
}

/// The name of the CSR with a key.
fn csr_of(key: u32) -> &'static str
    ensures { result.now ≡ csr_name key }
{
    match first_with(&REGISTERS, key) {
        Some(register) => row_of(register).name(),
        None => "",
    }
}

/// Writes the name of a lazy place.
#[tactic(auto, unfolding(crate::specs::Numbers::place_name))]
pub(crate) fn push_place(text: &mut String, key: u32) -> Result<(), AllocError>
    ensures { OnOk result (string_bytes text.new ≡ string_bytes text.old ++ place_name key) }
{
    if key < 32 {
        write!(text, "x{key}")
    } else {
        text.push_str(csr_of(key))
    }
}
