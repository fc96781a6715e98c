// The registers of a hart's start.
ghost use Rattle.std.specs.Prelude.{◌≡◌};
ghost use Rattle.rv_csr.specs.Table.{is_legal_for};
ghost use Rattle.tpl_lang.specs.Faults.{key_of_csr};

use rv_csr::{Register, row_of};

/// The key of a register among a hart's places.
pub fn key_of_csr(register: Option<Register>) -> u32
    ensures { result ≡ key_of_csr register }
{
    match register {
        None => 0,
        Some(register) => row_of(register).key(),
    }
}

/// Whether the value is legal for the register.
pub fn is_legal_for(register: Option<Register>, value: u32) -> bool
    ensures { result ≡ is_legal_for register value }
{
    match register {
        None => false,
        Some(register) => row_of(register).allows(value),
    }
}
