// Whether a hart's start may be given.
ghost use Rattle.std.specs.Prelude.{◌≡◌, ◌||◌, not};
ghost use Rattle.rv_csr.specs.Table.{is_legal_for};
ghost use Rattle.tpl_lang.specs.Faults.{has_key, is_bad_start, key_of_csr};
ghost use Rattle.tpl_state.specs.Internal.State.{known};
ghost use Rattle.tpl_token.specs.Internal.Phrases.{phrase};

use rv_csr::Register;
use tpl_judge::{has_key, is_legal_for, key_of_csr, number};
use tpl_lang::csr_of;
use tpl_state::State;
use tpl_token::Statement;

/// Whether a CSR was given before, or not this value.
fn is_bad_csr(state: &State, register: Option<Register>, value: u32) -> bool
    ensures { result ≡ (not (is_legal_for register value) || has_key (known state.now).given (key_of_csr register)) }
{
    !is_legal_for(register, value) || has_key(&state.given, key_of_csr(register))
}

/// Whether a statement gives a hart's number, a pc, a CSR or a register that is not allowed.
pub fn is_bad_start(state: &State, statement: &Statement<'_>) -> bool
    ensures { result ≡ is_bad_start (known state.now) (phrase statement.now) }
{
    match statement {
        Statement::Hart(hart) => number(*hart) as usize != state.harts.len(),
        Statement::Start(pc, _) => number(*pc) % 4 != 0,
        Statement::Csr(name, value) => is_bad_csr(state, csr_of(name), number(*value)),
        Statement::Reg(register, _) => has_key(&state.given, register.unwrap_or(0)),
        _ => false,
    }
}
