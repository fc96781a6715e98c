// A hart as a certificate's start gives it.
ghost use Rattle.std.specs.Prelude.{◌≡◌, ℕ, true, nat_eq, if◌then◌else◌, List};
ghost use Rattle.std.specs.List.{AllByRecursion};
ghost use Rattle.tpl_ast.specs.declared.template.Region.{Region as ARegion};
ghost use Rattle.tpl_admit.specs.Starts.{fixed_in, lookup};
ghost use Rattle.tpl_ast.specs.States.{is_key, ArePlaces, is_legal_place, IsState};
ghost use Rattle.given_start.specs.Knowledge.{known_of, fixed_now};

use rv_csr::{Csrs, FIRST_KEY};
use rv_hart::Hart;
use tpl_admit::HartState;

/// Gives the place of a key its first value.
fn give(hart: &mut Hart, key: u32, value: u32)
    requires key { is_key key ≡ true }
    requires legal { is_legal_place (key, value) ≡ true }
    requires untouched { known_of hart.old key ≡ None }
    ensures known { (k : ℕ) → known_of hart.new k ≡ (if nat_eq key k then Some value else known_of hart.old k) }
    ensures fixed { (ram : List ARegion) → fixed_now ram hart.new ≡ fixed_now ram hart.old }
{
    if key < 32 {
        hart.regs[key as usize] = Some(value);
    } else {
        hart.csrs.start((key - FIRST_KEY) as u16, value);
    }
}

/// Gives the places of keys their values.
fn give_all(hart: &mut Hart, places: &[(u32, u32)])
    requires places { ArePlaces 0 places.now }
    requires legal { AllByRecursion (λ e. is_legal_place e ≡ true) places.now }
    requires none { (key : ℕ) → known_of hart.old key ≡ None }
    ensures known { (key : ℕ) → known_of hart.new key ≡ lookup places.now key }
    ensures fixed { (ram : List ARegion) → fixed_now ram hart.new ≡ fixed_now ram hart.old }
{
    for place in places {
        give(hart, place.0, place.1);
    }
}

/// A hart with this number and the fixed parts of a state, of which no place is known.
fn bare_hart(state: &HartState, number: u32) -> Hart
    requires { IsState state.now }
    ensures known { (key : ℕ) → known_of result key ≡ None }
    ensures fixed { (ram : List ARegion) → fixed_now ram result ≡ fixed_in ram number state.now }
{
    let csrs = Csrs::new(number, state.mstatus, state.medeleg, state.satp);
    Hart::new(state.pc, state.privilege, csrs)
}

/// A hart with this number of which just a state is known.
pub fn hart_in(state: &HartState, number: u32) -> Hart
    requires { IsState state.now }
    ensures known { (key : ℕ) → known_of result key ≡ lookup state.now.places key }
    ensures fixed { (ram : List ARegion) → fixed_now ram result ≡ fixed_in ram number state.now }
{
    let mut hart = bare_hart(state, number);
    give_all(&mut hart, state.places.as_slice());
    hart
}
