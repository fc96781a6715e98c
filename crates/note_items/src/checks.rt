// Tests of items that were read.
ghost use Rattle.std.specs.Prelude.{◌≡◌, ◌<◌, ◌&&◌, ◌==◌, IsTrue};
ghost use Rattle.std.specs.List.{list_any};
ghost use Rattle.rv_csr.specs.Table.{address_of, csr_key};
ghost use Rattle.tpl_ast.specs.States.{is_key, is_legal_place};
ghost use Rattle.note_items.specs.Internal.Checks.{is_lazy, is_access, is_place, are_places, is_fixed, is_state};

use rv_csr::{FIRST_KEY, REGISTERS, Register, legal, row_of};
use rv_script::Access;
use tpl_admit::HartState;

/// Whether the key is that of one of the registers, and this one is lazy.
fn is_lazy_key(registers: &[Register], key: u32) -> bool
    ensures { result ≡ list_any (λ register. is_lazy register && (key == csr_key (address_of register))) registers.now }
{
    registers.iter().any(|register| matches!(register, Register::Lazy(_))
        && key == row_of(*register).key())
}

/// Whether the key is that of a lazy place: of a register but x0, or of a lazy CSR.
#[tactic(auto, using(crate::proofs::Keys::key_below))]
fn is_key(key: u32) -> bool
    ensures value { result ≡ is_key key }
    ensures small { IsTrue result → key < 0x2000 }
{
    (1..32).contains(&key) || is_lazy_key(&REGISTERS, key)
}

/// Whether the value of a place is legal.
fn is_legal_place(place: (u32, u32)) -> bool
    requires { place.0 < 0x2000 }
    ensures { result ≡ is_legal_place place }
{
    place.0 < 32 || legal(place.0.saturating_sub(FIRST_KEY) as u16, place.1)
}

#[tactic(auto, unfolding(crate::specs::Internal::Checks::is_place))]
fn is_place(place: (u32, u32)) -> bool
    ensures { result ≡ is_place place }
{
    is_key(place.0) && is_legal_place(place)
}

/// Whether the places are those of a hart, by ascending key.
fn are_places(places: &[(u32, u32)]) -> bool
    ensures { result ≡ are_places 0 places.now }
{
    let mut low = 0;
    for place in places {
        if u64::from(place.0) < low || !is_place(*place) {
            return false;
        }
        low = u64::from(place.0) + 1;
    }
    true
}

#[tactic(auto, unfolding(crate::specs::Internal::Checks::is_fixed))]
fn is_fixed(s: &HartState) -> bool
    ensures { result ≡ is_fixed s.now }
{
    s.pc % 4 == 0
        && row_of(Register::Mstatus).allows(s.mstatus)
        && row_of(Register::Medeleg).allows(s.medeleg)
        && row_of(Register::Satp).allows(s.satp)
}

#[tactic(auto, unfolding(crate::specs::Internal::Checks::is_state))]
pub fn is_state(s: &HartState) -> bool
    ensures { result ≡ is_state s.now }
{
    is_fixed(s) && are_places(s.places.as_slice())
}

/// Whether the access has one, two or four bytes, and a value that they can hold.
#[tactic(auto, unfolding(crate::specs::Internal::Checks::is_access))]
pub fn is_access(a: Access) -> bool
    ensures { result ≡ is_access a }
{
    match a.size {
        1 => a.value < 256,
        2 => a.value < 65536,
        n => n == 4,
    }
}
