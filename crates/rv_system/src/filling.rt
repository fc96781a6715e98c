// A hart of which all is known.
ghost use Rattle.std.specs.Prelude.{◌≡◌, ◌≤◌, ◌<◌, ℕ, true, false, ◌&&◌, nat_eq, nat_le, nat_lt, if◌then◌else◌, List, length, Some};
ghost use Rattle.std.specs.List.{list_all, list_any};
ghost use Rattle.std.specs.Option.{unwrap_or};
ghost use Rattle.tpl_ast.specs.declared.template.Region.{Region as ARegion};
ghost use Rattle.tpl_ast.specs.States.{is_key, is_legal_place, IsState};
ghost use Rattle.given_start.specs.Knowledge.{known_of, fixed_now};
ghost use Rattle.rv_system.specs.Internal.Starting.{IsFilledHart};

use given_start::hart_in;
use rv_csr::FIRST_KEY;
use rv_hart::Hart;
use tpl_admit::HartState;

/// The keys of the lazy CSRs.
const CSR_KEYS: [u32; 10] = [
    0x1105, 0x1140, 0x1141, 0x1142, 0x1143, 0x1305, 0x1340, 0x1341, 0x1342, 0x1343,
];

/// Gives a register a value, unless it has one.
fn fill_register(hart: &mut Hart, key: u32, value: u32)
    requires some { 1 ≤ key }
    requires small { key < 32 }
    ensures known { (k : ℕ) → known_of hart.new k ≡ (if nat_eq key k then Some (unwrap_or (known_of hart.old key) value) else known_of hart.old k) }
    ensures fixed { (ram : List ARegion) → fixed_now ram hart.new ≡ fixed_now ram hart.old }
{
    if hart.register(key as u8).is_none() {
        hart.regs[key as usize] = Some(value);
    }
}

/// Gives the lazy CSR of a key a legal value, unless it has one.
fn fill_csr(hart: &mut Hart, key: u32, value: u32)
    requires large { 32 ≤ key }
    requires key { is_key key ≡ true }
    requires legal { is_legal_place (key, value) ≡ true }
    ensures known { (k : ℕ) → known_of hart.new k ≡ (if nat_eq key k then Some (unwrap_or (known_of hart.old key) value) else known_of hart.old k) }
    ensures fixed { (ram : List ARegion) → fixed_now ram hart.new ≡ fixed_now ram hart.old }
{
    let addr = (key - FIRST_KEY) as u16;
    if hart.csrs.lazy_at(addr).is_none() {
        hart.csrs.start(addr, value);
    }
}

/// Gives each register a value that has none.
fn fill_registers(hart: &mut Hart, value: u32)
    ensures known { (k : ℕ) → known_of hart.new k ≡ (if nat_le 1 k && nat_lt k 32 then Some (unwrap_or (known_of hart.old k) value) else known_of hart.old k) }
    ensures fixed { (ram : List ARegion) → fixed_now ram hart.new ≡ fixed_now ram hart.old }
{
    for key in 1..32 {
        fill_register(hart, key, value);
    }
}

/// Gives each lazy CSR of these keys a legal value that has none.
fn fill_csrs(hart: &mut Hart, keys: &[u32], value: u32)
    requires keys { list_all (λ key. nat_le 32 key && (is_key key && is_legal_place (key, value))) keys.now ≡ true }
    ensures known { (k : ℕ) → known_of hart.new k ≡ (if list_any (λ key. nat_eq k key) keys.now then Some (unwrap_or (known_of hart.old k) value) else known_of hart.old k) }
    ensures fixed { (ram : List ARegion) → fixed_now ram hart.new ≡ fixed_now ram hart.old }
{
    for key in keys {
        fill_csr(hart, *key, value);
    }
}

/// Gives each register a value that has none, and each lazy CSR zero.
fn fill_rest(hart: &mut Hart, fill: u32)
    ensures registers { (k : ℕ) → (nat_le 1 k && nat_lt k 32) ≡ true → known_of hart.new k ≡ Some (unwrap_or (known_of hart.old k) fill) }
    ensures csrs { (k : ℕ) → 32 ≤ k → is_key k ≡ true → known_of hart.new k ≡ Some (unwrap_or (known_of hart.old k) 0) }
    ensures others { (k : ℕ) → is_key k ≡ false → known_of hart.new k ≡ known_of hart.old k }
    ensures fixed { (ram : List ARegion) → fixed_now ram hart.new ≡ fixed_now ram hart.old }
{
    fill_registers(hart, fill);
    fill_csrs(hart, &CSR_KEYS, 0);
}

/// Does nothing. Its contract says how many registers a hart has.
fn count_registers(hart: &Hart)
    ensures { length hart.now.regs ≡ 32 }
{
    let _: &[Option<u32>] = &hart.regs;
}

/// A hart with this number and the places of a state, the fill in each other register and zero in each other lazy CSR.
pub fn filled_hart(state: &HartState, number: u32, fill: u32) -> Hart
    requires { IsState state.now }
    ensures { IsFilledHart state.now number fill result }
{
    let mut hart = hart_in(state, number);
    fill_rest(&mut hart, fill);
    count_registers(&hart);
    hart
}
