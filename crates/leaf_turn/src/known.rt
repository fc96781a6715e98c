// What is known of a hart of a test is words.
ghost use Rattle.std.specs.Prelude.{◌≡◌, ◌<◌, ◌%◌, ◌^◌, ℕ, true, Some, None, length, slice_index_or};
ghost use Rattle.rv_csr.specs.declared.access.CsrAccess.{CsrAccess as AnAccess};
ghost use Rattle.rv_csr.specs.declared.table.LazyRegister.{LazyRegister as ALazy};
ghost use Rattle.rv_csr.specs.State.{lazy_value};
ghost use Rattle.rv_mem.specs.Ram.{in_ram};
ghost use Rattle.rv_mem.specs.Seen.{known_word};
ghost use Rattle.part_machine.specs.Whole.{fixed_in, hart_of};
ghost use Rattle.part_state.specs.State.{here};
ghost use Rattle.leaf_link.specs.Values.{fixed_value};
ghost use Rattle.leaf_link.specs.Ways.{AreWords};
ghost use Rattle.turn_laws.specs.Given.{known_at};
ghost use Rattle.leaf_turn.specs.Grounds.{AreFixedWords};

use part_laws::partial_test_laws;
use part_state::Part;
use rv_csr::{Csrs, LazyRegister};
use rv_hart::Hart;
use rv_mem::Ram;

/// Reads each register. Its contract says that the known ones have words.
fn registers_are_words(hart: &Hart)
    ensures { (n v : ℕ) → n < 32 → slice_index_or hart.now.regs n None ≡ Some v → v < 2 ^ 32 }
{
    for n in 0..32u8 {
        let _value = hart.register(n);
    }
}

/// Reads each CSR that may be open. Its contract says that the known ones have words.
fn lazies_are_words(csrs: &Csrs)
    ensures { (register : ALazy) (v : ℕ) → lazy_value csrs.now register ≡ Some v → v < 2 ^ 32 }
{
    let _stvec = csrs.lazy(LazyRegister::Stvec);
    let _sscratch = csrs.lazy(LazyRegister::Sscratch);
    let _sepc = csrs.lazy(LazyRegister::Sepc);
    let _scause = csrs.lazy(LazyRegister::Scause);
    let _stval = csrs.lazy(LazyRegister::Stval);
    let _mtvec = csrs.lazy(LazyRegister::Mtvec);
    let _mscratch = csrs.lazy(LazyRegister::Mscratch);
    let _mepc = csrs.lazy(LazyRegister::Mepc);
    let _mcause = csrs.lazy(LazyRegister::Mcause);
    let _mtval = csrs.lazy(LazyRegister::Mtval);
}

/// Reads each other CSR. Its contract says that they have words.
fn fixed_are_words(csrs: &Csrs)
    ensures { AreFixedWords csrs.now }
{
    let _mstatus = csrs.mstatus();
    let _medeleg = csrs.medeleg();
    let _satp = csrs.satp();
    let _hart = csrs.hart();
}

/// Changes nothing. Its contract says that all that is known of a hart of a test and of memory is words, and that its
/// pc is a multiple of 4.
pub fn known_is_words(part: &Part, hart: u8)
    requires { hart < length part.now.now.harts }
    ensures aligned { (hart_of hart (here part.now)).pc % 4 ≡ 0 }
    ensures fixed { (access : AnAccess) → fixed_value (fixed_in (hart_of hart (here part.now)) (here part.now).memory) access < 2 ^ 32 }
    ensures words { AreWords (known_at hart (here part.now)) }
{
    partial_test_laws();
    part.is_test();
    let state = part.hart(hart);
    registers_are_words(state);
    lazies_are_words(&state.csrs);
    fixed_are_words(&state.csrs);
}

/// Where a region of RAM ends.
fn end_of(region: (u32, u32)) -> u32
    ensures { result ≡ region.1 }
{
    region.1
}

/// Looks at each region of RAM. Its contract says that their words have addresses below 2^32.
fn ram_is_near(ram: &Ram)
    ensures { (n : ℕ) → in_ram ram.now n ≡ true → n < 2 ^ 30 }
{
    for region in ram.as_slice() {
        let _end = end_of(*region);
    }
}

/// Changes nothing. Its contract says that each known word of memory has an address below 2^32.
pub fn known_is_near(part: &Part)
    ensures { (n v : ℕ) → known_word ((here part.now).memory n) ≡ Some v → n < 2 ^ 30 }
{
    ram_is_near(part.ram());
}
