// What a step does to memory.
ghost use Rattle.std.specs.Prelude.{◌≡◌, ◌≢◌, ◌<◌, ◌+◌, ◌/◌, ◌^◌, ℕ, All};
ghost use Rattle.rv_mem.specs.declared.words.Seen.TheVariants.{Known};
ghost use Rattle.rv_script.specs.Memory.{stored_word};
ghost use Rattle.rv_hart.specs.Effects.{IsInWord, seen_accessed, seen_after};

use crate::data::word_of;
use crate::{Mem, Seen};
use rv_script::{Access, Role};

/// Stores the bytes of an access in a word that is known.
fn store<M: Mem>(m: &mut M, x: &Access)
    requires within { IsInWord x.now }
    requires known { (w : ℕ) × (w < 2 ^ 32) × (M.at m.old (x.now.addr / 4) ≡ Known w) }
    ensures word { (w : ℕ) → w < 2 ^ 32 → M.at m.old (x.now.addr / 4) ≡ Known w → M.at m.new (x.now.addr / 4) ≡ Known (stored_word x.now (x.now.addr / 4) w) }
    ensures others { (n : ℕ) → n ≢ x.now.addr / 4 → M.at m.new n ≡ M.at m.old n }
{
    let bytes = x.value.to_le_bytes();
    for i in 0..x.size {
        m.set_byte(x.addr + u32::from(i), bytes[i as usize]);
    }
}

/// Does an access: a store changes the bytes of a word that is known.
fn apply<M: Mem>(m: &mut M, x: &Access)
    requires { IsInWord x.now }
    ensures { (n : ℕ) → M.at m.new n ≡ seen_accessed x.now (M.at m.old) n }
{
    match x.role {
        Role::Fetch | Role::Walk | Role::Load => {}
        Role::Store => {
            if let Seen::Known(_) = word_of(m, x.addr) {
                store(m, x);
            }
        }
    }
}

/// Does accesses, one after another.
pub fn apply_all<M: Mem>(m: &mut M, accesses: &[Access])
    requires { All IsInWord accesses.now }
    ensures { (n : ℕ) → M.at m.new n ≡ seen_after accesses.now (M.at m.old) n }
{
    for x in accesses {
        apply(m, x);
    }
}
