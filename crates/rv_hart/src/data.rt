// The data of loads and stores.
ghost use Rattle.std.specs.Prelude.{◌≡◌, ◌+◌, ◌-◌, ◌/◌, ◌%◌, ◌^◌, ◌<◌, ◌⊎◌};
ghost use Rattle.rv_script.specs.Bytes.{part_of, word_address};
ghost use Rattle.rv_hart.specs.Machine.{size_of, loaded};

use crate::{Seen, Words};
use rv_isa::Op;

/// How many bytes a load reads or a store writes.
pub fn size_of(op: Op) -> u8
    ensures value { result ≡ size_of op }
    ensures sizes { (result ≡ 1) ⊎ ((result ≡ 2) ⊎ (result ≡ 4)) }
{
    match op {
        Op::Lb | Op::Lbu | Op::Sb => 1,
        Op::Lh | Op::Lhu | Op::Sh => 2,
        _ => 4,
    }
}

/// What a load writes of the bytes that it reads.
pub fn extend(op: Op, value: u32) -> u32
    requires { value < 256 ^ size_of op }
    ensures { result ≡ loaded op value }
{
    match op {
        Op::Lb if value >= 0x80 => value + 0xFFFF_FF00,
        Op::Lh if value >= 0x8000 => value + 0xFFFF_0000,
        _ => value,
    }
}

/// The low bytes of a word.
pub fn low_bytes(word: u32, size: u8) -> u32
    requires { (size ≡ 1) ⊎ ((size ≡ 2) ⊎ (size ≡ 4)) }
    ensures { result ≡ word % 256 ^ size }
{
    match size {
        1 => word % 0x100,
        2 => word % 0x1_0000,
        _ => word,
    }
}

/// The bytes of a word from an address on.
#[tactic(auto, using(crate::proofs::Shifts::byte_shift))]
pub fn part(word: u32, addr: u32, size: u8) -> u32
    requires { (size ≡ 1) ⊎ ((size ≡ 2) ⊎ (size ≡ 4)) }
    ensures value { result ≡ part_of addr size word }
    ensures bound { result < 256 ^ size }
{
    low_bytes(word >> (8 * (addr % 4)), size)
}

/// What is seen of the word that holds the byte at an address.
pub fn word_of<M: Words>(m: &M, addr: u32) -> Seen
    ensures number { result ≡ M.at m.now (addr / 4) }
    ensures place { result ≡ M.at m.now (word_address addr / 4) }
{
    m.word(addr - addr % 4)
}
