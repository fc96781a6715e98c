// The addresses of the control and status registers for which a word is legal.
ghost use Rattle.std.specs.Prelude.{ℕ, ◌≡◌, ◌==◌, ◌&&◌, ◌||◌, ◌^◌, ◌<◌, IfOk, OnOk};
ghost use Rattle.std.specs.List.{list_any};
ghost use Rattle.dom_set.specs.Elements.{is_in, is_within};
ghost use Rattle.rv_csr.specs.Table.{address_of, is_legal_at};

use dom_set::{OutOfMemory, Set};
use rv_csr::{REGISTERS, Register, legal, place_laws, row_of};
use set_sums::{Span, words_of};
use std::alloc::Global;

/// Adds the address, if the word is legal at it.
fn push_address(ranges: &mut Vec<Span>, address: u16, word: u32) -> Result<(), OutOfMemory>
    ensures { OnOk result ((v : ℕ) → is_within ranges.new.items v ≡ (is_within ranges.old.items v || (address == v && is_legal_at v word))) }
{
    if legal(address, word) {
        ranges.push((u32::from(address), u32::from(address)))?;
    }
    Ok(())
}

/// The addresses of those registers for which the word is legal.
fn addresses_among(
    alloc: Global,
    registers: &[Register],
    word: u32,
) -> Result<Vec<Span>, OutOfMemory>
    ensures { IfOk result (λ ranges. (v : ℕ) → is_within ranges.items v ≡ (list_any (λ register. address_of register == v) registers.now && is_legal_at v word)) }
{
    let mut ranges = Vec::new(alloc);
    for register in registers {
        push_address(&mut ranges, row_of(*register).address(), word)?;
    }
    Ok(ranges)
}

/// The addresses of the control and status registers for which the word is legal: these and no others.
pub fn legal_addresses(alloc: Global, word: u32) -> Result<Set, OutOfMemory>
    ensures { IfOk result (λ set. (v : ℕ) → v < 2 ^ 32 → is_in set v ≡ is_legal_at v word) }
{
    place_laws();
    let ranges = addresses_among(alloc, &REGISTERS, word)?;
    let set = words_of(alloc, &ranges)?;
    Ok(set)
}
