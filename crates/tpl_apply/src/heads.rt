// What statements of the head, and of a hart's start, add to what is known.
ghost use Rattle.std.specs.Prelude.{◌≡◌, ◌<◌, length, ◌∷◌, [], ◌++◌, false, true, Some, OnOk};
ghost use Rattle.std.specs.List.{list_any};
ghost use Rattle.std.specs.Option.{unwrap_or};
ghost use Rattle.tpl_lang.specs.Faults.{is_above, key_of_csr};
ghost use Rattle.tpl_lang.specs.Statements.{all_values, inserted, with_name, values_of};
ghost use Rattle.tpl_lang.specs.Known.{is_declared};
ghost use Rattle.tpl_lang.specs.Sets.{fours, number, resolved};
ghost use Rattle.tpl_lang.specs.Words.{csr_of};
ghost use Rattle.tpl_judge.specs.Internal.Aligns.{is_misaligned};
ghost use Rattle.tpl_state.specs.Internal.State.{known};
ghost use Rattle.tpl_token.specs.Internal.Phrases.{set_view};
ghost use Rattle.tpl_ast.specs.Limits.{most_names};

use dom_set::{OutOfMemory, Set};
use std::alloc::Global;
use tpl_ast::Region;
use tpl_judge::{
    all_values, fours, insert_pair, key_of_csr, number, push_bytes, push_numbers, resolve,
};
use tpl_lang::{Numeral, csr_of};
use tpl_state::State;
use tpl_token::SetText;

/// A region of memory.
pub fn add_region(state: &mut State, low: Numeral, high: Numeral) -> Result<(), OutOfMemory>
    ensures { let k = known state.old in OnOk result (known state.new ≡
        record k { ram = k.ram ++ record { low = number low; high = number high } ∷ [] }) }
{
    state.ram.push(Region {
        low: number(low),
        high: number(high),
    })?;
    Ok(())
}

/// Frames of the pool.
pub fn add_pool(state: &mut State, frames: &[Numeral]) -> Result<(), OutOfMemory>
    ensures { let k = known state.old in OnOk result (known state.new ≡
        record k { pool = k.pool ++ values_of frames.now }) }
{
    push_numbers(&mut state.pool, frames)
}

/// Frames for page tables.
pub fn add_tables(state: &mut State, frames: &[Numeral]) -> Result<(), OutOfMemory>
    ensures { let k = known state.old in OnOk result (known state.new ≡
        record k { tables = k.tables ++ values_of frames.now }) }
{
    push_numbers(&mut state.tables, frames)
}

/// Flag bytes of page table entries.
pub fn add_flags(state: &mut State, flags: &[Numeral]) -> Result<(), OutOfMemory>
    requires { list_any (is_above 255) flags.now ≡ false }
    ensures { let k = known state.old in OnOk result (known state.new ≡
        record k { flags = k.flags ++ values_of flags.now }) }
{
    push_bytes(&mut state.flags, flags)
}

/// The vectors: the multiples of 4 of a set.
pub fn set_vectors(alloc: Global, state: &mut State, set: &SetText<'_>) -> Result<(), OutOfMemory>
    requires { is_misaligned (set_view set.now) ≡ false }
    ensures { let k = known state.old in OnOk result (known state.new ≡
        record k { vectors = Some (fours (resolved k.sets (set_view set.now))) }) }
{
    let set = resolve(alloc, &state.sets, set)?;
    state.vectors = Some(fours(alloc, &set)?);
    Ok(())
}

/// A set with a name.
pub fn add_set(
    alloc: Global,
    state: &mut State,
    name: &[u8],
    set: &SetText<'_>,
) -> Result<(), OutOfMemory>
    requires set { is_misaligned (set_view set.now) ≡ false }
    requires fresh { is_declared (known state.old) name.now ≡ false }
    ensures { let k = known state.old in OnOk result (known state.new ≡
        record k { sets = k.sets ++ (name.now, resolved k.sets (set_view set.now)) ∷ [] }) }
{
    let set = resolve(alloc, &state.sets, set)?;
    let name = Vec::from_slice(alloc, name)?;
    state.sets.push(name, set)
}

/// A name or a label with its values.
fn push_name(
    alloc: Global,
    state: &mut State,
    name: &[u8],
    set: Set,
    label: bool,
) -> Result<(), OutOfMemory>
    requires fresh { is_declared (known state.old) name.now ≡ false }
    requires few { length (known state.old).names < most_names }
    ensures { OnOk result (known state.new ≡ with_name (known state.old) name.now set label) }
{
    let name = Vec::from_slice(alloc, name)?;
    state.names.push(name, set, label)
}

/// A name with its domain.
pub fn add_name(
    alloc: Global,
    state: &mut State,
    name: &[u8],
    set: &SetText<'_>,
) -> Result<(), OutOfMemory>
    requires set { is_misaligned (set_view set.now) ≡ false }
    requires fresh { is_declared (known state.old) name.now ≡ false }
    requires few { length (known state.old).names < most_names }
    ensures { let k = known state.old in OnOk result (known state.new ≡
        with_name k name.now (resolved k.sets (set_view set.now)) false) }
{
    let set = resolve(alloc, &state.sets, set)?;
    push_name(alloc, state, name, set, false)
}

/// A label, which has all values.
pub fn add_label(alloc: Global, state: &mut State, name: &[u8]) -> Result<(), OutOfMemory>
    requires fresh { is_declared (known state.old) name.now ≡ false }
    requires few { length (known state.old).names < most_names }
    ensures { OnOk result (known state.new ≡ with_name (known state.old) name.now all_values true) }
{
    let set = all_values(alloc)?;
    push_name(alloc, state, name, set, true)
}

/// A started word.
pub fn add_word(state: &mut State, address: Numeral, word: Numeral) -> Result<(), OutOfMemory>
    ensures { let k = known state.old in OnOk result (known state.new ≡
        record k { words = inserted (number address) (number word) k.words }) }
{
    insert_pair(&mut state.words, number(address), number(word))
}

/// A CSR of the hart that is open.
pub fn add_csr(state: &mut State, name: &[u8], value: Numeral) -> Result<(), OutOfMemory>
    ensures { let k = known state.old in OnOk result (known state.new ≡
        record k { given = inserted (key_of_csr (csr_of name.now)) (number value) k.given }) }
{
    insert_pair(&mut state.given, key_of_csr(csr_of(name)), number(value))
}

/// A register of the hart that is open.
pub fn add_reg(state: &mut State, register: Option<u32>, value: Numeral) -> Result<(), OutOfMemory>
    ensures { let k = known state.old in OnOk result (known state.new ≡
        record k { given = inserted (unwrap_or register 0) (number value) k.given }) }
{
    insert_pair(&mut state.given, register.unwrap_or(0), number(value))
}
