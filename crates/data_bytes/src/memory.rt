// The bytes of memory for loads and stores.
ghost use Rattle.std.specs.Prelude.{◌≡◌, ℕ, ◌/◌, ◌%◌, ◌^◌, ◌<◌, not, ◌&&◌, ◌||◌, nat_eq, IfOk, IsTrue};
ghost use Rattle.dom_set.specs.Elements.{is_in, is_within};
ghost use Rattle.rv_script.specs.declared.access.Role.{Role};
ghost use Rattle.foot_map.specs.Races.{is_blocked};
ghost use Rattle.rv_mem.specs.Part.{part_at};
ghost use Rattle.rv_mem.specs.Seen.{is_known, is_there, is_untouched};
ghost use Rattle.data_bytes.specs.Sets.{IsSetOf};
ghost use Rattle.rv_mem.specs.Frames.{in_frames};
ghost use Rattle.data_bytes.specs.Frames.{AreFrames};
ghost use Rattle.data_bytes.specs.Bytes.{AreDataBytes};

use crate::barred::barred;
use crate::error::OutOfMemory;
use crate::frames::{frame_bytes, frames_of};
use dom_set::Set;
use foot_map::FootMap;
use rv_mem::PartMem;
use rv_script::Role;
use std::alloc::Global;

/// What a load or store of a hart may do with the bytes of memory, where no address is translated.
#[derive(Drop)]
pub struct DataBytes {
    /// The bytes of known words.
    pub known: Set,
    /// The bytes of the pool's words that have no value yet, but those of the word at the pc.
    pub fresh: Set,
    /// The bytes outside of RAM.
    pub outside: Set,
    /// Of the known and fresh bytes just those that a load may not touch; perhaps others.
    pub not_loaded: Set,
    /// Of the known and fresh bytes just those that a store may not touch; perhaps others.
    pub not_stored: Set,
}

/// The bytes of memory by what is seen of their words.
#[derive(Drop)]
struct SeenBytes {
    known: Set,
    fresh: Set,
    outside: Set,
}

/// The bytes that loads and stores may not touch.
#[derive(Drop)]
struct BarredBytes {
    loads: Set,
    stores: Set,
}

/// The bytes of the word at an address, a multiple of 4.
fn word_bytes(alloc: Global, addr: u32) -> Result<Set, OutOfMemory>
    requires { addr % 4 ≡ 0 }
    ensures { IfOk result (IsSetOf (λ v. nat_eq (v / 4) (addr / 4))) }
{
    Ok(Set::from_ranges(alloc, &[(addr, addr + 3)], 1)?)
}

/// The bytes of RAM that are not known and lie in the pool, but those of the word at a pc.
fn fresh(alloc: Global, ram: &Set, known: &Set, pool: &[u32], pc: u32) -> Result<Set, OutOfMemory>
    requires pool { AreFrames pool.now }
    requires pc { pc % 4 ≡ 0 }
    ensures { IfOk result (IsSetOf (λ v.
        (is_in ram.now v && not (is_in known.now v)) && (in_frames pool.now v && not (nat_eq (v / 4) (pc / 4))))) }
{
    let untouched = ram.minus(alloc, known)?;
    let bytes = frame_bytes(alloc, pool)?.minus(alloc, &word_bytes(alloc, pc)?)?;
    Ok(untouched.and(alloc, &bytes)?)
}

/// The bytes of RAM.
fn ram_bytes(alloc: Global, mem: &PartMem) -> Result<Set, OutOfMemory>
    ensures { IfOk result (IsSetOf (λ v. is_there (part_at mem.now (v / 4)))) }
{
    let runs = mem.ram_runs(alloc)?;
    Ok(Set::from_ranges(alloc, &runs, 1)?)
}

/// What is outside of a set of bytes.
fn outside_of(alloc: Global, bytes: &Set) -> Result<Set, OutOfMemory>
    ensures { IfOk result (IsSetOf (λ v. not (is_in bytes.now v))) }
{
    let all = Set::all(alloc)?;
    Ok(all.minus(alloc, bytes)?)
}

/// The bytes of memory by what is seen of their words, where the known ones are those of the runs.
fn seen_bytes(
    alloc: Global,
    mem: &PartMem,
    runs: &[(u32, u32)],
    pool: &[u32],
    pc: u32,
) -> Result<SeenBytes, OutOfMemory>
    requires runs { (v : ℕ) → v < 2 ^ 32 → is_within runs.now v ≡ is_known (part_at mem.now (v / 4)) }
    requires pool { AreFrames pool.now }
    requires pc { pc % 4 ≡ 0 }
    ensures known { IfOk result (λ b. IsSetOf (λ v. is_known (part_at mem.now (v / 4))) b.known) }
    ensures fresh { IfOk result (λ b. IsSetOf
        (λ v. is_untouched (part_at mem.now (v / 4)) && (in_frames pool.now v && not (nat_eq (v / 4) (pc / 4)))) b.fresh) }
    ensures outside { IfOk result (λ b. IsSetOf (λ v. not (is_there (part_at mem.now (v / 4)))) b.outside) }
{
    let known = Set::from_ranges(alloc, runs, 1)?;
    let ram = ram_bytes(alloc, mem)?;
    let fresh = fresh(alloc, &ram, &known, pool, pc)?;
    let outside = outside_of(alloc, &ram)?;
    Ok(SeenBytes {
        known,
        fresh,
        outside,
    })
}

/// The bytes of frames that loads and stores of a hart which stands at a pc may not touch.
fn barred_bytes(
    alloc: Global,
    feet: &FootMap,
    hart: u8,
    frames: &[u32],
    pc: u32,
) -> Result<BarredBytes, OutOfMemory>
    requires frames { AreFrames frames.now }
    requires pc { pc % 4 ≡ 0 }
    ensures loads { IfOk result (λ b. IsSetOf (λ v. in_frames frames.now v && is_blocked feet.now hart Role.Load v) b.loads) }
    ensures stores { IfOk result (λ b. IsSetOf
        (λ v. (in_frames frames.now v && is_blocked feet.now hart Role.Store v) || nat_eq (v / 4) (pc / 4)) b.stores) }
{
    let loads = barred(alloc, feet, hart, Role::Load, frames)?;
    // What the step fetches it may not store to.
    let fetched = word_bytes(alloc, pc)?;
    let stores = barred(alloc, feet, hart, Role::Store, frames)?.or(alloc, &fetched)?;
    Ok(BarredBytes { loads, stores })
}

/// What a load or store of a hart may do with the bytes of memory, where no address is translated and the hart stands at a
/// pc, a multiple of 4. The frames of the pool are given by their first bytes.
pub fn data_bytes(
    alloc: Global,
    mem: &PartMem,
    feet: &FootMap,
    hart: u8,
    pool: &[u32],
    pc: u32,
) -> Result<DataBytes, OutOfMemory>
    requires pool { AreFrames pool.now }
    requires pc { pc % 4 ≡ 0 }
    ensures { IfOk result (λ bytes. AreDataBytes (part_at mem.now) feet.now hart pool.now pc bytes) }
{
    let runs = mem.known_runs(alloc)?;
    let seen = seen_bytes(alloc, mem, &runs, pool, pc)?;
    let frames = frames_of(alloc, &runs, pool)?;
    let barred = barred_bytes(alloc, feet, hart, &frames, pc)?;
    Ok(DataBytes {
        known: seen.known,
        fresh: seen.fresh,
        outside: seen.outside,
        not_loaded: barred.loads,
        not_stored: barred.stores,
    })
}
