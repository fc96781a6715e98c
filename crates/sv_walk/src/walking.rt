// The walk.
ghost use Rattle.std.specs.Prelude.{◌≡◌, ◌<◌, ◌≤◌, ◌+◌, ◌%◌, ◌/◌, ◌^◌, ◌++◌, [], if◌then◌else◌, map, nat_lt, length};
ghost use Rattle.rv_mem.specs.declared.words.Seen.TheVariants.{Vacant as NoRam};
ghost use Rattle.rv_script.specs.Folds.{answer_on, prefixed};
ghost use Rattle.sv_walk.specs.Translation.{arrived, second_end, from_pointer, from_root, is_translated, translated};
ghost use Rattle.sv_walk.specs.Clauses.{accesses_on, end_of, ended, entry_access, known_words, ram_of, AreAligned, AreRead, IsEnd, KeepsOffset, IsTranslation, IsWalk};

use crate::ending::{Walk, WalkEnd};
use crate::entries::Entries;
use crate::entry::{Kind, View, is_closed, is_invalid, is_pointer, is_reserved, is_unaligned};
use rv_csr::Priv;
use rv_mem::{Seen, Words};

/// What is seen of the word at a physical address, a multiple of 4.
fn word_at<M: Words>(m: &M, addr: u64) -> Seen
    requires { addr % 4 ≡ 0 }
    ensures { result ≡ (if nat_lt addr (2 ^ 32) then M.at m.now (addr / 4) else NoRam) }
{
    if addr < 0x1_0000_0000 {
        m.word(addr as u32)
    } else {
        Seen::Vacant
    }
}

/// The end at a physical address.
fn arrive<M: Words>(m: &M, kind: Kind, addr: u64) -> WalkEnd
    ensures value { result ≡ end_of (arrived (ram_of (M.at m.now)) kind addr) }
    ensures end { IsEnd (M.at m.now) result }
    ensures offset { KeepsOffset addr result }
{
    match word_at(m, addr - addr % 4) {
        Seen::Vacant => WalkEnd::Fault(kind.access_cause()),
        _ => WalkEnd::Pa(addr as u32),
    }
}

/// The end at the second entry.
#[tactic(auto, unfolding(crate::specs::Translation::second_end))]
fn end_at_second<M: Words>(m: &M, v: View, kind: Kind, va: u32, entry: u32) -> WalkEnd
    ensures value { result ≡ end_of (second_end (ram_of (M.at m.now)) v kind va entry) }
    ensures end { IsEnd (M.at m.now) result }
    ensures offset { KeepsOffset va result }
{
    if is_invalid(entry) || is_pointer(entry) || is_closed(v, kind, entry) {
        return WalkEnd::Fault(kind.page_cause());
    }
    arrive(
        m,
        kind,
        u64::from(entry >> 10) * 4096 + u64::from(va % 4096),
    )
}

/// The walk from a pointer in the root table on.
#[tactic(auto, using(crate::proofs::Ends::ended_at, crate::proofs::Ends::more_entries), unfolding(crate::specs::Translation::from_pointer))]
fn walk_pointer<M: Words>(
    m: &M,
    v: View,
    kind: Kind,
    va: u32,
    entry: u32,
    ptes: &mut Entries,
) -> WalkEnd
    requires { length ptes.old < 2 }
    ensures end { IsEnd (M.at m.now) result }
    ensures offset { KeepsOffset va result }
    ensures aligned { AreAligned ptes.old → AreAligned ptes.new }
    ensures few { length ptes.new ≤ length ptes.old + 1 }
    ensures answer { ended ptes.new result ≡ prefixed (map entry_access ptes.old) (answer_on (known_words (M.at m.now)) (from_pointer (ram_of (M.at m.now)) v kind va entry)) }
    ensures read { map entry_access ptes.new ≡ map entry_access ptes.old ++ accesses_on (known_words (M.at m.now)) (from_pointer (ram_of (M.at m.now)) v kind va entry) }
{
    let addr = u64::from(entry >> 10) * 4096 + u64::from((va >> 12) % 1024) * 4;
    match word_at(m, addr) {
        Seen::Vacant => WalkEnd::Fault(kind.access_cause()),
        Seen::Untouched => WalkEnd::Missing(addr as u32),
        Seen::Known(second) => {
            ptes.push((addr as u32, second));
            end_at_second(m, v, kind, va, second)
        }
    }
}

/// The walk from the root entry on.
#[tactic(auto, using(crate::proofs::Ends::ended_at, crate::proofs::Ends::more_entries), unfolding(crate::specs::Translation::from_root))]
fn walk_root<M: Words>(
    m: &M,
    v: View,
    kind: Kind,
    va: u32,
    entry: u32,
    ptes: &mut Entries,
) -> WalkEnd
    requires { length ptes.old < 2 }
    ensures end { IsEnd (M.at m.now) result }
    ensures offset { KeepsOffset va result }
    ensures aligned { AreAligned ptes.old → AreAligned ptes.new }
    ensures few { length ptes.new ≤ length ptes.old + 1 }
    ensures answer { ended ptes.new result ≡ prefixed (map entry_access ptes.old) (answer_on (known_words (M.at m.now)) (from_root (ram_of (M.at m.now)) v kind va entry)) }
    ensures read { map entry_access ptes.new ≡ map entry_access ptes.old ++ accesses_on (known_words (M.at m.now)) (from_root (ram_of (M.at m.now)) v kind va entry) }
{
    if is_invalid(entry) {
        return WalkEnd::Fault(kind.page_cause());
    }
    if is_pointer(entry) {
        if is_reserved(entry) {
            return WalkEnd::Outside;
        }
        return walk_pointer(m, v, kind, va, entry, ptes);
    }
    if is_unaligned(entry) || is_closed(v, kind, entry) {
        return WalkEnd::Fault(kind.page_cause());
    }
    arrive(
        m,
        kind,
        u64::from(entry >> 20) * 0x40_0000 + u64::from(va % 0x40_0000),
    )
}

/// Whether translation holds.
pub fn is_translated(v: View) -> bool
    ensures { result ≡ is_translated v }
{
    !matches!(v.privilege, Priv::M) && v.satp >= 0x8000_0000
}

/// The walk, from satp on.
#[tactic(auto, using(crate::proofs::Ends::ended_at, crate::proofs::Ends::more_entries), unfolding(crate::specs::Translation::translated))]
fn translate<M: Words>(m: &M, v: View, kind: Kind, va: u32, ptes: &mut Entries) -> WalkEnd
    requires { ptes.old ≡ [] }
    ensures end { IsEnd (M.at m.now) result }
    ensures offset { KeepsOffset va result }
    ensures aligned { AreAligned ptes.new }
    ensures few { length ptes.new ≤ 2 }
    ensures answer { ended ptes.new result ≡ answer_on (known_words (M.at m.now)) (translated (ram_of (M.at m.now)) v kind va) }
    ensures read { map entry_access ptes.new ≡ accesses_on (known_words (M.at m.now)) (translated (ram_of (M.at m.now)) v kind va) }
{
    if !is_translated(v) {
        return arrive(m, kind, u64::from(va));
    }
    let addr = u64::from(v.satp % 0x40_0000) * 4096 + u64::from(va >> 22) * 4;
    match word_at(m, addr) {
        Seen::Vacant => WalkEnd::Fault(kind.access_cause()),
        Seen::Untouched => WalkEnd::Missing(addr as u32),
        Seen::Known(root) => {
            ptes.push((addr as u32, root));
            walk_root(m, v, kind, va, root, ptes)
        }
    }
}

/// Translates a virtual address for an access of a kind, where what is known of memory tells how. Pa is in RAM.
/// Fault is the page fault or access fault of the access. Outside comes where the profile ends, and Missing with the
/// first entry that is read and isn't known. Where translation doesn't hold, the address is the physical one. The walk
/// never writes, and takes no memory.
pub fn walk<M: Words>(m: &M, v: View, va: u32, kind: Kind) -> Walk
    // The translation wherever just these words are known.
    ensures answer { IsWalk (M.at m.now) v kind va result }

    // The translation on every whole memory that has what is known.
    ensures whole { IsTranslation (M.at m.now) v kind va result }

    // The entries that were read, in order.
    ensures ptes { AreRead (M.at m.now) v kind va result }

    // Pa is in RAM, and Missing carries a word of RAM that has no value yet.
    ensures end { IsEnd (M.at m.now) result.outcome }

    // The offset in the page stays.
    ensures offset { KeepsOffset va result.outcome }

    // The entries lie at multiples of 4, and there are at most two.
    ensures aligned { AreAligned result.ptes }
    ensures few { length result.ptes ≤ 2 }
{
    let mut ptes = Entries::new();
    let outcome = translate(m, v, kind, va, &mut ptes);
    Walk { outcome, ptes }
}
