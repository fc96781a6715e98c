// What the loads and stores of a hart of a test may do.
ghost use Rattle.std.specs.Prelude.{◌≡◌, ◌<◌, ◌%◌, ℕ, true, false, List, length, IfOk, IfSome};
ghost use Rattle.std.specs.Option.{is_some};
ghost use Rattle.dom_set.specs.Elements.{is_in, is_within};
ghost use Rattle.rv_script.specs.Folds.{Entry as AnEntry};
ghost use Rattle.sv_walk.specs.Clauses.{AreAligned};
ghost use Rattle.sv_walk.specs.Translation.{is_translated};
ghost use Rattle.fetch_ways.specs.Ways.{HasForms};
ghost use Rattle.foot_map.specs.declared.touch.Touch.{Touch as ATouch};
ghost use Rattle.foot_map.specs.Races.{IsFootprint};
ghost use Rattle.rv_hart.specs.Machine.{data_view};
ghost use Rattle.tpl_admit.specs.Races.{footprints_of};
ghost use Rattle.part_machine.specs.Whole.{records_of};
ghost use Rattle.part_state.specs.State.{here};
ghost use Rattle.data_bytes.specs.Frames.{AreFrames};
ghost use Rattle.data_bytes.specs.Sets.{IsSetOf};
ghost use Rattle.data_goals.specs.Grounds.{HasAccesses, is_walked};
ghost use Rattle.leaf_link.specs.Cases.{or_no};
ghost use Rattle.leaf_link.specs.Reaching.{HasPages};
ghost use Rattle.rv_mem.specs.Frames.{in_frames};
ghost use Rattle.leaf_link.specs.Turns.{Turn, is_first_form, is_second_form};
ghost use Rattle.turn_laws.specs.Given.{Setting, turn_at};
ghost use Rattle.leaf_turn.specs.Built.{lets_data};
ghost use Rattle.leaf_turn.specs.Data.{IsDataAt, is_read};
ghost use Rattle.leaf_turn.specs.Entering.{Leads};
ghost use Rattle.leaf_turn.specs.Grounds.{AreNamesOf, IsSettingOf};

use crate::OutOfMemory;
use crate::built::lets_data;
use crate::entering::{data_view, fetch_view, forms_of};
use crate::known::known_is_words;
use crate::stand::bare_stand;
use data_bytes::{DataAccess, data_bytes};
use data_goals::Accesses;
use data_ways::data_ways;
use dom_set::Set;
use fetch_ways::{EntryForms, Forms, entry_forms};
use leaf_pose::Name;
use part_state::Part;
use std::alloc::Global;
use sv_walk::{Kind, View, is_translated, walk};
use tpl_ast::{Atom, Template, Var, Wish};

/// The bytes of page table entries, each by its first and its last one.
fn ranges_of(alloc: Global, ptes: &[(u32, u32)]) -> Result<Vec<(u32, u32)>, OutOfMemory>
    requires { AreAligned ptes.now }
    ensures { IfOk result (λ ranges. (v : ℕ) → is_within ranges.items v ≡ is_read ptes.now v) }
{
    let mut ranges = Vec::new(alloc);
    for entry in ptes {
        ranges.push((entry.0, entry.0 + 3))?;
    }
    Ok(ranges)
}

/// The bytes of the page table entries that the fetch of a hart reads.
fn walked_by(alloc: Global, part: &Part, hart: u8) -> Result<Set, OutOfMemory>
    requires { hart < length part.now.now.harts }
    ensures { IfOk result (λ set. (log : List AnEntry) (pa : ℕ) → Leads hart (here part.now) log pa → IsSetOf (is_walked log) set) }
{
    let view = fetch_view(part, hart);
    let pc = part.hart(hart).pc;
    let walked = walk(part.memory(), view, pc, Kind::Fetch);
    let ranges = ranges_of(alloc, walked.ptes.as_slice())?;
    let set = Set::from_ranges(alloc, &ranges, 1)?;
    Ok(set)
}

/// What new page table entries may be; 0 alone where no address is translated.
fn entries_of(alloc: Global, view: View, forms: &Forms) -> Result<EntryForms, OutOfMemory>
    ensures first { IfOk result (λ f. (t : Turn) → HasForms t forms.now → IsSetOf (λ v. or_no (is_translated view) (is_first_form t v) v) f.first) }
    ensures second { IfOk result (λ f. (t : Turn) → HasForms t forms.now → IsSetOf (λ v. or_no (is_translated view) (is_second_form t v) v) f.second) }
{
    if is_translated(view) {
        let forms = entry_forms(alloc, forms)?;
        return Ok(forms);
    }
    let first = Set::from_ranges(alloc, &[(0, 0)], 1)?;
    let second = Set::from_ranges(alloc, &[(0, 0)], 1)?;
    Ok(EntryForms { first, second })
}

/// What the loads and stores of a hart may do whose pc leads to a physical address, at these virtual addresses.
fn accesses_of(
    alloc: Global,
    part: &Part,
    hart: u8,
    pa: u32,
    t: &Template,
    pages: Set,
) -> Result<Accesses, OutOfMemory>
    requires hart { hart < length part.now.now.harts }
    requires aligned { pa % 4 ≡ 0 }
    requires frames { AreFrames t.now.pool }
    requires apart { (v : ℕ) → in_frames t.now.tables v ≡ true → in_frames t.now.pool v ≡ false }
    ensures pages { IfOk result (λ a. a.pages ≡ pages) }
    ensures accesses { IfOk result (λ a. (s : Setting) (feet : List ATouch) (log : List AnEntry) → IsSettingOf t.now s → IsFootprint feet (footprints_of (λ k. records_of k (here part.now))) → Leads hart (here part.now) log pa → HasAccesses (turn_at s feet hart (here part.now)) log pa a) }
{
    part.is_test();
    known_is_words(part, hart);
    let (memory, ram, feet) = (part.memory(), part.ram(), part.feet());
    let bytes = data_bytes(alloc, memory, feet, hart, t.pool.as_slice(), pa)?;
    let walked = walked_by(alloc, part, hart)?;
    let forms = forms_of(alloc, t)?;
    let view = data_view(part, hart);
    let entries = entries_of(alloc, view, &forms)?;
    let loads = data_ways(
        alloc,
        memory,
        ram,
        feet,
        hart,
        view,
        DataAccess::Load,
        &pages,
        &forms,
    )?;
    let stores = data_ways(
        alloc,
        memory,
        ram,
        feet,
        hart,
        view,
        DataAccess::Store,
        &pages,
        &forms,
    )?;
    Ok(Accesses {
        bytes,
        walked,
        pages,
        firsts: entries.first,
        seconds: entries.second,
        loads,
        stores,
    })
}

/// The virtual addresses that the atoms of a leaf let through.
fn pages_of(
    alloc: Global,
    part: &Part,
    hart: u8,
    t: &Template,
    names: &[Name],
    atoms: &[Atom],
) -> Result<Set, OutOfMemory>
    requires hart { hart < length part.now.now.harts }
    requires names { AreNamesOf t.now (here part.now) names.now }
    ensures { IfOk result (λ pages. (s : Setting) (feet : List ATouch) → IsSettingOf t.now s → HasPages (turn_at s feet hart (here part.now)) atoms.now (is_in pages)) }
{
    // What passes atoms rests on names alone.
    let none = Set::new(alloc);
    let stand = bare_stand(part, hart, t, names, &none);
    let all = Set::all(alloc)?;
    let pages = stand.passing(alloc, all, atoms, Var::Ea)?;
    Ok(pages)
}

/// What loads and stores may do, where the atoms of a leaf that have to hold let some through.
pub fn accesses_for(
    alloc: Global,
    part: &Part,
    hart: u8,
    pa: u32,
    t: &Template,
    names: &[Name],
    wishes: &[Wish],
    atoms: &[Atom],
) -> Result<Option<Accesses>, OutOfMemory>
    requires hart { hart < length part.now.now.harts }
    requires aligned { pa % 4 ≡ 0 }
    requires names { AreNamesOf t.now (here part.now) names.now }
    requires frames { AreFrames t.now.pool }
    requires apart { (v : ℕ) → in_frames t.now.tables v ≡ true → in_frames t.now.pool v ≡ false }
    ensures told { IfOk result (λ o. is_some o ≡ lets_data wishes.now) }
    ensures accesses { IfOk result (λ o. IfSome o (IsDataAt t.now hart (here part.now) pa)) }
    ensures pages { IfOk result (λ o. IfSome o (λ a. (s : Setting) (feet : List ATouch) → IsSettingOf t.now s → HasPages (turn_at s feet hart (here part.now)) atoms.now (is_in a.pages))) }
{
    if !lets_data(wishes) {
        return Ok(None);
    }
    let pages = pages_of(alloc, part, hart, t, names, atoms)?;
    let accesses = accesses_of(alloc, part, hart, pa, t, pages)?;
    Ok(Some(accesses))
}
