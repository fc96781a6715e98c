// What is known where a hart of a test stands.
ghost use Rattle.std.specs.Prelude.{◌≡◌, ◌<◌, ◌/◌, ◌%◌, ◌^◌, ◌&&◌, ◌||◌, ℕ, List, length, take, IfOk, IfSome};
ghost use Rattle.foot_map.specs.declared.touch.Touch.{Touch as ATouch};
ghost use Rattle.foot_map.specs.Races.{IsFootprint};
ghost use Rattle.rv_mem.specs.Seen.{known_word};
ghost use Rattle.rv_script.specs.Folds.{Entry as AnEntry};
ghost use Rattle.leaf_link.specs.Firsts.{data_pairs};
ghost use Rattle.tpl_admit.specs.Races.{footprints_of};
ghost use Rattle.part_machine.specs.Whole.{records_of};
ghost use Rattle.part_state.specs.State.{here};
ghost use Rattle.rv_mem.specs.Frames.{in_frames};
ghost use Rattle.dom_set.specs.Elements.{is_in};
ghost use Rattle.leaf_link.specs.Cases.{all_tests, is_some_word};
ghost use Rattle.leaf_stand.specs.Shared.{traces_of};
ghost use Rattle.leaf_stand.specs.Stands.{IsStandOf};
ghost use Rattle.turn_laws.specs.Given.{Setting, turn_at};
ghost use Rattle.leaf_turn.specs.Data.{IsDataAt};
ghost use Rattle.leaf_turn.specs.Entering.{Leads, TellsTraps};
ghost use Rattle.leaf_turn.specs.Grounds.{AreNamesOf, HasSourceSet, IsSettingOf, is_free_fetch};

use crate::OutOfMemory;
use data_goals::Accesses;
use dom_set::Set;
use foot_map::FootMap;
use leaf_pose::{Name, Stand};
use part_state::Part;
use rv_hart::Record;
use rv_mem::{Seen, Words};
use rv_script::Role;
use std::alloc::Global;
use tpl_ast::{Atom, Template, Var};

/// The names of a template, with the values that they have in a test.
pub fn names_of<'t>(
    alloc: Global,
    part: &Part,
    t: &'t Template,
) -> Result<Vec<Name<'t>>, OutOfMemory>
    requires names { length part.now.now.names ≡ length t.now.names }
    requires few { length t.now.names < 2 ^ 32 }
    ensures { IfOk result (λ names. AreNamesOf t.now (here part.now) names.items) }
{
    let mut names = Vec::new(alloc);
    for (number, declared) in t.names.as_slice().iter().enumerate() {
        names.push(Name {
            value: part.name(number as u32),
            set: &declared.set,
        })?;
    }
    Ok(names)
}

/// Whether a fetch of a hart from an address, a multiple of 4, races with nothing that was done.
fn is_free_fetch(feet: &FootMap, hart: u8, addr: u32) -> bool
    requires { addr % 4 ≡ 0 }
    ensures { result ≡ is_free_fetch feet.now hart addr }
{
    match feet.may(hart, Role::Fetch, addr, 4) {
        None => true,
        Some(_) => false,
    }
}

/// Whether an address is in one of the frames, which are given by their first bytes.
fn is_in_frames(frames: &[u32], addr: u32) -> bool
    ensures { result ≡ in_frames frames.now addr }
{
    frames.iter().any(|frame| addr / 4096 == frame / 4096)
}

/// Whether a hart may fetch from an address: its fetch races with nothing, and the word is known or in a frame of the
/// pool.
fn may_fetch(feet: &FootMap, hart: u8, addr: u32, word: Option<u32>, pool: &[u32]) -> bool
    requires { addr % 4 ≡ 0 }
    ensures { result ≡ (is_free_fetch feet.now hart addr && (is_some_word word || in_frames pool.now addr)) }
{
    is_free_fetch(feet, hart, addr)
        && match word {
            Some(_) => true,
            None => is_in_frames(pool, addr),
        }
}

/// The word at an address, a multiple of 4, where it is known.
fn word_at(part: &Part, addr: u32) -> Option<u32>
    requires { addr % 4 ≡ 0 }
    ensures { result ≡ known_word ((here part.now).memory (addr / 4)) }
{
    match part.memory().word(addr) {
        Seen::Known(word) => Some(word),
        Seen::Untouched | Seen::Vacant => None,
    }
}

/// What is known of a hart and of names alone, with `none` for its sources: enough for what atoms say of single variables, and
/// for the trap of a fetch.
pub fn bare_stand<'t>(
    part: &Part,
    hart: u8,
    t: &'t Template,
    names: &'t [Name<'t>],
    none: &'t Set,
) -> Stand<'t>
    requires hart { hart < length part.now.now.harts }
    ensures names { result.names.now ≡ names.now }
    ensures traps { (s : Setting) (feet : List ATouch) → IsSettingOf t.now s → TellsTraps result (turn_at s feet hart (here part.now)) }
{
    let state = part.hart(hart);
    Stand {
        pc: state.pc,
        privilege: state.privilege,
        csrs: state.csrs,
        registers: state.regs,
        word: None,
        fetches: false,
        pairs: 1,
        accesses: None,
        sources: none,
        vectors: &t.vectors,
        names,
        others: &[],
    }
}

/// The records of the harts with lower numbers.
pub fn others_of<'p>(
    alloc: Global,
    part: &'p Part,
    hart: u8,
) -> Result<Vec<&'p [Record]>, OutOfMemory>
    requires { hart < length part.now.now.harts }
    ensures { IfOk result (λ others. traces_of others.items ≡ take hart (here part.now).traces) }
{
    part.is_test();
    let mut others = Vec::new(alloc);
    for k in 0..hart {
        others.push(part.records(k))?;
    }
    Ok(others)
}

/// What is known where a hart stands whose pc leads to a physical address, the words that an untouched source may be
/// started with, how many pairs of page table entries a load or store may start, the records of the harts with
/// lower numbers, and what loads and stores may do.
pub fn stand_of<'t>(
    part: &Part,
    hart: u8,
    pa: u32,
    pairs: u64,
    t: &'t Template,
    names: &'t [Name<'t>],
    sources: &'t Set,
    others: &'t [&'t [Record]],
    accesses: Option<Accesses>,
) -> Stand<'t>
    requires hart { hart < length part.now.now.harts }
    requires aligned { pa % 4 ≡ 0 }
    requires pairs { (s : Setting) (feet : List ATouch) → IsSettingOf t.now s → data_pairs (turn_at s feet hart (here part.now)) ≡ pairs }
    requires names { AreNamesOf t.now (here part.now) names.now }
    requires others { traces_of others.now ≡ take hart (here part.now).traces }
    requires accesses { IfSome accesses (IsDataAt t.now hart (here part.now) pa) }
    ensures stand { (s : Setting) (feet : List ATouch) (walk : List AnEntry) → Leads hart (here part.now) walk pa → IsSettingOf t.now s → HasSourceSet s sources.now → IsFootprint feet (footprints_of (λ k. records_of k (here part.now))) → IsStandOf result (turn_at s feet hart (here part.now)) walk pa }
    ensures told { result.accesses ≡ accesses }
    // there are such footprints
    ensures feet { (feet : List ATouch) × IsFootprint feet (footprints_of (λ k. records_of k (here part.now))) }
{
    part.is_test();
    let state = part.hart(hart);
    let word = word_at(part, pa);
    Stand {
        pc: state.pc,
        privilege: state.privilege,
        csrs: state.csrs,
        registers: state.regs,
        word,
        fetches: may_fetch(part.feet(), hart, pa, word, t.pool.as_slice()),
        pairs,
        accesses,
        sources,
        vectors: &t.vectors,
        names,
        others,
    }
}

/// The words that the atoms of a leaf leave to a source register.
pub fn sources_of(
    alloc: Global,
    part: &Part,
    hart: u8,
    t: &Template,
    names: &[Name],
    atoms: &[Atom],
) -> Result<Set, OutOfMemory>
    requires hart { hart < length part.now.now.harts }
    requires names { AreNamesOf t.now (here part.now) names.now }
    ensures { IfOk result (λ sources. (s : Setting) (feet : List ATouch) → IsSettingOf t.now s → (v : ℕ) → v < 2 ^ 32 → all_tests (turn_at s feet hart (here part.now)) atoms.now Var.A v ≡ is_in sources v) }
{
    // What passes atoms rests on names alone.
    let none = Set::new(alloc);
    let stand = bare_stand(part, hart, t, names, &none);
    Ok(stand.passing(alloc, Set::all(alloc)?, atoms, Var::A)?)
}
