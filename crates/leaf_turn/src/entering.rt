// The fetch of a `do` leaf: the page table entries that it starts, and where the pc then leads.
ghost use Rattle.tpl_ast.specs.declared.template.Template.{Template as ATemplate};
ghost use Rattle.std.specs.Prelude.{◌≡◌, ◌<◌, ◌%◌, false, ℕ, List, length, IfOk, OnOk, OnErr, if◌then◌else◌, nat_eq};
ghost use Rattle.foot_map.specs.declared.touch.Touch.{Touch as ATouch};
ghost use Rattle.foot_map.specs.Races.{IsFootprint};
ghost use Rattle.rv_hart.specs.Machine.{data_view};
ghost use Rattle.sv_walk.specs.Clauses.{AreAligned, ended};
ghost use Rattle.sv_walk.specs.declared.ending.WalkEnd.TheVariants.{Missing};
ghost use Rattle.sv_walk.specs.Translation.{is_translated, root_address};
ghost use Rattle.fetch_ways.specs.Ways.{is_free_walk};
ghost use Rattle.tpl_admit.specs.Races.{footprints_of};
ghost use Rattle.part_machine.specs.Whole.{Whole, fixed_in, hart_of, records_of};
ghost use Rattle.part_state.specs.State.{here};
ghost use Rattle.fd_prob.specs.declared.problem.Assignment.{Assignment as AnAssignment};
ghost use Rattle.fd_prob.specs.declared.slot.Slot.TheVariants.{FirstPte as First, SecondPte as Second};
ghost use Rattle.fd_solve.specs.declared.answers.Solved.TheVariants.{Found};
ghost use Rattle.leaf_link.specs.Answers.{values_in};
ghost use Rattle.leaf_link.specs.FetchAnswers.{fetch_space};
ghost use Rattle.leaf_link.specs.Firsts.{pairs_at};
ghost use Rattle.turn_laws.specs.Ahead.{AreVectors};
ghost use Rattle.turn_laws.specs.Entered.{walked_at};
ghost use Rattle.turn_laws.specs.Given.{Setting, turn_at};
ghost use Rattle.leaf_turn.specs.Answers.{AreKept};
ghost use Rattle.leaf_turn.specs.Entering.{AnswersFetch, AreFormsOf, AreWalksOf, IsEnterable, IsEnteredAs, IsEnteredAt, are_free_walks, root_at, view_at};
ghost use Rattle.leaf_turn.specs.Grounds.{HasFewForms, IsSettingOf};

use crate::OutOfMemory;
use crate::known::known_is_words;
use crate::laws::answers_are_playable;
use crate::stand::bare_stand;
use dom_set::Set;
use fd_prob::{Assignment, Slot};
use fd_solve::{Solved, solve};
use fetch_ways::{EntryForms, FetchWay, Forms, entry_forms, fetch_pairs, fetch_ways};
use foot_map::FootMap;
use leaf_link::fetch_answers_are_exact;
use leaf_pose::fetch_problem;
use part_state::Part;
use rv_csr::Priv;
use rv_script::{Place, Role};
use std::alloc::Global;
use sv_walk::{Kind, View, Walk, WalkEnd, is_translated, walk};
use tpl_ast::Template;
use turn_laws::{entries_are_next, given_places_are_known, places_are_next};

/// What the translation of a hart's fetches goes by.
pub fn fetch_view(part: &Part, hart: u8) -> View
    requires { hart < length part.now.now.harts }
    ensures { result ≡ view_at hart (here part.now) }
{
    let state = part.hart(hart);
    View {
        satp: state.csrs.satp(),
        privilege: state.privilege,
        sum: state.csrs.sum(),
        mxr: state.csrs.mxr(),
    }
}

/// What the translation of a hart's loads and stores goes by.
pub fn data_view(part: &Part, hart: u8) -> View
    requires { hart < length part.now.now.harts }
    ensures { result ≡ data_view (fixed_in (hart_of hart (here part.now)) (here part.now).memory) }
{
    let state = part.hart(hart);
    View {
        satp: state.csrs.satp(),
        privilege: state.csrs.effective_privilege(state.privilege),
        sum: state.csrs.sum(),
        mxr: state.csrs.mxr(),
    }
}

/// The physical address of the root entry of an address (Privileged, 4.3.2).
pub fn root_address(view: View, addr: u32) -> u64
    ensures { result ≡ root_address view addr }
{
    u64::from(view.satp % 0x40_0000) * 0x1000 + u64::from(addr / 0x40_0000) * 4
}

/// The physical address of the root entry of a hart's pc.
pub fn root_of(part: &Part, hart: u8) -> u64
    requires { hart < length part.now.now.harts }
    ensures { result ≡ root_at hart (here part.now) }
{
    root_address(fetch_view(part, hart), part.hart(hart).pc)
}

/// What a template lets new page table entries be.
pub fn forms_of(alloc: Global, t: &Template) -> Result<Forms, OutOfMemory>
    ensures { IfOk result (AreFormsOf t.now) }
{
    let tables = Vec::from_slice(alloc, t.tables.as_slice())?;
    let pool = Vec::from_slice(alloc, t.pool.as_slice())?;
    let flags = Vec::from_slice(alloc, t.flags.as_slice())?;
    Ok(Forms {
        tables,
        pool,
        flags,
    })
}

/// How many pairs of page table entries a translation may start that goes by a view; 1 where addresses are not translated.
pub fn pairs_of(alloc: Global, view: View, t: &Template) -> Result<u64, OutOfMemory>
    requires { HasFewForms t.now }
    ensures { IfOk result (λ pairs. (s : Setting) (feet : List ATouch) (k : ℕ) (w : Whole) → IsSettingOf t.now s → pairs_at (turn_at s feet k w) view ≡ pairs) }
{
    if !is_translated(view) {
        return Ok(1);
    }
    let forms = forms_of(alloc, t)?;
    Ok(fetch_pairs(view, &forms))
}

/// Where the pc of a hart leads while page table entries may still be chosen.
#[derive(Drop)]
pub struct Walks {
    pub forms: EntryForms,
    /// How many pairs of new entries a search has to look at.
    pub pairs: u64,
    pub ways: Vec<FetchWay>,
}

/// Where the pc of a hart leads, with what the template lets new page table entries be.
pub fn walks_of(alloc: Global, part: &Part, hart: u8, t: &Template) -> Result<Walks, OutOfMemory>
    requires hart { hart < length part.now.now.harts }
    requires few { HasFewForms t.now }
    ensures { IfOk result (λ walks. (s : Setting) (feet : List ATouch) → IsSettingOf t.now s → IsFootprint feet (footprints_of (λ k. records_of k (here part.now))) → AreWalksOf walks.forms.first walks.forms.second walks.pairs walks.ways.items (turn_at s feet hart (here part.now))) }
{
    part.is_test();
    known_is_words(part, hart);
    let forms = forms_of(alloc, t)?;
    let view = fetch_view(part, hart);
    let pc = part.hart(hart).pc;
    let ways = fetch_ways(
        alloc,
        part.memory(),
        part.ram(),
        part.feet(),
        hart,
        view,
        pc,
        &forms,
    )?;
    let pairs = fetch_pairs(view, &forms);
    let forms = entry_forms(alloc, &forms)?;
    Ok(Walks { forms, pairs, ways })
}

/// Does nothing. Its contract says that the accesses of all records have a footprint.
pub fn footprints_exist(part: &Part)
    ensures { (feet : List ATouch) × IsFootprint feet (footprints_of (λ k. records_of k (here part.now))) }
{
    let _feet = part.feet();
}

/// The answer of the fetch of a `do` leaf where a hart of a test stands. The first two draws are for its page table
/// entries.
fn fetch_answer(
    alloc: Global,
    part: &Part,
    hart: u8,
    t: &Template,
    draws: &[u32; 16],
    nodes: u64,
) -> Result<Solved, OutOfMemory>
    requires hart { hart < length part.now.now.harts }
    requires few { HasFewForms t.now }
    requires vectors { AreVectors t.now.vectors }
    ensures answer { IfOk result (AnswersFetch t.now hart draws.now nodes (here part.now)) }
    ensures enterable { IfOk result (λ answer. (x : AnAssignment) → answer ≡ Found x → IsEnterable hart (here part.now) (values_in x)) }
{
    fetch_answers_are_exact();
    answers_are_playable();
    known_is_words(part, hart);
    footprints_exist(part);
    let walks = walks_of(alloc, part, hart, t)?;
    let none = Set::new(alloc);
    let stand = bare_stand(part, hart, t, &[], &none);
    let problem = fetch_problem(alloc, &stand, &walks.forms, walks.pairs, &walks.ways, draws)?;
    Ok(solve(alloc, &problem, nodes)?)
}

/// The value of a new page table entry at an address, where that of the root entry is told.
fn entry_value(x: &Assignment, root: u64, addr: u32) -> u32
    ensures { result ≡ (if nat_eq addr root then values_in x.now First else values_in x.now Second) }
{
    if u64::from(addr) == root {
        x.value(Slot::FirstPte)
    } else {
        x.value(Slot::SecondPte)
    }
}

/// Gives a hart the page table entries of an answer of its fetch, one by one as its walk asks for them; the address to
/// which the pc then leads.
fn enter(part: &mut Part, hart: u8, x: &Assignment) -> Result<u32, OutOfMemory>
    requires hart { hart < length part.old.now.harts }
    requires enterable { IsEnterable hart (here part.old) (values_in x.now) }
    ensures entered { IfOk result (λ pa. IsEnteredAt hart (values_in x.now) pa (here part.old) (here part.new)) }
    ensures kept { AreKept part.old part.new }
{
    entries_are_next();
    places_are_next();
    given_places_are_known();
    part.is_test();
    let root = root_of(part, hart);
    // A walk asks for two entries at most.
    let mut left = 2u8;
    loop {
        let view = fetch_view(part, hart);
        let pc = part.hart(hart).pc;
        match walk(part.memory(), view, pc, Kind::Fetch).outcome {
            WalkEnd::Missing(addr) => {
                part.start_place(hart, Place::Word(addr), entry_value(x, root, addr))?;
                left -= 1;
            }
            WalkEnd::Pa(pa) => return Ok(pa),
            // With these entries the pc leads somewhere.
            WalkEnd::Fault(_) | WalkEnd::Outside => unreachable!(),
        }
    }
}

/// How the fetch of a `do` leaf was answered.
#[derive(Clone, Copy)]
pub enum Entered {
    /// Its page table entries were given, and the pc leads to this physical address.
    At(u32),
    /// No page table entries let it succeed.
    NoneFits,
    /// The search for them is larger than its budget.
    Spent,
}

/// Whether the reading of a page table entry at an address, a multiple of 4, races with nothing.
fn is_free_walk(feet: &FootMap, hart: u8, addr: u32) -> bool
    requires { addr % 4 ≡ 0 }
    ensures { result ≡ is_free_walk feet.now hart addr }
{
    match feet.may(hart, Role::Walk, addr, 4) {
        None => true,
        Some(_) => false,
    }
}

/// Whether that of each of the entries of a walk does.
fn are_free_walks(feet: &FootMap, hart: u8, entries: &[(u32, u32)]) -> bool
    requires { AreAligned entries.now }
    ensures { result ≡ are_free_walks feet.now hart entries.now }
{
    for entry in entries {
        if !is_free_walk(feet, hart, entry.0) {
            return false;
        }
    }
    true
}

/// The fetch of a `do` leaf where a hart stands whose walk lacks no entry: it starts nothing. `pairs` is how many pairs of
/// page table entries a search for its answer would have to look at.
fn enter_settled(part: &Part, hart: u8, walked: &Walk, pairs: u64, nodes: u64) -> Entered
    requires hart { hart < length part.now.now.harts }
    requires walk { ended walked.now.ptes walked.now.outcome ≡ walked_at hart (here part.now) }
    requires aligned { AreAligned walked.now.ptes }
    requires settled { (addr : ℕ) → walked.now.outcome ≡ Missing addr → ⊥ }
    ensures { (t : ATemplate) (draws : List ℕ) → ((s : Setting) (feet : List ATouch) → IsSettingOf t s → fetch_space (turn_at s feet hart (here part.now)) ≡ pairs) → IsEnteredAs t hart draws nodes (here part.now) (here part.now) result }
{
    part.is_test();
    known_is_words(part, hart);
    if nodes < pairs {
        return Entered::Spent;
    }
    match walked.outcome {
        WalkEnd::Pa(pa) => {
            if are_free_walks(part.feet(), hart, walked.ptes.as_slice()) {
                Entered::At(pa)
            } else {
                Entered::NoneFits
            }
        }
        WalkEnd::Fault(_) | WalkEnd::Outside => Entered::NoneFits,
        WalkEnd::Missing(_) => unreachable!(),
    }
}

/// Answers the fetch of a `do` leaf where a hart stands, and starts the page table entries of what is found.
fn answer_and_enter(
    alloc: Global,
    part: &mut Part,
    hart: u8,
    t: &Template,
    draws: &[u32; 16],
    nodes: u64,
) -> Result<Entered, OutOfMemory>
    requires hart { hart < length part.old.now.harts }
    requires few { HasFewForms t.now }
    requires vectors { AreVectors t.now.vectors }
    ensures entered { IfOk result (IsEnteredAs t.now hart draws.now nodes (here part.old) (here part.new)) }
    ensures kept { AreKept part.old part.new }
{
    let view = fetch_view(part, hart);
    let pc = part.hart(hart).pc;
    let walked = walk(part.memory(), view, pc, Kind::Fetch);
    if !matches!(walked.outcome, WalkEnd::Missing(_)) {
        // It has one answer, which takes no search.
        let pairs = pairs_of(alloc, view, t)?;
        return Ok(enter_settled(part, hart, &walked, pairs, nodes));
    }
    match fetch_answer(alloc, part, hart, t, draws, nodes)? {
        Solved::NoneFits => Ok(Entered::NoneFits),
        Solved::Spent => Ok(Entered::Spent),
        Solved::Found(x) => Ok(Entered::At(enter(part, hart, &x)?)),
    }
}

/// Answers the fetch of a `do` leaf where a hart stands, with the first two of the 16 draws and `nodes` for its budget, and
/// starts the page table entries of what is found. Where nothing is found, nothing is changed, and neither is by a refusal.
pub fn enter_fetch(
    alloc: Global,
    part: &mut Part,
    hart: u8,
    t: &Template,
    draws: &[u32; 16],
    nodes: u64,
) -> Result<Entered, OutOfMemory>
    requires hart { hart < length part.old.now.harts }
    requires few { HasFewForms t.now }
    requires vectors { AreVectors t.now.vectors }
    ensures entered { IfOk result (IsEnteredAs t.now hart draws.now nodes (here part.old) (here part.new)) }
    ensures kept { OnOk result (AreKept part.old part.new) }
    ensures refused { OnErr result (part.new ≡ part.old) }
{
    let mark = part.mark();
    match answer_and_enter(alloc, part, hart, t, draws, nodes) {
        Ok(entered) => Ok(entered),
        Err(error) => {
            part.rollback(mark);
            Err(error)
        }
    }
}
