// The search.
ghost use Rattle.std.specs.Prelude.{◌≡◌, ◌<◌, ◌≤◌, ◌+◌, ◌^◌, ℕ, length, IfOk, IfSome, MatchOption, Some, slice_get, true};
ghost use Rattle.gen_search.specs.Search.{Finished, IsLeaf, Outcome, SearchResult, Searches};
ghost use Rattle.tpl_ast.specs.Choices.{are_ways_fit, can_pick};
ghost use Rattle.gen_search.specs.Fit.{CanSearch};
ghost use Rattle.gen_search.specs.Steps.{longest_steps};
ghost use Rattle.gen_search.specs.Places.{AreMarked, AreOpen, ComesBack, Inside, IsOpen, untried, steps_left};
ghost use Rattle.gen_search.specs.Internal.Walks.{Ahead, ChoiceAhead, DeadAhead, IsWell, LeafAhead, Leads, with_draws};
ghost use Rattle.gen_search.specs.Answers.{AnswerIs, CountsTurns};
ghost use Rattle.gen_search.specs.Ready.{AllowsAll, AreAllowed, BodiesAreReady, CanComeBack, IsChoiceReady, IsReady, parts_of_ways};
ghost use Rattle.gen_search.specs.Wholes.{wholes};

use crate::choice::{Choice, cyclic_way, next_open, open_choice, picked};
use crate::draws::{draw, leaf_draws};
use crate::place::Place;
use crate::walk::{Leaf, Walk};
use crate::{OutOfMemory, PartialTest, Tally, Turn};
use rand_pcg::Lcg64Xsh32;
use std::alloc::Global;
use tpl_ast::{HartDecl, Item};

/// The answer of a search.
#[derive(Clone, Copy, Debug, PartialEq, Eq)]
pub enum Answer {
    /// The test is done, and stands.
    Done,
    /// All leaf turns were made, and a further one was needed.
    GaveUp {
        /// Leaf turns that nothing fitted.
        none_fits: u64,
        /// Leaf turns of which a problem was larger than its budget.
        spent: u64,
        /// The line of the last dead leaf in the template's text, from 1, or 0 where none was dead.
        last_line: u32,
    },
}

/// Takes the next alternative of a choice, which has one.
fn take_way<'t, P: PartialTest>(
    alloc: Global,
    walk: &mut Walk<'t>,
    part: &mut P,
    choice: Choice<'t>,
) -> Result<(), OutOfMemory>
    requires choice { IsOpen choice }
    requires left { choice.tried < length choice.ways.now }
    requires stands { choice.mark ≡ length (P.earlier part.old) }
    requires others { AreOpen walk.old.choices.items }
    requires marked { AreMarked walk.old.start walk.old.choices.items choice.mark }
    ensures same { IfOk result (λ _. (turns : ℕ) (o : Outcome P.Whole) → Ahead P.rules turns (wholes (P.earlier part.new) (P.whole part.new)) (P.whole part.new) walk.new o → Inside P.rules turns (wholes (P.earlier part.old) (P.whole part.old)) walk.old.choices.items (ComesBack P.rules turns (untried choice.entry) choice.entry.place (Some (P.whole part.old)) walk.old.tally) o) }
    ensures well { IfOk result (λ _. IsWell (length (P.earlier part.new)) walk.new) }
    ensures steps { IfOk result (λ _. steps_left walk.new.place ≤ 2 + longest_steps choice.entry.ways.now + steps_left choice.entry.place) }
    ensures ready { IfOk result (λ _. (first : P.Whole) → AllowsAll P.can_take first (P.whole part.old) → CanComeBack P.can_take first (wholes (P.earlier part.old) (P.whole part.old)) walk.old → IsChoiceReady P.can_take first (wholes (P.earlier part.old) (P.whole part.old)) choice.entry → IsReady P.can_take first (wholes (P.earlier part.new) (P.whole part.new)) (P.whole part.new) walk.new) }
    ensures tally { walk.new.tally ≡ walk.old.tally }
    ensures start { walk.new.start ≡ walk.old.start }
    ensures harts { walk.new.harts ≡ walk.old.harts }
    ensures first { IfOk result (λ _. slice_get (wholes (P.earlier part.new) (P.whole part.new)) walk.old.start ≡ slice_get (wholes (P.earlier part.old) (P.whole part.old)) walk.old.start) }
    ensures turned { P.turned part.new ≡ P.turned part.old }
{
    let way = cyclic_way(choice.picked, choice.tried, choice.ways.len());
    part.take_choice(way as u32)?;
    walk.place = choice.place.copy(alloc)?;
    walk.place.enter(1, &choice.ways[way].1)?;
    open_choice(
        &mut walk.choices,
        Choice {
            mark: choice.mark,
            place: choice.place,
            ways: choice.ways,
            picked: choice.picked,
            tried: choice.tried + 1,
        },
    )?;
    Ok(())
}

/// Enters a choice, which was the next item.
fn choose<'t, P: PartialTest>(
    alloc: Global,
    walk: &mut Walk<'t>,
    part: &mut P,
    ways: &'t [(u32, Vec<Item>)],
) -> Result<(), OutOfMemory>
    requires well { IsWell (length (P.earlier part.old)) walk.old }
    requires can_pick { can_pick ways.now ≡ true }
    requires ways { are_ways_fit ways.now ≡ true }
    ensures same { IfOk result (λ _. (turns : ℕ) (o : Outcome P.Whole) → Ahead P.rules turns (wholes (P.earlier part.new) (P.whole part.new)) (P.whole part.new) walk.new o → ChoiceAhead P.rules turns (wholes (P.earlier part.old) (P.whole part.old)) (P.whole part.old) walk.old ways.now o) }
    ensures well { IfOk result (λ _. IsWell (length (P.earlier part.new)) walk.new) }
    ensures steps { IfOk result (λ _. steps_left walk.new.place ≤ 2 + longest_steps ways.now + steps_left walk.old.place) }
    ensures ready { IfOk result (λ _. (first : P.Whole) → IsReady P.can_take first (wholes (P.earlier part.old) (P.whole part.old)) (P.whole part.old) walk.old → AreAllowed (P.can_take first) walk.old.place.hart (parts_of_ways ways.now) → IsReady P.can_take first (wholes (P.earlier part.new) (P.whole part.new)) (P.whole part.new) walk.new) }
    ensures tally { walk.new.tally ≡ with_draws walk.new.tally.draws walk.old.tally }
    ensures start { walk.new.start ≡ walk.old.start }
    ensures harts { walk.new.harts ≡ walk.old.harts }
    ensures first { IfOk result (λ _. slice_get (wholes (P.earlier part.new) (P.whole part.new)) walk.old.start ≡ slice_get (wholes (P.earlier part.old) (P.whole part.old)) walk.old.start) }
    ensures turned { P.turned part.new ≡ P.turned part.old }
{
    let picked = picked(ways, draw(&mut walk.tally.draws));
    let choice = Choice {
        mark: part.mark(),
        place: walk.place.copy(alloc)?,
        ways,
        picked,
        tried: 0,
    };
    take_way(alloc, walk, part, choice)?;
    Ok(())
}

/// Goes on to the next leaf; None where nothing is left.
fn to_leaf<'t, P: PartialTest>(
    alloc: Global,
    walk: &mut Walk<'t>,
    part: &mut P,
) -> Result<Option<Leaf<'t>>, OutOfMemory>
    requires well { IsWell (length (P.earlier part.old)) walk.old }
    requires ready { (first : P.Whole) × IsReady P.can_take first (wholes (P.earlier part.old) (P.whole part.old)) (P.whole part.old) walk.old }
    ensures done { IfOk result (λ found. MatchOption found ((turns : ℕ) → Ahead P.rules turns (wholes (P.earlier part.old) (P.whole part.old)) (P.whole part.old) walk.old (Finished (P.whole part.new) walk.new.tally)) (λ leaf. (turns : ℕ) (o : Outcome P.Whole) → LeafAhead P.rules turns (wholes (P.earlier part.new) (P.whole part.new)) (P.whole part.new) walk.new leaf o → Ahead P.rules turns (wholes (P.earlier part.old) (P.whole part.old)) (P.whole part.old) walk.old o)) }
    ensures leaf { IfOk result (λ o. IfSome o (λ leaf. IsLeaf leaf.item.now leaf.line)) }
    ensures well { IfOk result (λ o. IfSome o (λ _. IsWell (length (P.earlier part.new)) walk.new)) }
    ensures ready { IfOk result (λ o. IfSome o (λ leaf. (first : P.Whole) → IsReady P.can_take first (wholes (P.earlier part.old) (P.whole part.old)) (P.whole part.old) walk.old → IsReady P.can_take first (wholes (P.earlier part.new) (P.whole part.new)) (P.whole part.new) walk.new × P.can_take first walk.new.place.hart leaf.item.now)) }
    ensures tally { walk.new.tally ≡ with_draws walk.new.tally.draws walk.old.tally }
    ensures start { walk.new.start ≡ walk.old.start }
    ensures harts { walk.new.harts ≡ walk.old.harts }
    ensures first { IfOk result (λ _. slice_get (wholes (P.earlier part.new) (P.whole part.new)) walk.old.start ≡ slice_get (wholes (P.earlier part.old) (P.whole part.old)) walk.old.start) }
    ensures turned { P.turned part.new ≡ P.turned part.old }
{
    while let Some(item) = walk.place.next_item()? {
        match item {
            Item::Leaf { line, wishes: _ } => return Ok(Some(Leaf { item, line: *line })),
            Item::FetchFault { line, causes: _ } => return Ok(Some(Leaf { item, line: *line })),
            Item::Seq(body) => walk.place.enter(1, body)?,
            Item::Repeat { times, body } => walk.place.enter(*times, body)?,
            Item::Choose { line: _, ways } => choose(alloc, walk, part, ways)?,
            Item::Label { name } => part.bind_label(walk.place.hart, *name)?,
        }
    }
    Ok(None)
}

/// Goes back, from a dead leaf, to the innermost choice with an alternative that was not tried, or to the beginning.
fn go_back<'t, P: PartialTest>(
    alloc: Global,
    walk: &mut Walk<'t>,
    part: &mut P,
) -> Result<(), OutOfMemory>
    requires choices { AreOpen walk.old.choices.items }
    requires marked { AreMarked walk.old.start walk.old.choices.items (length (P.earlier part.old)) }
    requires harts { CanSearch walk.old.harts.now }
    requires few { length walk.old.harts.now < 2 ^ 32 }
    ensures same { IfOk result (λ _. (turns : ℕ) (first : P.Whole) (r : SearchResult P.Whole) → slice_get (wholes (P.earlier part.old) (P.whole part.old)) walk.old.start ≡ Some first → Leads P.rules turns walk.old.harts.now first (Ahead P.rules turns (wholes (P.earlier part.new) (P.whole part.new)) (P.whole part.new) walk.new) r → Leads P.rules turns walk.old.harts.now first (DeadAhead P.rules turns (wholes (P.earlier part.old) (P.whole part.old)) walk.old) r) }
    ensures well { IfOk result (λ _. IsWell (length (P.earlier part.new)) walk.new) }
    ensures ready { IfOk result (λ _. (first : P.Whole) → CanComeBack P.can_take first (wholes (P.earlier part.old) (P.whole part.old)) walk.old → IsReady P.can_take first (wholes (P.earlier part.new) (P.whole part.new)) (P.whole part.new) walk.new) }
    ensures tally { walk.new.tally ≡ walk.old.tally }
    ensures start { walk.new.start ≡ walk.old.start }
    ensures harts { walk.new.harts ≡ walk.old.harts }
    ensures first { IfOk result (λ _. slice_get (wholes (P.earlier part.new) (P.whole part.new)) walk.old.start ≡ slice_get (wholes (P.earlier part.old) (P.whole part.old)) walk.old.start) }
    ensures turned { P.turned part.new ≡ P.turned part.old }
{
    match next_open(&mut walk.choices) {
        Some(choice) => {
            part.rollback(choice.mark);
            take_way(alloc, walk, part, choice)?;
            Ok(())
        }
        None => {
            part.rollback(walk.start);
            walk.place = Place::first(alloc, walk.harts)?;
            Ok(())
        }
    }
}

/// A leaf turn, and what it comes to.
fn take_turn<'t, P: PartialTest>(
    alloc: Global,
    walk: &mut Walk<'t>,
    part: &mut P,
    leaf: Leaf<'t>,
) -> Result<(), OutOfMemory>
    requires well { IsWell (length (P.earlier part.old)) walk.old }
    requires ready { (first : P.Whole) × IsReady P.can_take first (wholes (P.earlier part.old) (P.whole part.old)) (P.whole part.old) walk.old × P.can_take first walk.old.place.hart leaf.item.now }
    requires leaf { IsLeaf leaf.item.now leaf.line }
    requires harts { CanSearch walk.old.harts.now }
    requires few { length walk.old.harts.now < 2 ^ 32 }
    requires counted { walk.old.tally.none_fits + walk.old.tally.spent ≤ walk.old.tally.turns }
    requires more { walk.old.tally.turns + 1 < 2 ^ 64 }
    ensures same { IfOk result (λ _. (turns : ℕ) (first : P.Whole) (r : SearchResult P.Whole) → walk.old.tally.turns < turns → slice_get (wholes (P.earlier part.old) (P.whole part.old)) walk.old.start ≡ Some first → Leads P.rules turns walk.old.harts.now first (Ahead P.rules turns (wholes (P.earlier part.new) (P.whole part.new)) (P.whole part.new) walk.new) r → Leads P.rules turns walk.old.harts.now first (LeafAhead P.rules turns (wholes (P.earlier part.old) (P.whole part.old)) (P.whole part.old) walk.old leaf.entry) r) }
    ensures well { IfOk result (λ _. IsWell (length (P.earlier part.new)) walk.new) }
    ensures ready { IfOk result (λ _. (first : P.Whole) → IsReady P.can_take first (wholes (P.earlier part.old) (P.whole part.old)) (P.whole part.old) walk.old → IsReady P.can_take first (wholes (P.earlier part.new) (P.whole part.new)) (P.whole part.new) walk.new) }
    ensures turns { walk.new.tally.turns ≡ walk.old.tally.turns + 1 }
    ensures counted { walk.new.tally.none_fits + walk.new.tally.spent ≤ walk.new.tally.turns }
    ensures start { walk.new.start ≡ walk.old.start }
    ensures harts { walk.new.harts ≡ walk.old.harts }
    ensures first { IfOk result (λ _. slice_get (wholes (P.earlier part.new) (P.whole part.new)) walk.old.start ≡ slice_get (wholes (P.earlier part.old) (P.whole part.old)) walk.old.start) }
    ensures turned { IfOk result (λ _. P.turned part.new ≡ P.turned part.old + 1) }
    ensures at_most { P.turned part.new ≤ P.turned part.old + 1 }
{
    let draws = leaf_draws(&mut walk.tally.draws);
    walk.tally.turns += 1;
    match part.turn(walk.place.hart, leaf.item, &draws)? {
        Turn::Taken => Ok(()),
        Turn::NoneFits => {
            walk.tally.none_fits += 1;
            walk.tally.last_line = leaf.line;
            go_back(alloc, walk, part)?;
            Ok(())
        }
        Turn::Spent => {
            walk.tally.spent += 1;
            walk.tally.last_line = leaf.line;
            go_back(alloc, walk, part)?;
            Ok(())
        }
    }
}

/// Searches for a test of the harts' bodies, from the test that stands, with the draws of a seed and at most so many leaf
/// turns. The test that it began from still stands at its number afterwards. The one error is that there is no memory.
pub fn search<P: PartialTest>(
    alloc: Global,
    part: &mut P,
    harts: &[HartDecl],
    seed: u64,
    turns: u64,
) -> Result<Answer, OutOfMemory>
    requires can_search { CanSearch harts.now }
    requires few { length harts.now < 2 ^ 32 }
    requires ready { BodiesAreReady (P.can_take (P.whole part.old)) harts.now }
    ensures searches { IfOk result (λ a. (r : SearchResult P.Whole) × Searches P.rules harts.now seed turns (P.whole part.old) r × AnswerIs r (P.whole part.new) a × CountsTurns r turns (P.turned part.old) (P.turned part.new)) }
    ensures first { IfOk result (λ _. slice_get (wholes (P.earlier part.new) (P.whole part.new)) (length (P.earlier part.old)) ≡ Some (P.whole part.old)) }
    ensures turns { P.turned part.new ≤ P.turned part.old + turns }
{
    let mut walk = Walk {
        start: part.mark(),
        harts,
        place: Place::first(alloc, harts)?,
        choices: Vec::new(alloc),
        tally: Tally {
            draws: Lcg64Xsh32::new(seed, 0),
            turns: 0,
            none_fits: 0,
            spent: 0,
            last_line: 0,
        },
    };
    loop {
        let Some(leaf) = to_leaf(alloc, &mut walk, part)? else {
            return Ok(Answer::Done);
        };
        if walk.tally.turns >= turns {
            return Ok(Answer::GaveUp {
                none_fits: walk.tally.none_fits,
                spent: walk.tally.spent,
                last_line: walk.tally.last_line,
            });
        }
        take_turn(alloc, &mut walk, part, leaf)?;
    }
}
