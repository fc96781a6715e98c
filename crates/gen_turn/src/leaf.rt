// The turns of leaves.
ghost use Rattle.std.specs.Prelude.{◌≡◌, ◌<◌, ◌≤◌, true, List, length, OnOk, OnErr, IfOk};
ghost use Rattle.std.specs.List.{list_all};
ghost use Rattle.rv_script.specs.Folds.{Entry as AnEntry};
ghost use Rattle.tpl_ast.specs.Leaves.{atoms_of, is_name_below};
ghost use Rattle.tpl_ast.specs.Limits.{most_atoms};
ghost use Rattle.part_state.specs.State.{here};
ghost use Rattle.leaf_link.specs.Answers.{values_in};
ghost use Rattle.gen_search.specs.Wholes.{answered};
ghost use Rattle.leaf_turn.specs.Answers.{AreKept, IsPlayable};
ghost use Rattle.leaf_turn.specs.Entering.{Leads};
ghost use Rattle.gen_turn.specs.Drafts.{drafted};
ghost use Rattle.gen_turn.specs.Grounds.{IsGround, IsLeafOf, IsSameGround};
ghost use Rattle.gen_turn.specs.Turns.{IsAnswered, IsDone, IsFailed, IsLeafTaken};

use crate::binding::bind_names;
use crate::dropping::drop_biases;
use dom_set::Set;
use fd_prob::Assignment;
use fd_solve::Solved;
use gen_search::Turn;
use leaf_turn::{
    Entered, Fetch, OutOfMemory, Step, answers_are_playable, enter_fetch, fault_answer,
    known_is_words, leaf_answer, root_of, take,
};
use part_state::Part;
use std::alloc::Global;
use tpl_admit::Moment;
use tpl_ast::{Template, Wish};

/// Takes the step of an answer, binds the names of the mandatory atoms and the kept biases, and lists the biases that were
/// not kept.
fn take_bind_and_list(
    part: &mut Part,
    hart: u8,
    fetch: Fetch,
    wishes: &[Wish],
    dropped: &[(u32, bool)],
    x: &Assignment,
) -> Result<(), OutOfMemory>
    requires hart { hart < length part.old.now.harts }
    requires playable { IsPlayable hart (here part.old) fetch (values_in x.now) }
    requires below { list_all (is_name_below (length part.old.now.names)) (atoms_of wishes.now) ≡ true }
    requires short { length wishes.now ≤ most_atoms }
    ensures taken { OnOk result (IsLeafTaken hart wishes.now dropped.now (values_in x.now) (here part.old) (here part.new)) }
    ensures ground { OnOk result (IsSameGround (here part.old) (here part.new)) }
    ensures kept { AreKept part.old part.new }
{
    // No test has so many steps.
    let Ok(step) = u32::try_from(part.records(hart).len()) else {
        return Err(OutOfMemory);
    };
    let Step { record, before } = take(part, hart, fetch, x)?;
    let moment = Moment {
        done: &record,
        regs: &before,
        names: &[],
        others: &[],
    };
    bind_names(part, &moment, dropped, wishes)?;
    drop_biases(part, hart, step, wishes, dropped)?;
    part.is_test();
    known_is_words(part, hart);
    Ok(())
}

/// Answers a `do` leaf of a hart whose pc leads to a physical address, and takes the step of what is found.
fn answer_and_take(
    alloc: Global,
    part: &mut Part,
    t: &Template,
    nodes: u64,
    hart: u8,
    pa: u32,
    wishes: &[Wish],
    draws: &[u32; 16],
) -> Result<Turn, OutOfMemory>
    requires ground { IsGround (drafted t.now nodes (here part.old)) hart }
    requires leaf { IsLeafOf t.now wishes.now }
    requires leads { (walk : List AnEntry) × Leads hart (here part.old) walk pa }
    ensures turned { IfOk result (λ turn. IsAnswered (drafted t.now nodes (here part.old)) hart wishes.now draws.now (answered turn (drafted t.now nodes (here part.new)))) }
    ensures ground { OnOk result (IsSameGround (here part.old) (here part.new)) }
    ensures kept { AreKept part.old part.new }
{
    answers_are_playable();
    let answer = leaf_answer(alloc, part, hart, pa, t, wishes, draws, nodes)?;
    match answer.solved {
        Solved::NoneFits => Ok(Turn::NoneFits),
        Solved::Spent => Ok(Turn::Spent),
        Solved::Found(x) => {
            take_bind_and_list(
                part,
                hart,
                Fetch::From(pa),
                wishes,
                answer.dropped.as_slice(),
                &x,
            )?;
            Ok(Turn::Taken)
        }
    }
}

/// Answers the fetch of a `do` leaf of a hart, starts the page table entries of what is found, and goes on with the leaf.
fn enter_and_answer(
    alloc: Global,
    part: &mut Part,
    t: &Template,
    nodes: u64,
    hart: u8,
    wishes: &[Wish],
    draws: &[u32; 16],
) -> Result<Turn, OutOfMemory>
    requires ground { IsGround (drafted t.now nodes (here part.old)) hart }
    requires leaf { IsLeafOf t.now wishes.now }
    ensures turned { IfOk result (λ turn. IsDone (drafted t.now nodes (here part.old)) hart wishes.now draws.now (answered turn (drafted t.now nodes (here part.new)))) }
    ensures ground { OnOk result (IsSameGround (here part.old) (here part.new)) }
    ensures kept { AreKept part.old part.new }
{
    match enter_fetch(alloc, part, hart, t, draws, nodes)? {
        Entered::NoneFits => Ok(Turn::NoneFits),
        Entered::Spent => Ok(Turn::Spent),
        Entered::At(pa) => {
            part.is_test();
            known_is_words(part, hart);
            answer_and_take(alloc, part, t, nodes, hart, pa, wishes, draws)
        }
    }
}

/// Makes the turn of a `do` leaf of a hart, with the 16 draws of the turn and `nodes` for the budget of each of its
/// problems. A refusal changes nothing.
pub fn turn_leaf(
    alloc: Global,
    part: &mut Part,
    t: &Template,
    nodes: u64,
    hart: u8,
    wishes: &[Wish],
    draws: &[u32; 16],
) -> Result<Turn, OutOfMemory>
    requires ground { IsGround (drafted t.now nodes (here part.old)) hart }
    requires leaf { IsLeafOf t.now wishes.now }
    ensures turned { IfOk result (λ turn. IsDone (drafted t.now nodes (here part.old)) hart wishes.now draws.now (answered turn (drafted t.now nodes (here part.new)))) }
    ensures ground { OnOk result (IsSameGround (here part.old) (here part.new)) }
    ensures kept { OnOk result (AreKept part.old part.new) }
    ensures refused { OnErr result (part.new ≡ part.old) }
{
    let mark = part.mark();
    match enter_and_answer(alloc, part, t, nodes, hart, wishes, draws) {
        Ok(turn) => Ok(turn),
        Err(error) => {
            part.rollback(mark);
            Err(error)
        }
    }
}

/// Answers a `fault` leaf of a hart, and takes the step of what is found.
fn answer_fault(
    alloc: Global,
    part: &mut Part,
    t: &Template,
    nodes: u64,
    hart: u8,
    causes: &Set,
    draws: &[u32; 16],
) -> Result<Turn, OutOfMemory>
    requires ground { IsGround (drafted t.now nodes (here part.old)) hart }
    ensures turned { IfOk result (λ turn. IsFailed (drafted t.now nodes (here part.old)) hart causes.now draws.now (answered turn (drafted t.now nodes (here part.new)))) }
    ensures ground { OnOk result (IsSameGround (here part.old) (here part.new)) }
    ensures kept { AreKept part.old part.new }
{
    match fault_answer(alloc, part, hart, t, causes, draws, nodes)? {
        Solved::NoneFits => Ok(Turn::NoneFits),
        Solved::Spent => Ok(Turn::Spent),
        Solved::Found(x) => {
            // No atom binds a name, and there are no biases.
            let fetch = Fetch::Fails(root_of(part, hart));
            take_bind_and_list(part, hart, fetch, &[], &[], &x)?;
            Ok(Turn::Taken)
        }
    }
}

/// Makes the turn of a `fault` leaf of a hart, with the 16 draws of the turn and `nodes` for the budget of its problem. A
/// refusal changes nothing.
pub fn turn_fault(
    alloc: Global,
    part: &mut Part,
    t: &Template,
    nodes: u64,
    hart: u8,
    causes: &Set,
    draws: &[u32; 16],
) -> Result<Turn, OutOfMemory>
    requires ground { IsGround (drafted t.now nodes (here part.old)) hart }
    ensures turned { IfOk result (λ turn. IsFailed (drafted t.now nodes (here part.old)) hart causes.now draws.now (answered turn (drafted t.now nodes (here part.new)))) }
    ensures ground { OnOk result (IsSameGround (here part.old) (here part.new)) }
    ensures kept { OnOk result (AreKept part.old part.new) }
    ensures refused { OnErr result (part.new ≡ part.old) }
{
    let start = part.mark();
    match answer_fault(alloc, part, t, nodes, hart, causes, draws) {
        Ok(turn) => Ok(turn),
        Err(error) => {
            part.rollback(start);
            Err(error)
        }
    }
}
