// The answer of a `fault` leaf.
ghost use Rattle.std.specs.Prelude.{◌≡◌, ◌<◌, Bool, List, length, IfOk};
ghost use Rattle.dom_set.specs.Elements.{is_in};
ghost use Rattle.foot_map.specs.declared.touch.Touch.{Touch as ATouch};
ghost use Rattle.foot_map.specs.Races.{IsFootprint};
ghost use Rattle.tpl_admit.specs.Races.{footprints_of};
ghost use Rattle.part_machine.specs.Whole.{records_of};
ghost use Rattle.part_state.specs.State.{here};
ghost use Rattle.fd_prob.specs.declared.problem.Assignment.{Assignment as AnAssignment};
ghost use Rattle.fd_solve.specs.declared.answers.Solved.TheVariants.{Found};
ghost use Rattle.leaf_link.specs.Answers.{values_in};
ghost use Rattle.leaf_link.specs.FetchAnswers.{IsFaultAnswer};
ghost use Rattle.turn_laws.specs.Ahead.{AreVectors};
ghost use Rattle.turn_laws.specs.Given.{Setting, turn_at};
ghost use Rattle.leaf_turn.specs.declared.taking.Fetch.TheVariants.{Fails};
ghost use Rattle.leaf_turn.specs.Answers.{IsPlayable};
ghost use Rattle.leaf_turn.specs.Entering.{root_at};
ghost use Rattle.leaf_turn.specs.Grounds.{HasFewForms, IsSettingOf};

use crate::OutOfMemory;
use crate::entering::{footprints_exist, walks_of};
use crate::known::known_is_words;
use crate::laws::answers_are_playable;
use crate::stand::bare_stand;
use dom_set::Set;
use fd_solve::{Solved, solve};
use leaf_link::fetch_answers_are_exact;
use leaf_pose::fault_problem;
use part_state::Part;
use std::alloc::Global;
use tpl_ast::Template;

/// The answer of a `fault` leaf where a hart of a test stands: page table entries, and a vector, with which its fetch fails
/// with a listed cause. The first two draws are for the entries, and the last one is for the vector.
pub fn fault_answer(
    alloc: Global,
    part: &Part,
    hart: u8,
    t: &Template,
    causes: &Set,
    draws: &[u32; 16],
    nodes: u64,
) -> Result<Solved, OutOfMemory>
    requires hart { hart < length part.now.now.harts }
    requires few { HasFewForms t.now }
    requires vectors { AreVectors t.now.vectors }
    ensures answer { IfOk result (λ answer. (s : Setting) (feet : List ATouch) → IsSettingOf t.now s → IsFootprint feet (footprints_of (λ k. records_of k (here part.now))) → IsFaultAnswer (turn_at s feet hart (here part.now)) (is_in causes.now) draws.now nodes answer) }
    ensures playable { IfOk result (λ answer. (x : AnAssignment) → answer ≡ Found x → IsPlayable hart (here part.now) (Fails (root_at hart (here part.now))) (values_in x)) }
{
    fetch_answers_are_exact();
    answers_are_playable();
    known_is_words(part, hart);
    footprints_exist(part);
    let walks = walks_of(alloc, part, hart, t)?;
    let none = Set::new(alloc);
    let stand = bare_stand(part, hart, t, &[], &none);
    let problem = fault_problem(
        alloc,
        &stand,
        &walks.forms,
        walks.pairs,
        &walks.ways,
        draws,
        causes,
    )?;
    Ok(solve(alloc, &problem, nodes)?)
}
