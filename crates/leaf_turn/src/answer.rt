// The answer of a leaf.
ghost use Rattle.std.specs.Prelude.{◌≡◌, ◌<◌, ◌%◌, ◌^◌, true, false, ℕ, List, length, map, All, IfOk, IfSome};
ghost use Rattle.std.specs.List.{AllByRecursion};
ghost use Rattle.foot_map.specs.declared.touch.Touch.{Touch as ATouch};
ghost use Rattle.foot_map.specs.Races.{IsFootprint};
ghost use Rattle.tpl_ast.specs.Leaves.{IsPlain, atoms_of};
ghost use Rattle.tpl_admit.specs.Races.{footprints_of};
ghost use Rattle.part_machine.specs.Whole.{records_of};
ghost use Rattle.part_state.specs.State.{here};
ghost use Rattle.turn_laws.specs.Given.{Setting, turn_at};
ghost use Rattle.leaf_turn.specs.Entering.{Leads};
ghost use Rattle.leaf_turn.specs.Grounds.{HasFewForms, IsSettingOf};
ghost use Rattle.data_bytes.specs.Frames.{AreFrames};
ghost use Rattle.leaf_turn.specs.Built.{lets_data};
ghost use Rattle.leaf_turn.specs.Wishes.{biases_of, mandatory_of};
ghost use Rattle.fd_prob.specs.declared.problem.Assignment.{Assignment as AnAssignment};
ghost use Rattle.fd_solve.specs.declared.answers.Solved.TheVariants.{Found};
ghost use Rattle.leaf_link.specs.Answers.{values_in};
ghost use Rattle.leaf_link.specs.Cases.{HasSources};
ghost use Rattle.turn_laws.specs.Ahead.{AreVectors};
ghost use Rattle.leaf_turn.specs.Answers.{IsFound};
ghost use Rattle.rv_script.specs.Folds.{Entry};
ghost use Rattle.fd_prob.specs.declared.problem.Extra.{Extra as AnExtra};
ghost use Rattle.dom_set.specs.Elements.{is_in};
ghost use Rattle.leaf_link.specs.Reaching.{HasPages};
ghost use Rattle.rv_mem.specs.Frames.{in_frames};
ghost use Rattle.leaf_link.specs.Turns.{Turn};
ghost use Rattle.leaf_link.specs.Extras.{AllPlain, IsTurnLeafAnswer};
ghost use Rattle.leaf_link.specs.KindLaws.{IsPosed};
ghost use Rattle.leaf_stand.specs.Posed.{are_posable};
ghost use Rattle.leaf_stand.specs.Relations.{are_between};
ghost use Rattle.leaf_stand.specs.Stands.{IsStandOf};
ghost use Rattle.tpl_ast.specs.declared.template.Atom.{Atom as AnAtom};
ghost use Rattle.leaf_pose.specs.Posed.{AreShaped};
ghost use Rattle.leaf_turn.specs.Internal.Asking.{AreExtrasOf, AreOfCases};

use crate::OutOfMemory;
use crate::built::leaves_with_accesses_are_posable;
use crate::entering::{data_view, pairs_of};
use crate::known::known_is_words;
use crate::laws::answers_are_found;
use crate::memory::accesses_for;
use crate::stand::{names_of, others_of, sources_of, stand_of};
use crate::wishes::{biases_of, mandatory_of};
use fd_prob::Extra;
use fd_solve::{LeafAnswer, solve_leaf};
use leaf_link::{biases_are_kept, data_rows_exist};
use leaf_pose::{Posed, Stand, extra_of, leaves_are_between, problem_of};
use part_state::Part;
use std::alloc::Global;
use tpl_ast::{Atom, Template, Wish};

/// What each bias adds to the problem of a leaf that was posed on the same stand.
fn extras_of(
    alloc: Global,
    stand: &Stand,
    biases: &[Vec<Atom>],
    posed: &Posed,
) -> Result<Vec<Extra>, OutOfMemory>
    requires between { All (λ b. are_between b.items ≡ true) biases.now }
    ensures extras { IfOk result (λ extras. (leaf : List AnAtom) → AreShaped stand.now leaf posed.now.shapes posed.now.problem.cases → AreExtrasOf stand.now leaf (map (λ b. b.items) biases.now) posed.now.problem extras.items) }
    ensures places { IfOk result (λ extras. AreOfCases posed.now.shapes extras.items) }
{
    let mut extras = Vec::new(alloc);
    for bias in biases {
        extras.push(extra_of(alloc, stand, bias, posed)?)?;
    }
    Ok(extras)
}

/// The answer of a leaf where a hart stands: which biases are kept, and the first of what meets them and the atoms, in the
/// order of the draws, or that nothing does, or that the budget of `nodes` is spent.
pub fn answer_of(
    alloc: Global,
    stand: &Stand,
    atoms: &[Atom],
    biases: &[Vec<Atom>],
    draws: &[u32; 16],
    nodes: u64,
) -> Result<LeafAnswer, OutOfMemory>
    requires between { are_between atoms.now ≡ true }
    requires biases { All (λ b. are_between b.items ≡ true) biases.now }
    requires posable { are_posable stand.now atoms.now ≡ true }
    ensures { IfOk result (λ answer. (t : Turn) (walk : List Entry) (pa : ℕ) → IsStandOf stand.now t walk pa → IsPosed t walk pa atoms.now → IfSome stand.now.accesses (λ a. HasPages t atoms.now (is_in a.pages)) → AllPlain (map (λ b. b.items) biases.now) → IsTurnLeafAnswer t pa atoms.now (map (λ b. b.items) biases.now) draws.now nodes answer) }
{
    biases_are_kept();
    data_rows_exist();
    let posed = problem_of(alloc, stand, atoms, draws)?;
    let extras = extras_of(alloc, stand, biases, &posed)?;
    Ok(solve_leaf(alloc, &posed.problem, &extras, nodes)?)
}

/// The answer of a `do` leaf where a hart of a test stands and its pc leads to a physical address, with the leaf's biases.
/// The mandatory atoms say what an untouched source may have. The first two draws are for the entries of its fetch, the
/// others for the variables in their order. Dropped biases are told by their positions among the leaf's biases, from 0.
pub fn leaf_answer(
    alloc: Global,
    part: &Part,
    hart: u8,
    pa: u32,
    t: &Template,
    wishes: &[Wish],
    draws: &[u32; 16],
    nodes: u64,
) -> Result<LeafAnswer, OutOfMemory>
    requires hart { hart < length part.now.now.harts }
    requires names { length part.now.now.names ≡ length t.now.names }
    requires few { length t.now.names < 2 ^ 32 }
    requires forms { HasFewForms t.now }
    requires leads { (walk : List Entry) × Leads hart (here part.now) walk pa }
    requires aligned { pa % 4 ≡ 0 }
    requires plain { AllByRecursion IsPlain (atoms_of wishes.now) }
    requires frames { AreFrames t.now.pool }
    requires apart { (v : ℕ) → in_frames t.now.tables v ≡ true → in_frames t.now.pool v ≡ false }
    requires vectors { AreVectors t.now.vectors }
    ensures answer { IfOk result (λ answer. (s : Setting) (feet : List ATouch) → IsSettingOf t.now s → HasSources (turn_at s feet hart (here part.now)) (mandatory_of wishes.now) → IsFootprint feet (footprints_of (λ k. records_of k (here part.now))) → IsTurnLeafAnswer (turn_at s feet hart (here part.now)) pa (mandatory_of wishes.now) (biases_of wishes.now) draws.now nodes answer) }
    ensures found { IfOk result (λ answer. (x : AnAssignment) → answer.solved ≡ Found x → IsFound hart (here part.now) pa (values_in x)) }
{
    leaves_are_between();
    answers_are_found();
    leaves_with_accesses_are_posable();
    known_is_words(part, hart);
    let atoms = mandatory_of(alloc, wishes)?;
    let biases = biases_of(alloc, wishes)?;
    let names = names_of(alloc, part, t)?;
    let sources = sources_of(alloc, part, hart, t, &names, &atoms)?;
    let pairs = pairs_of(alloc, data_view(part, hart), t)?;
    let accesses = accesses_for(alloc, part, hart, pa, t, &names, wishes, &atoms)?;
    let others = others_of(alloc, part, hart)?;
    let stand = stand_of(
        part, hart, pa, pairs, t, &names, &sources, &others, accesses,
    );
    answer_of(alloc, &stand, &atoms, &biases, draws, nodes)
}
