// Biases, taken one after another. What is known of the problem with the biases that were kept spares most searches: where
// nothing fits it, nothing fits it with a further bias, and where an assignment that fits it fits it with the bias too, the
// bias is kept.
ghost use Rattle.std.specs.Prelude.{◌≡◌, ◌+◌, ◌-◌, ◌<◌, ◌≤◌, ◌++◌, ◌∷◌, [], false, true, All, IfOk, OnOk, length, slice_index_or, slice_set};
ghost use Rattle.fd_prob.specs.Fitting.{IsCase, IsProblem};
ghost use Rattle.fd_prob.specs.Spaces.{space};
ghost use Rattle.fd_solve.specs.Answers.{IsAnswer, IsLeafAnswer, NothingFits};
ghost use Rattle.fd_solve.specs.Internal.Equivalent.{AreTried};
ghost use Rattle.fd_solve.specs.Internal.Known.{IsKnown, has_none, was_spent};
ghost use Rattle.fd_solve.specs.Internal.Marks.{IsSound, whole_of, with_marked};
ghost use Rattle.fd_solve.specs.Internal.Ready.{IsReady};
ghost use Rattle.fd_solve.specs.Internal.Shrinking.{shrinks};
ghost use Rattle.fd_solve.specs.Internal.Taking.{IsTakenBy, IsTold, kept_of};

use crate::answers::{LeafAnswer, Solved};
use crate::firsts::cut_problem;
use crate::known::{Known, answer_after, known_after};
use crate::marked::{Marked, base_of};
use crate::operations::answer_alone;
use crate::ready::Ready;
use crate::sought::Tried;
use dom_set::{OutOfMemory, Set};
use fd_prob::{Case, Extra, Items, Problem, Slot};
use std::alloc::Global;

/// Whether a bias cuts no variable whose cut may make the space of a problem larger.
fn shrinks(bias: &Extra) -> bool
    ensures { result ≡ shrinks bias.now }
{
    bias.cuts
        .as_slice()
        .iter()
        .all(|cut| !matches!(cut.0, Slot::Op | Slot::A))
}

/// What is known of the problem with its marked biases, of which the last one is a further bias, and the narrow cases that a
/// search made.
fn known_next(
    alloc: Global,
    before: &Known,
    ready: &mut Ready,
    marked: &Marked,
    bias: &Extra,
    nodes: u64,
) -> Result<(Known, Tried), OutOfMemory>
    requires sound { IsSound marked.now }
    requires last { 0 < length marked.now.marks.now }
    requires ready { IsReady marked.now.problem.now marked.now.biases.now marked.now.marks.now (length marked.now.marks.now - 1) ready.old }
    requires none { has_none before.now ≡ true → NothingFits (whole_of marked.now) }
    requires within { shrinks bias.now ≡ true → was_spent before.now ≡ false → space (whole_of marked.now) ≤ nodes }
    ensures known { IfOk result (λ done. IsKnown (whole_of marked.now) nodes done.0) }
    ensures tried { IfOk result (λ done. AreTried (whole_of marked.now).cases done.1.items) }
    ensures ready { OnOk result (IsReady marked.now.problem.now marked.now.biases.now marked.now.marks.now (length marked.now.marks.now - 1) ready.new) }
{
    let within = shrinks(bias) && !before.was_spent();
    known_after(alloc, before, ready, marked, within, nodes)
}

/// In how many pieces a domain may be so that its case is not large.
const FEW: usize = 256;

/// Whether the domain is in many pieces.
fn is_large(domain: &Set) -> bool {
    domain.pieces() > FEW
}

/// Whether the addresses of one of the cases, or the values of rs1 in it, are in many pieces, so that to narrow it takes far
/// longer than to copy it.
fn are_large(cases: &[Case]) -> bool
    requires { All IsCase cases.now }
{
    for case in cases {
        if is_large(case.domain(Slot::Ea)) || is_large(case.domain(Slot::A)) {
            return true;
        }
    }
    false
}

/// The biases that were taken so far.
#[derive(Drop)]
struct Taken {
    /// Whether each was kept.
    marks: Vec<bool>,
    /// The first cases of the problem with the biases that were kept. None where none was: they are the problem's own.
    firsts: Option<Problem>,
    /// What is known of the problem with the biases that were kept.
    known: Known,
    /// The problem with the biases that were kept, as far as searches needed it.
    ready: Ready,
    /// Those that were not kept, as the answer lists them.
    dropped: Items<(u32, bool)>,
}

impl Taken {
    /// Takes the last mark away and lists its bias, with whether the budget was spent.
    fn unmark(&mut self, spent: bool) -> Result<(), OutOfMemory>
        requires { 0 < length self.old.marks.items }
        ensures firsts { self.new.firsts ≡ self.old.firsts }
        ensures known { self.new.known ≡ self.old.known }
        ensures ready { self.new.ready ≡ self.old.ready }
        ensures marks { OnOk result (self.new.marks.items ≡ slice_set self.old.marks.items (length self.old.marks.items - 1) false) }
        ensures dropped { OnOk result (self.new.dropped ≡ self.old.dropped ++ (length self.old.marks.items - 1, spent) ∷ []) }
    {
        let place = self.marks.len() - 1;
        // The list has no place for a bias at 2^32 or later.
        let Ok(position) = u32::try_from(place) else {
            return Err(OutOfMemory);
        };
        self.dropped.push((position, spent))?;
        self.marks[place] = false;
        Ok(())
    }

    /// Takes the next bias: it is kept where the problem with it has an assignment for its answer.
    fn take(
        &mut self,
        alloc: Global,
        p: &Problem,
        biases: &[Extra],
        bias: &Extra,
        nodes: u64,
    ) -> Result<(), OutOfMemory>
        requires problem { IsProblem p.now }
        requires entries { All (λ e. length e.cases ≡ length p.now.cases) biases.now }
        requires more { length self.old.marks.items < length biases.now }
        requires next { bias.now ≡ slice_index_or biases.now (length self.old.marks.items) bias.now }
        requires told { IsTold p.now biases.now nodes self.old }
        ensures taken { OnOk result (IsTakenBy nodes (length self.old.marks.items) bias.now (kept_of p.now biases.now self.old) (kept_of p.now biases.now self.new)) }
        ensures told { OnOk result (IsTold p.now biases.now nodes self.new) }
        ensures one { OnOk result (length self.new.marks.items ≡ length self.old.marks.items + 1) }
    {
        let firsts = cut_problem(alloc, base_of(&self.firsts, p), bias)?;
        self.marks.push(true)?;
        let marked = Marked {
            problem: p,
            biases,
            marks: &self.marks,
            from: 0,
            firsts: &firsts,
        };
        let done = known_next(alloc, &self.known, &mut self.ready, &marked, bias, nodes)?;
        let (known, tried) = done;
        match known.dropping() {
            None => {
                self.ready.keep(alloc, &marked, tried)?;
                self.firsts = Some(firsts);
                self.known = known;
            }
            Some(spent) => {
                self.ready.refuse(alloc, &marked, spent)?;
                self.unmark(spent)?;
            }
        }
        Ok(())
    }

    /// The answer of the problem with the biases that were kept.
    fn answer(
        &mut self,
        alloc: Global,
        p: &Problem,
        biases: &[Extra],
        nodes: u64,
    ) -> Result<Solved, OutOfMemory>
        requires problem { IsProblem p.now }
        requires entries { All (λ e. length e.cases ≡ length p.now.cases) biases.now }
        requires room { length self.old.marks.items ≤ length biases.now }
        requires told { IsTold p.now biases.now nodes self.old }
        ensures solved { IfOk result (IsAnswer (with_marked self.old.marks.items biases.now p.now) nodes) }
        ensures dropped { self.new.dropped ≡ self.old.dropped }
    {
        let marked = Marked {
            problem: p,
            biases,
            marks: &self.marks,
            from: 0,
            firsts: base_of(&self.firsts, p),
        };
        answer_after(alloc, &self.known, &mut self.ready, &marked, nodes)
    }
}

/// The answer of the problem with biases, under a budget of `nodes`. They are taken in order. One is kept
/// exactly where the problem with those kept before it and with it is answered by an assignment; each other
/// one is listed with its position and whether its answer was that the budget is spent. The answer is that
/// of the problem with all kept biases. Where a bias at position 2^32 or later is not kept, there is no
/// memory for it.
pub fn solve_leaf(
    alloc: Global,
    p: &Problem,
    biases: &[Extra],
    nodes: u64,
) -> Result<LeafAnswer, OutOfMemory>
    requires problem { IsProblem p.now }
    requires entries { All (λ e. length e.cases ≡ length p.now.cases) biases.now }
    ensures { IfOk result (IsLeafAnswer p.now biases.now nodes) }
{
    let mut taken = Taken {
        marks: Vec::new(alloc),
        firsts: None,
        known: Known::Answer(answer_alone(alloc, p, nodes)?),
        ready: Ready::new(are_large(p.cases.as_slice())),
        dropped: Items::new(alloc),
    };
    for bias in biases {
        taken.take(alloc, p, biases, bias, nodes)?;
    }
    let solved = taken.answer(alloc, p, biases, nodes)?;
    let Taken { dropped, .. } = taken;
    Ok(LeafAnswer { solved, dropped })
}
