// The cases that searches of a problem with its marked biases go on from.
ghost use Rattle.std.specs.Prelude.{◌≡◌, ◌-◌, ◌≤◌, false, ℕ, All, IfOk, IfSome, None, OnOk, length, not, take};
ghost use Rattle.std.specs.List.{list_all};
ghost use Rattle.fd_prob.specs.Fitting.{IsCase};
ghost use Rattle.fd_prob.specs.Spaces.{space};
ghost use Rattle.fd_solve.specs.Answers.{IsAnswer, NothingFits};
ghost use Rattle.fd_solve.specs.Internal.Equivalent.{AreBrought, AreTried, StandFor};
ghost use Rattle.fd_solve.specs.Internal.Marks.{IsSound, begun_at, whole_of, with_marked};
ghost use Rattle.fd_solve.specs.Internal.Ready.{IsReady};

use crate::answers::Solved;
use crate::marked::Marked;
use crate::operations::searched;
use crate::sought::{Narrow, Tried, note_tried, put_tried, refuse};
use dom_set::OutOfMemory;
use fd_prob::Extra;
use std::alloc::Global;

/// Cases that stand for those of a problem with the first ones of its marked biases. They are brought up to further marks only
/// where a search needs them, so that each bias is added to its cases once, and not again by each search.
#[derive(Drop)]
pub struct Ready {
    /// How many marks they are brought up to; 0 where they weren't made.
    from: usize,
    /// The cases, which searches narrow. None where they weren't made, as before a second search: they are the problem's own.
    narrow: Option<Narrow>,
    /// Whether the problem was searched before, or is so large that its cases are to be narrowed once.
    was_searched: bool,
}

/// Whether none is marked.
fn are_unmarked(marks: &[bool]) -> bool
    ensures { result ≡ list_all not marks.now }
{
    marks.iter().all(|mark| !*mark)
}

/// Cases that stand for these with what marked biases add to them, where there are some.
fn brought(
    alloc: Global,
    narrow: &Option<Narrow>,
    biases: &[Extra],
    marks: &[bool],
) -> Result<Option<Narrow>, OutOfMemory>
    requires cases { IfSome narrow.now (All IsCase) }
    requires entries { IfSome narrow.now (λ cases. All (λ e. length e.cases ≡ length cases) biases.now) }
    requires room { length marks.now ≤ length biases.now }
    ensures { IfOk result (AreBrought marks.now biases.now narrow.now) }
{
    match narrow {
        Some(cases) => {
            let made = cases.with_marked(alloc, biases, marks)?;
            Ok(Some(made))
        }
        None => Ok(None),
    }
}

impl Ready {
    /// Nothing yet: the problem's own cases, with no mark. Where it is large, its cases are narrowed in the first search already.
    pub fn new(large: bool) -> Ready
        ensures from { result.from ≡ 0 }
        ensures narrow { result.narrow ≡ None }
    {
        Ready {
            from: 0,
            narrow: None,
            was_searched: large,
        }
    }

    /// Makes the cases, before a second search: the first may be the only one.
    fn settle(&mut self, alloc: Global, marked: &Marked, to: usize) -> Result<(), OutOfMemory>
        requires sound { IsSound marked.now }
        requires ready { IsReady marked.now.problem.now marked.now.biases.now marked.now.marks.now to self.old }
        ensures { OnOk result (IsReady marked.now.problem.now marked.now.biases.now marked.now.marks.now to self.new) }
    {
        if self.was_searched && self.narrow.is_none() {
            let made = Narrow::of(alloc, marked.problem.cases.as_slice())?;
            self.narrow = Some(made);
        }
        self.was_searched = true;
        Ok(())
    }

    /// Brings them up to so many marks, where they were made.
    fn bring(&mut self, alloc: Global, marked: &Marked, to: usize) -> Result<(), OutOfMemory>
        requires sound { IsSound marked.now }
        requires to { to ≤ length marked.now.marks.now }
        requires ready { IsReady marked.now.problem.now marked.now.biases.now marked.now.marks.now to self.old }
        ensures ready { OnOk result (IsReady marked.now.problem.now marked.now.biases.now marked.now.marks.now to self.new) }
        ensures brought { OnOk result (StandFor (with_marked (take to marked.now.marks.now) marked.now.biases.now marked.now.problem.now).cases self.new.narrow) }
        ensures from { OnOk result ((self.new.narrow ≡ None → ⊥) → self.new.from ≡ to) }
    {
        if self.narrow.is_none() {
            return Ok(());
        }
        let pending = &marked.marks[self.from..to];
        if !are_unmarked(pending) {
            let biases = &marked.biases[self.from..];
            let narrow = brought(alloc, &self.narrow, biases, pending)?;
            self.narrow = narrow;
        }
        self.from = to;
        Ok(())
    }

    /// The problem with its marks, of which the cases have the first ones.
    fn begun<'a>(&self, marked: &Marked<'a>) -> Marked<'a>
        ensures { result ≡ begun_at self.now.from marked.now }
    {
        Marked {
            problem: marked.problem,
            biases: marked.biases,
            marks: marked.marks,
            from: self.from,
            firsts: marked.firsts,
        }
    }

    /// The answer of the problem with its marked biases under each budget that its space is within, by a search of the
    /// cases that are here, with the marks that are left, and the narrow cases that it made with these.
    fn search_rest(
        &mut self,
        alloc: Global,
        marked: &Marked,
    ) -> Result<(Solved, Tried), OutOfMemory>
        requires sound { IsSound marked.now }
        requires ready { IsReady marked.now.problem.now marked.now.biases.now marked.now.marks.now (length marked.now.marks.now) self.old }
        ensures solved { IfOk result (λ done. (nodes : ℕ) → space (whole_of marked.now) ≤ nodes → IsAnswer (whole_of marked.now) nodes done.0) }
        ensures tried { IfOk result (λ done. AreTried (whole_of marked.now).cases done.1.items) }
        ensures ready { OnOk result ((to : ℕ) → IsReady marked.now.problem.now marked.now.biases.now marked.now.marks.now to self.old → IsReady marked.now.problem.now marked.now.biases.now marked.now.marks.now to self.new) }
    {
        let rest = self.begun(marked);
        let mut tried = Vec::new(alloc);
        let solved = searched(alloc, &rest, &mut self.narrow, &mut tried)?;
        note_tried(&mut self.narrow);
        Ok((solved, tried))
    }

    /// The same answer and cases. Before the search they are brought up to the first marks, `to` of them.
    pub fn searched(
        &mut self,
        alloc: Global,
        marked: &Marked,
        to: usize,
    ) -> Result<(Solved, Tried), OutOfMemory>
        requires sound { IsSound marked.now }
        requires to { to ≤ length marked.now.marks.now }
        requires ready { IsReady marked.now.problem.now marked.now.biases.now marked.now.marks.now to self.old }
        ensures solved { IfOk result (λ done. (nodes : ℕ) → space (whole_of marked.now) ≤ nodes → IsAnswer (whole_of marked.now) nodes done.0) }
        ensures tried { IfOk result (λ done. AreTried (whole_of marked.now).cases done.1.items) }
        ensures ready { OnOk result (IsReady marked.now.problem.now marked.now.biases.now marked.now.marks.now to self.new) }
    {
        self.settle(alloc, marked, to)?;
        self.bring(alloc, marked, to)?;
        let done = self.search_rest(alloc, marked)?;
        Ok(done)
    }

    /// Goes on from cases without what they can't have, where nothing fits the problem with all marks and not only the
    /// budget was spent. They are brought up to the same marks as before.
    pub fn refuse(&mut self, alloc: Global, marked: &Marked, spent: bool) -> Result<(), OutOfMemory>
        requires sound { IsSound marked.now }
        requires ready { IsReady marked.now.problem.now marked.now.biases.now marked.now.marks.now (length marked.now.marks.now - 1) self.old }
        requires none { spent ≡ false → NothingFits (whole_of marked.now) }
        ensures { OnOk result (IsReady marked.now.problem.now marked.now.biases.now marked.now.marks.now (length marked.now.marks.now - 1) self.new) }
    {
        if spent {
            return Ok(());
        }
        let rest = self.begun(marked);
        refuse(&mut self.narrow, alloc, &rest)?;
        Ok(())
    }

    /// Goes on from the narrow cases that a search of the problem with all marks made: they are brought up to these marks, and
    /// stand in their places.
    pub fn keep(&mut self, alloc: Global, marked: &Marked, tried: Tried) -> Result<(), OutOfMemory>
        requires sound { IsSound marked.now }
        requires ready { IsReady marked.now.problem.now marked.now.biases.now marked.now.marks.now (length marked.now.marks.now) self.old }
        requires tried { AreTried (whole_of marked.now).cases tried.items }
        ensures { OnOk result (IsReady marked.now.problem.now marked.now.biases.now marked.now.marks.now (length marked.now.marks.now) self.new) }
    {
        if tried.is_empty() {
            return Ok(());
        }
        self.bring(alloc, marked, marked.marks.len())?;
        put_tried(&mut self.narrow, marked, tried);
        Ok(())
    }
}
