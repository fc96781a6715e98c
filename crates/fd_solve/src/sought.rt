// Cases that stand for those of a problem in a search.
ghost use Rattle.std.specs.Prelude.{◌≡◌, ◌<◌, ◌≤◌, All, IfOk, List, None, OnOk, length, slice_index_or, slice_set};
ghost use Rattle.fd_prob.specs.declared.problem.Case.{Case};
ghost use Rattle.fd_prob.specs.Extras.{extended};
ghost use Rattle.fd_prob.specs.Fitting.{IsCase, IsProblem};
ghost use Rattle.fd_solve.specs.Answers.{NothingFits};
ghost use Rattle.fd_solve.specs.Internal.Asking.{AsksFor};
ghost use Rattle.fd_solve.specs.Internal.Equivalent.{AreEquivalent, AreMarked, AreTried, StandFor};
ghost use Rattle.fd_solve.specs.Internal.Marks.{IsSound, begun_of, whole_of};

use crate::barred::is_barred;
use crate::marked::{Marked, marked_case};
use crate::refused::{asked_by, less, stays};
use case_search::{narrow_again, narrow_soon};
use dom_set::{OutOfMemory, Set};
use fd_narrow::Losses;
use fd_prob::{Case, Extra, Problem, Slot};
use std::alloc::Global;
use std::marker::Model;

/// The cases that are searched in place of a problem's.
#[derive(Clone, Copy)]
pub struct Sought<'a> {
    pub cases: &'a [Case],
    // One for each case, by its place. There are none where the cases are the problem's own.
    narrowings: &'a [Narrowing],
}

/// What the domains of a case were narrowed by.
#[derive(Clone, Copy)]
pub struct Narrowing {
    /// How many of its relations, the first ones.
    pub known: usize,
    /// The variables that lost values since.
    pub losses: Losses,
    /// Whether a search tried the case with further biases since it was narrowed or lost values; where it was never narrowed,
    /// whether any did.
    was_tried: bool,
    /// Whether it was narrowed by what takes little time, before it is tried.
    was_cut: bool,
}

/// Narrow cases that a search made, each with the place of the case that it stands for.
pub type Tried = Vec<(usize, Case)>;

/// Cases that stand for those of a problem. Each is narrowed where a search comes to it, and stays so.
#[derive(Drop)]
pub struct Narrow {
    cases: Vec<Case>,
    // One for each case, by its place.
    narrowings: Vec<Narrowing>,
}

impl Model for Narrow {
    ghost use Rattle.std.specs.Prelude.{List};
    ghost use Rattle.fd_prob.specs.declared.problem.Case.{Case};

    ghost Value = { List Case };

    ghost view = { λ s. s.cases.items };
}

/// The variables that lose values by the operation of a case and by marked biases.
pub fn losses_by(biases: &[Extra], marks: &[bool]) -> Losses {
    let mut losses = [false; 14];
    losses[0] = true;
    for (bias, mark) in biases.iter().zip(marks) {
        if *mark {
            for (slot, _) in bias.cuts.as_slice() {
                losses[slot.number()] = true;
            }
        }
    }
    losses
}

/// Just the variable.
fn loss_of(slot: Slot) -> Losses {
    let mut losses = [false; 14];
    losses[slot.number()] = true;
    losses
}

/// The variables of both.
fn either(losses: &Losses, more: &Losses) -> Losses {
    let mut all = *losses;
    for place in 0..14 {
        all[place] = losses[place] || more[place];
    }
    all
}

/// A variable of a case has no value, so that nothing fits it.
fn has_no_value(case: &Case) -> bool {
    case.doms.as_slice().iter().any(|domain| domain.is_empty())
}

impl Narrowing {
    /// That of a case that was not narrowed yet.
    fn none() -> Narrowing {
        Narrowing {
            known: 0,
            losses: [true; 14],
            was_tried: false,
            was_cut: false,
        }
    }

    /// That of a case that was narrowed just now.
    fn whole(case: &Case) -> Narrowing {
        Narrowing {
            known: case.rels.as_slice().len(),
            losses: [false; 14],
            was_tried: false,
            was_cut: false,
        }
    }

    /// The same, where more variables lost values.
    pub fn with(&self, more: &Losses) -> Narrowing {
        Narrowing {
            known: self.known,
            losses: either(&self.losses, more),
            was_tried: self.was_tried && self.known == 0,
            was_cut: false,
        }
    }

    /// The same, where a search tries the case with further biases.
    fn tried(&self) -> Narrowing {
        Narrowing {
            known: self.known,
            losses: self.losses,
            was_tried: true,
            was_cut: self.was_cut,
        }
    }

    /// The same, where the case was narrowed by what takes little time.
    fn cut(&self) -> Narrowing {
        Narrowing {
            known: self.known,
            losses: self.losses,
            was_tried: self.was_tried,
            was_cut: true,
        }
    }

    /// Whether values may be lost where the case is narrowed now.
    fn is_pending(&self, case: &Case) -> bool {
        if has_no_value(case) {
            return false;
        }
        self.known < case.rels.as_slice().len() || self.losses.iter().any(|lost| *lost)
    }
}

impl<'a> Sought<'a> {
    /// By what the case at a place was narrowed. None where it is the problem's own.
    pub fn narrowing(&self, place: usize) -> Option<Narrowing> {
        match self.narrowings.get(place) {
            Some(narrowing) => Some(*narrowing),
            None => None,
        }
    }
}

impl Narrow {
    /// Cases that stand for these, which are not narrowed yet.
    pub fn of(alloc: Global, cases: &[Case]) -> Result<Narrow, OutOfMemory>
        requires { All IsCase cases.now }
        ensures { IfOk result (AreEquivalent cases.now) }
    {
        let mut made = Vec::new(alloc);
        let mut narrowings = Vec::new(alloc);
        for case in cases {
            made.push(case.copy(alloc)?)?;
            narrowings.push(Narrowing::none())?;
        }
        Ok(Narrow {
            cases: made,
            narrowings,
        })
    }

    /// The cases.
    pub fn cases(&self) -> &[Case]
        ensures { result.now ≡ self.now }
    {
        &self.cases
    }

    /// By what the case at a place was narrowed.
    fn narrowing(&self, place: usize) -> Narrowing {
        match self.narrowings.get(place) {
            Some(narrowing) => *narrowing,
            None => Narrowing::none(),
        }
    }

    /// Cases that stand for these with what marked biases add to them.
    pub fn with_marked(
        &self,
        alloc: Global,
        biases: &[Extra],
        marks: &[bool],
    ) -> Result<Narrow, OutOfMemory>
        requires cases { All IsCase self.now }
        requires entries { All (λ e. length e.cases ≡ length self.now) biases.now }
        requires marks { length marks.now ≤ length biases.now }
        ensures { IfOk result (AreMarked marks.now biases.now self.now) }
    {
        let losses = losses_by(biases, marks);
        let cases = marked_cases(alloc, &self.cases, biases, marks)?;
        let mut narrowings = Vec::new(alloc);
        for narrowing in &self.narrowings {
            narrowings.push(narrowing.with(&losses))?;
        }
        Ok(Narrow { cases, narrowings })
    }

    /// How many cases there are.
    fn count(&self) -> usize
        ensures { result ≡ length self.now }
    {
        self.cases.len()
    }

    /// The case at a place.
    fn case_at(&self, place: usize) -> &Case
        requires { place < length self.now }
        ensures { result.now ≡ slice_index_or self.now place result.now }
    {
        &self.cases[place]
    }

    /// Notes by what the case at a place was narrowed.
    fn note(&mut self, place: usize, narrowing: Narrowing)
        ensures { self.new ≡ self.old }
    {
        if place < self.narrowings.len() {
            self.narrowings[place] = narrowing;
        }
    }

    /// Puts a case in the place of another one.
    fn put(&mut self, place: usize, case: Case)
        requires { place < length self.old }
        ensures { self.new ≡ slice_set self.old place case }
    {
        self.cases[place] = case;
    }

    /// Puts a narrow case in the place of another one.
    fn put_narrow(&mut self, place: usize, case: Case)
        requires { place < length self.old }
        ensures { self.new ≡ slice_set self.old place case }
    {
        self.note(place, Narrowing::whole(&case));
        self.put(place, case);
    }

    /// Puts cases that a search made in the places of those that stand for the same.
    fn put_tried(&mut self, marked: &Marked, tried: Tried)
        requires cases { AreEquivalent (whole_of marked.now).cases self.old }
        requires tried { AreTried (whole_of marked.now).cases tried.items }
        ensures { AreEquivalent (whole_of marked.now).cases self.new }
    {
        let mut left = tried;
        while let Some(last) = left.pop() {
            let (place, case) = last;
            self.put_narrow(place, case);
        }
    }

    /// Takes values of a variable from the case at a place, which a bias that nothing fits asks for where the case stays.
    fn refuse_at(
        &mut self,
        alloc: Global,
        marked: &Marked,
        bias: &Extra,
        place: usize,
        slot: Slot,
        set: &Set,
    ) -> Result<(), OutOfMemory>
        requires problem { IsProblem (begun_of marked.now) }
        requires entry { length bias.now.cases ≡ length (begun_of marked.now).cases }
        requires none { NothingFits (extended bias.now (begun_of marked.now)) }
        requires asks { AsksFor bias.now slot set.now }
        requires place { place < length self.old }
        requires cases { AreEquivalent (begun_of marked.now).cases self.old }
        ensures { OnOk result (AreEquivalent (begun_of marked.now).cases self.new) }
    {
        if !stays(bias, place) {
            return Ok(());
        }
        if let Some(made) = less(alloc, self.case_at(place), slot, set)? {
            let narrowing = self.narrowing(place);
            self.note(place, narrowing.with(&loss_of(slot)));
            self.put(place, made);
        }
        Ok(())
    }

    /// Takes from cases that stand for those of a problem what they can't have, since nothing fits the problem with the bias.
    fn refuse(&mut self, alloc: Global, marked: &Marked, bias: &Extra) -> Result<(), OutOfMemory>
        requires problem { IsProblem (begun_of marked.now) }
        requires entry { length bias.now.cases ≡ length (begun_of marked.now).cases }
        requires none { NothingFits (extended bias.now (begun_of marked.now)) }
        requires cases { AreEquivalent (begun_of marked.now).cases self.old }
        ensures { OnOk result (AreEquivalent (begun_of marked.now).cases self.new) }
    {
        let Some((slot, set)) = asked_by(alloc, bias)? else {
            return Ok(());
        };
        for place in 0..self.count() {
            self.refuse_at(alloc, marked, bias, place, slot, &set)?;
        }
        Ok(())
    }

    /// Notes that a search tried its cases with further biases.
    fn note_tried(&mut self)
        ensures { self.new ≡ self.old }
    {
        for place in 0..self.narrowings.len() {
            let narrowing = self.narrowing(place);
            self.note(place, narrowing.tried());
        }
    }

    /// Narrows the case at a place by what takes little time, if it was not since it lost values.
    fn cut_at(&mut self, alloc: Global, place: usize) -> Result<(), OutOfMemory>
        requires cases { All IsCase self.old }
        requires place { place < length self.old }
        ensures { OnOk result ((cases : List Case) → AreEquivalent cases self.old → AreEquivalent cases self.new) }
    {
        let narrowing = self.narrowing(place);
        if narrowing.was_cut {
            return Ok(());
        }
        let same = self.case_at(place).copy(alloc)?;
        let made = narrow_soon(alloc, same)?;
        self.note(place, narrowing.cut());
        self.put(place, made);
        Ok(())
    }

    /// Narrows the case at a place, if it may lose values by that. It is left as it is where nothing of it is seen to meet the
    /// further biases, the marked ones, with which the search tries it. The first time that it is tried it is narrowed only by
    /// what takes little time: what is made of it then is narrowed by all at once.
    fn settle_at(
        &mut self,
        alloc: Global,
        biases: &[Extra],
        marks: &[bool],
        place: usize,
    ) -> Result<(), OutOfMemory>
        requires cases { All IsCase self.old }
        requires place { place < length self.old }
        requires marks { length marks.now ≤ length biases.now }
        ensures { OnOk result ((cases : List Case) → AreEquivalent cases self.old → AreEquivalent cases self.new) }
    {
        let narrowing = self.narrowing(place);
        let case = self.case_at(place);
        if !narrowing.is_pending(case) {
            return Ok(());
        }
        if !marks.is_empty() && !narrowing.was_tried {
            return self.cut_at(alloc, place);
        }
        if is_barred(alloc, biases, marks, case, place)? {
            return Ok(());
        }
        let same = case.copy(alloc)?;
        let made = narrow_again(alloc, same, narrowing.known, &narrowing.losses)?;
        self.put_narrow(place, made);
        Ok(())
    }

    /// Narrows the cases of an operation, which the search tries with further biases, the marked ones.
    pub fn settle(
        &mut self,
        alloc: Global,
        biases: &[Extra],
        marks: &[bool],
        op: u8,
    ) -> Result<(), OutOfMemory>
        requires cases { All IsCase self.old }
        requires marks { length marks.now ≤ length biases.now }
        ensures { OnOk result ((cases : List Case) → AreEquivalent cases self.old → AreEquivalent cases self.new) }
    {
        for place in 0..self.count() {
            if self.case_at(place).op == op {
                self.settle_at(alloc, biases, marks, place)?;
            }
        }
        Ok(())
    }
}

/// Takes from cases that stand for those of the problem with the first marks, where there are some, what they can't have, since
/// nothing fits the problem with all marks: where one mark is left.
pub fn refuse(
    narrow: &mut Option<Narrow>,
    alloc: Global,
    marked: &Marked,
) -> Result<(), OutOfMemory>
    requires sound { IsSound marked.now }
    requires from { marked.now.from ≤ length marked.now.marks.now }
    requires none { NothingFits (whole_of marked.now) }
    requires narrow { StandFor (begun_of marked.now).cases narrow.old }
    ensures narrow { OnOk result (StandFor (begun_of marked.now).cases narrow.new) }
    ensures idle { OnOk result (narrow.new ≡ None → narrow.old ≡ None) }
{
    let biases = &marked.biases[marked.from..];
    let marks = &marked.marks[marked.from..];
    if marks.len() != 1 || !marks[0] {
        return Ok(());
    }
    match narrow {
        Some(cases) => cases.refuse(alloc, marked, &biases[0]),
        None => Ok(()),
    }
}

/// Puts narrow cases that a search made in the places of those that stand for a problem's, where there are some.
pub fn put_tried(narrow: &mut Option<Narrow>, marked: &Marked, tried: Tried)
    requires narrow { StandFor (whole_of marked.now).cases narrow.old }
    requires tried { AreTried (whole_of marked.now).cases tried.items }
    ensures narrow { StandFor (whole_of marked.now).cases narrow.new }
    ensures idle { narrow.new ≡ None → narrow.old ≡ None }
    ensures none { narrow.old ≡ None → narrow.new ≡ None }
{
    match narrow {
        Some(cases) => cases.put_tried(marked, tried),
        None => {}
    }
}

/// Notes that a search tried the cases with further biases, where there are some.
pub fn note_tried(narrow: &mut Option<Narrow>)
    ensures { narrow.new ≡ narrow.old }
{
    match narrow {
        Some(cases) => cases.note_tried(),
        None => {}
    }
}

/// Cases that stand for these with what marked biases add to them.
fn marked_cases(
    alloc: Global,
    cases: &[Case],
    biases: &[Extra],
    marks: &[bool],
) -> Result<Vec<Case>, OutOfMemory>
    requires cases { All IsCase cases.now }
    requires entries { All (λ e. length e.cases ≡ length cases.now) biases.now }
    requires marks { length marks.now ≤ length biases.now }
    ensures { IfOk result (λ made. AreMarked marks.now biases.now cases.now made.items) }
{
    let mut made = Vec::new(alloc);
    for (place, case) in cases.iter().enumerate() {
        made.push(marked_case(alloc, case, place, biases, marks)?)?;
    }
    Ok(made)
}

/// Narrows the cases of an operation that stand for those of the problem with the first marks, where there are some. The search
/// tries them with the biases of the marks that are left.
pub fn settle(
    narrow: &mut Option<Narrow>,
    alloc: Global,
    marked: &Marked,
    op: u8,
) -> Result<(), OutOfMemory>
    requires sound { IsSound marked.now }
    requires from { marked.now.from ≤ length marked.now.marks.now }
    requires narrow { StandFor (begun_of marked.now).cases narrow.old }
    ensures narrow { OnOk result (StandFor (begun_of marked.now).cases narrow.new) }
    ensures idle { OnOk result (narrow.new ≡ None → narrow.old ≡ None) }
{
    let biases = &marked.biases[marked.from..];
    let marks = &marked.marks[marked.from..];
    match narrow {
        Some(cases) => cases.settle(alloc, biases, marks, op),
        None => Ok(()),
    }
}

/// The narrow cases where there are some, and else the problem's own.
pub fn sought_of<'a>(narrow: &'a Option<Narrow>, p: &'a Problem) -> Sought<'a>
    requires { IsProblem p.now }
    ensures { (cases : List Case) → (narrow.now ≡ None → cases ≡ p.now.cases) → StandFor cases narrow.now → AreEquivalent cases result.cases.now }
{
    match narrow {
        Some(narrow) => Sought {
            cases: narrow.cases(),
            narrowings: &narrow.narrowings,
        },
        None => Sought {
            cases: p.cases.as_slice(),
            narrowings: &[],
        },
    }
}
