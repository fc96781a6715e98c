// A walk through a hart's body.
ghost use Rattle.std.specs.Prelude.{◌≡◌, ◌<◌, ◌∷◌, IfSome, IsNone, is_some, map, option_map, slice_get, true};
ghost use Rattle.std.specs.List.{list_any};
ghost use Rattle.tpl_ast.specs.Depths.{size_of_body, size_of_ways};
ghost use Rattle.tpl_ast.specs.Expansion.{FetchFault, Label, Leaf, expansion_of, expansion_of_item, repeated};
ghost use Rattle.tpl_admit.specs.Admitting.{comes_before, false_atoms, fetch_failures, fixes_outcome, here, is_excused, is_drop, is_on_outcome, is_unfetched, is_value, label_failures, leaf_failures, left_over, lesser, numbered, says_outcome, unmet_atoms, unretired, went_on, at_hart};
ghost use Rattle.rv_hart.specs.Registers.{written};
ghost use Rattle.tpl_admit.specs.Internal.Moments.{moment};
ghost use Rattle.tpl_admit.specs.Internal.Ordered.{is_ascending, stands_before};
ghost use Rattle.tpl_admit.specs.Internal.Walks.{chosen_of, context, noted, one_passed, stopped, through, walked};

use crate::admission::Unmet;
use crate::dropped::Dropped;
use crate::judging::{Context, Walk};
use crate::moment::{Moment, find, outcome_in};
use dom_set::Set;
use rv_hart::{Outcome, Record};
use tpl_ast::{Atom, Item, Var, Wish};

/// What stands for an atom where what fails is none.
pub const NO_ATOM: u32 = 65_535;

/// Whether a failure comes before another, by hart, step and atom.
fn comes_before(one: Unmet, other: Unmet) -> bool
    ensures { result ≡ comes_before one other }
{
    one.hart < other.hart
        || one.hart == other.hart
            && (one.step < other.step || one.step == other.step && one.atom < other.atom)
}

pub fn lesser(least: Option<Unmet>, found: Unmet) -> Option<Unmet>
    ensures { result ≡ lesser least found }
{
    match least {
        None => Some(found),
        Some(known) => {
            if comes_before(found, known) {
                Some(found)
            } else {
                Some(known)
            }
        }
    }
}

/// Whether an atom is on the outcome.
fn says_outcome(atom: &Atom) -> bool
    ensures { result ≡ says_outcome atom.now }
{
    matches!(
        atom,
        Atom::In(Var::Outcome, _) | Atom::NotIn(Var::Outcome, _)
    )
}

fn fixes_outcome(wish: &Wish) -> bool
    ensures { result ≡ fixes_outcome wish.now }
{
    !wish.prefer && says_outcome(&wish.atom)
}

fn any_fixes_outcome(wishes: &[Wish]) -> bool
    ensures { result ≡ list_any fixes_outcome wishes.now }
{
    wishes.iter().any(|wish| fixes_outcome(wish))
}

fn is_drop(hart: u8, step: u32, atom: u32, dropped: &Dropped) -> bool
    ensures { result ≡ is_drop hart step atom dropped.now }
{
    dropped.hart == u32::from(hart) && dropped.step == step && dropped.atom == atom
}

/// Whether a dropped bias stands before an atom of a step.
fn stands_before(hart: u32, step: u32, atom: u32, dropped: &Dropped) -> bool
    ensures { result ≡ stands_before hart step atom dropped.now }
{
    dropped.hart < hart
        || dropped.hart == hart
            && (dropped.step < step || dropped.step == step && dropped.atom < atom)
}

/// Whether a bias is listed, searched for by halves since a list has up to 262,144.
fn is_listed(dropped: &[Dropped], hart: u8, step: u32, atom: u32) -> bool
    requires { is_ascending dropped.now ≡ true }
    ensures { result ≡ list_any (is_drop hart step atom) dropped.now }
{
    let at = dropped.partition_point(|one| stands_before(u32::from(hart), step, atom, one));
    match dropped.get(at) {
        None => false,
        Some(one) => is_drop(hart, step, atom, one),
    }
}

/// Whether the fetch failed.
fn is_unfetched(outcome: Outcome) -> bool
    ensures { result ≡ is_unfetched outcome }
{
    matches!(outcome, Outcome::Trap { cause: 1 | 12, .. })
}

/// The alternative with a number, from 0.
#[tactic(auto, using(crate::proofs::Expansions::smaller_way))]
fn alternative(ways: &[(u32, Vec<Item>)], n: u32) -> Option<&[Item]>
    ensures lookup { option_map (λ b. b.now) result ≡ option_map (λ w. w.1.items) (slice_get ways.now n) }
    ensures smaller { IfSome result (λ body. size_of_body body.now < size_of_ways ways.now) }
{
    let at = n as usize;
    if ways.len() <= at {
        return None;
    }
    let way = &ways[at];
    Some(&way.1)
}

impl<'c> Context<'c> {
    /// Whether a bias is listed as dropped.
    fn is_excused(&self, step: u32, atom: u32, wish: &Wish) -> bool
        ensures { result ≡ is_excused self.now.dropped.now self.now.hart step atom wish.now }
    {
        wish.prefer && is_listed(self.dropped, self.hart, step, atom)
    }

    /// The failure of this hart at a step, with an atom.
    pub fn failure(&self, step: u32, atom: u32) -> Unmet
        ensures { result ≡ at_hart self.now.hart (step, atom) }
    {
        Unmet {
            hart: self.hart,
            step,
            atom,
        }
    }

    /// Notes the atoms that are false.
    fn note_atoms(
        &self,
        step: u32,
        on: &Moment<'_>,
        wishes: &[Wish],
        least: Option<Unmet>,
    ) -> Option<Unmet>
        ensures { result ≡ noted (context self.now) (map (λ n. (step, n)) (false_atoms self.now.dropped.now self.now.hart step (moment on.now) 0 wishes.now)) least }
    {
        let mut least = least;
        let mut n = 0;
        for wish in wishes {
            if !on.holds(&wish.atom) && !self.is_excused(step, n, wish) {
                least = lesser(least, self.failure(step, n));
            }
            n = n.saturating_add(1);
        }
        least
    }

    /// Notes a step that doesn't retire, where its leaf says nothing of the outcome.
    fn note_unretired(
        &self,
        step: u32,
        on: &Moment<'_>,
        wishes: &[Wish],
        least: Option<Unmet>,
    ) -> Option<Unmet>
        ensures { result ≡ noted (context self.now) (map (λ n. (step, n)) (unretired (moment on.now) wishes.now)) least }
    {
        if any_fixes_outcome(wishes) || outcome_in(on.done.outcome) == 255 {
            return least;
        }
        let implied = u32::try_from(wishes.len()).unwrap_or(u32::MAX);
        lesser(least, self.failure(step, implied))
    }

    /// Notes the atoms that a leaf's record doesn't meet.
    fn note_unmet(
        &self,
        step: u32,
        on: &Moment<'_>,
        wishes: &[Wish],
        least: Option<Unmet>,
    ) -> Option<Unmet>
        ensures { result ≡ noted (context self.now) (map (λ n. (step, n)) (unmet_atoms self.now.dropped.now self.now.hart step (moment on.now) wishes.now)) least }
    {
        let written = self.note_atoms(step, on, wishes, least);
        self.note_unretired(step, on, wishes, written)
    }
}

impl<'c> Walk<'c> {
    /// Notes a failure at the next step.
    fn note(&mut self, by: &Context<'_>)
        ensures { walked self.new ≡ record (walked self.old) { least = noted (context by.now) (here (walked self.old).at) (walked self.old).least } }
    {
        self.least = lesser(self.least, by.failure(self.step, NO_ATOM));
    }

    /// Takes the next record.
    fn go_on(&mut self, done: &Record, rest: &'c [Record])
        requires { self.old.records.now ≡ done.now ∷ rest.now }
        ensures { walked self.new ≡ record (walked self.old) { at = went_on (walked self.old).at (walked self.old).at.records } }
    {
        self.step += 1;
        self.pc = done.next_pc;
        if let Some((n, value)) = done.rd {
            if (n as usize) < 32 {
                self.regs[n as usize] = Some(value);
            }
        }
        self.records = rest;
    }

    fn leaf(&mut self, by: &Context<'_>, wishes: &[Wish])
        ensures { walked self.new ≡ one_passed (context by.now) (Leaf wishes.now) (walked self.old) }
    {
        let [done, rest @ ..] = self.records else {
            self.note(by);
            return;
        };
        if is_unfetched(done.outcome) {
            self.note(by);
        } else {
            let on = Moment {
                done,
                regs: &self.regs,
                names: by.names,
                others: by.others,
            };
            self.least = by.note_unmet(self.step, &on, wishes, self.least);
        }
        self.go_on(done, rest);
    }

    fn fetch_fault(&mut self, by: &Context<'_>, causes: &Set)
        ensures { walked self.new ≡ one_passed (context by.now) (FetchFault causes.now) (walked self.old) }
    {
        let [done, rest @ ..] = self.records else {
            self.note(by);
            return;
        };
        if !is_unfetched(done.outcome) || !causes.has(outcome_in(done.outcome)) {
            self.note(by);
        }
        self.go_on(done, rest);
    }

    fn label(&mut self, by: &Context<'_>, name: u32)
        ensures { walked self.new ≡ one_passed (context by.now) (Label name) (walked self.old) }
    {
        if find(by.names, name) != Some(self.pc) {
            self.note(by);
        }
    }

    /// A choice that takes no alternative.
    fn stop(&mut self, by: &Context<'_>)
        ensures { walked self.new ≡ stopped (context by.now) (walked self.old) }
    {
        self.note(by);
        self.choices = None;
    }

    /// Notes a record that is left over behind the body.
    pub fn end(&mut self, by: &Context<'_>)
        ensures { walked self.new ≡ record (walked self.old) { least = noted (context by.now) (left_over (walked self.old).at (walked self.old).at.records) (walked self.old).least } }
    {
        if !self.records.is_empty() {
            self.note(by);
        }
    }

    /// Goes through items.
    #[cycle(walk)]
    pub fn items(&mut self, by: &Context<'_>, items: &[Item])
        ensures { walked self.new ≡ through (context by.now) (expansion_of items.now) (walked self.old) }
    {
        for item in items {
            self.item(by, item);
        }
    }

    #[cycle(walk)]
    fn item(&mut self, by: &Context<'_>, item: &Item)
        ensures { walked self.new ≡ through (context by.now) (expansion_of_item item.now) (walked self.old) }
    {
        if self.choices.is_none() {
            return;
        }
        match item {
            Item::Leaf { line: _, wishes } => self.leaf(by, wishes),
            Item::FetchFault { line: _, causes } => self.fetch_fault(by, causes),
            Item::Seq(body) => self.items(by, body),
            Item::Repeat { times, body } => self.repeat(by, *times, body),
            Item::Choose { line: _, ways } => self.choose(by, ways),
            Item::Label { name } => self.label(by, *name),
        }
    }

    #[cycle(walk)]
    fn repeat(&mut self, by: &Context<'_>, times: u32, body: &[Item])
        ensures { walked self.new ≡ through (context by.now) (repeated times (expansion_of body.now)) (walked self.old) }
    {
        for _ in 0..times {
            self.items(by, body);
        }
    }

    #[cycle(walk)]
    fn choose(&mut self, by: &Context<'_>, ways: &[(u32, Vec<Item>)])
        requires { is_some self.old.choices ≡ true }
        ensures { walked self.new ≡ through (context by.now) (chosen_of ways.now) (walked self.old) }
    {
        if let Some(body) = self.take(by, ways) {
            self.items(by, body);
        }
    }

    /// The alternative that the next number names; where there is none, the walk is stuck.
    fn take<'w>(&mut self, by: &Context<'_>, ways: &'w [(u32, Vec<Item>)]) -> Option<&'w [Item]>
        requires { is_some self.old.choices ≡ true }
        ensures none { IsNone result → walked self.new ≡ through (context by.now) (chosen_of ways.now) (walked self.old) }
        ensures some { IfSome result (λ body. through (context by.now) (expansion_of body.now) (walked self.new) ≡ through (context by.now) (chosen_of ways.now) (walked self.old)) }
        ensures smaller { IfSome result (λ body. size_of_body body.now < size_of_ways ways.now) }
    {
        let Some([n, rest @ ..]) = self.choices else {
            self.stop(by);
            return None;
        };
        match alternative(ways, *n) {
            None => {
                self.stop(by);
                None
            }
            Some(body) => {
                self.choices = Some(rest);
                Some(body)
            }
        }
    }
}
