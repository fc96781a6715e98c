// The harts of a trace, one after another.
ghost use Rattle.std.specs.Prelude.{◌≡◌, ◌≤◌, ◌<◌, ◌&&◌, Some, [], length, map, not, option_map, slice_index_or, slice_set};
ghost use Rattle.std.specs.List.{list_all};
ghost use Rattle.tpl_ast.specs.Expansion.{expansion_of};
ghost use Rattle.tpl_admit.specs.Admitting.{context_of, failures_from, first_stand, least_among, least_failure, gives, hart_failures, start_failures, has_words, is_same_level, is_value, starts_as, with_given};
ghost use Rattle.rv_hart.specs.Registers.{no_registers};
ghost use Rattle.tpl_admit.specs.Starts.{lookup};
ghost use Rattle.tpl_admit.specs.Internal.Walks.{IsWithinLimits, context, noted, trace, walked};

use crate::admission::Unmet;
use crate::judging::{Context, Trace, Walk};
use crate::moment::find;
use crate::walking::{NO_ATOM, lesser};
use rv_hart::Priv;
use tpl_ast::{HartDecl, HartState};

fn is_same_level(one: Priv, other: Priv) -> bool
    ensures { result ≡ is_same_level one other }
{
    matches!(
        (one, other),
        (Priv::U, Priv::U) | (Priv::S, Priv::S) | (Priv::M, Priv::M)
    )
}

/// Whether a value is given.
fn gives(given: &[(u32, u32)], key: u32, value: u32) -> bool
    ensures { result ≡ gives given.now (key, value) }
{
    find(given, key) == Some(value)
}

fn gives_all(given: &[(u32, u32)], told: &[(u32, u32)]) -> bool
    ensures { result ≡ list_all (gives given.now) told.now }
{
    told.iter().all(|one| gives(given, one.0, one.1))
}

/// Whether a hart's start has all that the template says of it.
fn starts_as(told: &HartState, start: &HartState) -> bool
    ensures { result ≡ starts_as told.now start.now }
{
    start.pc == told.pc
        && is_same_level(start.privilege, told.privilege)
        && start.mstatus == told.mstatus
        && start.medeleg == told.medeleg
        && start.satp == told.satp
        && gives_all(start.places.as_slice(), told.places.as_slice())
}

/// The values of registers among those of places; x0 is 0.
fn registers(places: &[(u32, u32)]) -> [Option<u32>; 32]
    ensures { result ≡ with_given places.now no_registers }
{
    let mut regs = [None; 32];
    regs[0] = Some(0);
    for place in places {
        if place.0 < 32 {
            regs[place.0 as usize] = Some(place.1);
        }
    }
    regs
}

impl<'c> Trace<'c> {
    /// Whether the started words are among the given ones; they count for hart 0.
    fn has_words(&self, k: usize) -> bool
        ensures { result ≡ has_words (trace self.now) k }
    {
        k != 0 || gives_all(self.words, self.template.words.as_slice())
    }

    /// What the pieces of hart k are judged by.
    fn context(&self, k: usize) -> Context<'c>
        requires { k < 256 }
        ensures { context result ≡ context_of (trace self.now) k }
    {
        let count = k.min(self.records.len());
        Context {
            hart: k as u8,
            names: self.names,
            others: &self.records[..count],
            dropped: self.dropped,
        }
    }

    /// Where hart k stands at first.
    fn first(&self, k: usize, choices: &'c [u32], least: Option<Unmet>) -> Walk<'c>
        requires limits { IsWithinLimits (trace self.now) }
        requires hart { k < length self.now.start.now }
        ensures { walked result ≡ record { at = first_stand (trace self.now) k; least = least; left = Some choices.now } }
    {
        let start = &self.start[k];
        Walk {
            step: 0,
            pc: start.pc,
            regs: registers(start.places.as_slice()),
            records: self.records[k].as_slice(),
            choices: Some(choices),
            least,
        }
    }

    /// Notes a start that isn't the template's.
    fn note_start(
        &self,
        by: &Context<'_>,
        k: usize,
        told: &HartState,
        least: Option<Unmet>,
    ) -> Option<Unmet>
        requires hart { k < length self.now.start.now }
        ensures { result ≡ noted (context by.now) (start_failures (trace self.now) k told.now) least }
    {
        if starts_as(told, &self.start[k]) && self.has_words(k) {
            return least;
        }
        lesser(least, by.failure(0, NO_ATOM))
    }

    /// The least failure with those of hart k, and the numbers that are left for choices, None where it got stuck.
    fn judge(
        &self,
        k: usize,
        hart: &HartDecl,
        choices: &'c [u32],
        least: Option<Unmet>,
    ) -> (Option<Unmet>, Option<&'c [u32]>)
        requires limits { IsWithinLimits (trace self.now) }
        requires hart { k < length self.now.start.now }
        ensures least { result.0 ≡ noted (context_of (trace self.now) k) (hart_failures (trace self.now) k hart.now (expansion_of hart.now.body.items choices.now).pieces) least }
        ensures left { option_map (λ c. c.now) result.1 ≡ (expansion_of hart.now.body.items choices.now).left }
    {
        let by = self.context(k);
        let least = self.note_start(&by, k, &hart.start, least);
        let mut walk = self.first(k, choices, least);
        walk.items(&by, &hart.body);
        walk.end(&by);
        (walk.least, walk.choices)
    }

    /// Notes a choice that is left over behind the last hart.
    fn note_choices(&self, choices: Option<&[u32]>, least: Option<Unmet>) -> Option<Unmet>
        requires { IsWithinLimits (trace self.now) }
        ensures { result ≡ least_among (failures_from (trace self.now) (length self.now.template.now.harts) [] (option_map (λ c. c.now) choices.entry)) least }
    {
        match choices {
            None | Some([]) => least,
            Some(_) => {
                let last = self.template.harts.len().saturating_sub(1);
                let step = match self.records.get(last) {
                    None => 0,
                    Some(records) => records.len() as u32,
                };
                let lookup = Unmet {
                    hart: last as u8,
                    step,
                    atom: NO_ATOM,
                };
                lesser(least, lookup)
            }
        }
    }

    /// The least failure of the trace, by hart, step and atom.
    pub fn least_failure(&self) -> Option<Unmet>
        requires { IsWithinLimits (trace self.now) }
        ensures { result ≡ least_failure (trace self.now) }
    {
        let mut least = None;
        let mut choices = Some(self.choices);
        let mut k = 0;
        for hart in self.template.harts.as_slice() {
            let Some(left) = choices else {
                return least;
            };
            (least, choices) = self.judge(k, hart, left, least);
            k += 1;
        }
        self.note_choices(choices, least)
    }
}
