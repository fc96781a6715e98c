// What the relations of a case leave of its variables' domains.
ghost use Rattle.std.specs.Prelude.{◌≡◌, IfOk, IsTrue, OnOk};
ghost use Rattle.fd_prob.specs.Relations.{holds};
ghost use Rattle.fd_narrow.specs.Narrowing.{Narrows};
ghost use Rattle.fd_narrow.specs.Internal.Steps.{Leaves};

use crate::domains::Domains;
use dom_set::OutOfMemory;
use fd_prob::{Rel, SLOTS, Slot, mentions};
use rv_isa::Op;
use std::alloc::Global;

/// How often the relations are gone through, at most: so often that each of the 14 variables can become known
/// in a pass of its own, and not until ranges that rule each other out number by number are empty.
const PASSES: usize = 16;

/// Which variables lost values, by their places in the order of variables.
pub type Losses = [bool; 14];

/// When variables lost values and when relations were asked: a count that goes up where a relation takes values away.
#[derive(Drop)]
struct Times {
    /// When each variable last lost values.
    lost: [u32; 14],
    /// Up to when each relation knows which values are left.
    asked: Vec<u32>,
    /// When each relation had taken what it took when it was last asked.
    done: Vec<u32>,
    now: u32,
    /// Whether a variable has lost its last value.
    ended: bool,
}

/// Whether a relation that was just asked takes nothing more away if it is asked again, where the domains had these sizes
/// before.
fn is_done_at_once(rel: &Rel, before: &[u64; 14]) -> bool {
    match rel {
        Rel::Same(..) | Rel::Differ(..) | Rel::Holds { .. } | Rel::In(..) => true,
        Rel::Sum(s, t, _) => before[s.number()] == 1 || before[t.number()] == 1,
        Rel::Target(..) => before[Slot::A.number()] == 1 || before[Slot::Imm.number()] == 1,
        _ => false,
    }
}

/// Whether the relation is one of a sum: ranges that it cuts at their ends may rule each other out number by number.
fn is_of_sum(rel: &Rel) -> bool {
    matches!(rel, Rel::Sum(..) | Rel::Target(..))
}

/// Of how many rows a relation is asked before sums, at most.
const ROWS: usize = 4;

/// Whether the relation is asked first. Sums and many rows take longest, and less time where the others have taken what they can.
fn is_asked_first(rel: &Rel) -> bool {
    match rel {
        Rel::Rows(rows) => rows.as_slice().len() <= ROWS,
        _ => !is_of_sum(rel),
    }
}

/// Whether some variable lost as large a part of its values as would leave none after so many passes as there are at most.
fn has_lost_much(before: &[u64; 14], after: &[u64; 14]) -> bool {
    for place in 0..14 {
        let lost = before[place].saturating_sub(after[place]);
        if lost > 0 && lost.saturating_mul(PASSES as u64) >= before[place] {
            return true;
        }
    }
    false
}

/// The time of a relation, 0 where it has none.
fn time_of(times: &[u32], number: usize) -> u32 {
    match times.get(number) {
        Some(time) => *time,
        None => 0,
    }
}

impl Times {
    /// Before any of so many relations is asked, of which the first ones, `known`, know of all values that were not lost
    /// since.
    fn of(
        alloc: Global,
        count: usize,
        known: usize,
        losses: &Losses,
    ) -> Result<Times, OutOfMemory> {
        let mut lost = [1; 14];
        for place in 0..14 {
            if losses[place] {
                lost[place] = 2;
            }
        }
        let mut asked = Vec::new(alloc);
        let mut done = Vec::new(alloc);
        for number in 0..count {
            asked.push(if number < known { 1 } else { 0 })?;
            done.push(0)?;
        }
        Ok(Times {
            lost,
            asked,
            done,
            now: 2,
            ended: false,
        })
    }

    /// Whether the relation may look at a variable that lost values later than then.
    fn has_lost_since(&self, rel: &Rel, time: u32) -> bool {
        for place in 0..14 {
            if self.lost[place] > time && mentions(rel, SLOTS[place]) {
                return true;
            }
        }
        false
    }

    /// Whether the relation may look at a variable that lost values which it does not know of.
    fn is_touched(&self, rel: &Rel, number: usize) -> bool {
        self.has_lost_since(rel, time_of(&self.asked, number))
    }

    /// Whether, since the relation was last asked, no other one took values from a variable at which it may look.
    fn is_left_alone(&self, rel: &Rel, number: usize) -> bool {
        !self.has_lost_since(rel, time_of(&self.done, number))
    }

    /// Whether a relation of a sum that was just asked again, though no other one took values from its variables, took so
    /// little that it is not asked once more for that alone.
    fn is_creeping(&self, rel: &Rel, number: usize, before: &[u64; 14], after: &[u64; 14]) -> bool {
        is_of_sum(rel) && self.is_left_alone(rel, number) && !has_lost_much(before, after)
    }

    /// Notes what a relation took away, by the sizes of domains before it was asked and after.
    fn note(&mut self, rel: &Rel, number: usize, before: &[u64; 14], after: &[u64; 14]) {
        let is_over = is_done_at_once(rel, before) || self.is_creeping(rel, number, before, after);
        let mut time = self.now;
        let next = self.now.saturating_add(1);
        for place in 0..14 {
            if after[place] != before[place] {
                self.lost[place] = next;
                self.now = next;
                self.ended = self.ended || after[place] == 0;
            }
        }
        if is_over {
            time = self.now;
        }
        if number < self.asked.len() {
            self.asked[number] = time;
        }
        if number < self.done.len() {
            self.done[number] = self.now;
        }
    }
}

impl Domains {
    /// The domains without what the relations rule out, in a case of the operation.
    pub fn narrowed(self, alloc: Global, op: Op, rels: &[Rel]) -> Result<Domains, OutOfMemory>
        ensures { IfOk result (Narrows op rels.now self) }
    {
        self.narrowed_from(alloc, op, rels, 0, &[true; 14])
    }

    /// The same where they were narrowed before by the first `known` relations, or by these and more, and since then only
    /// some variables lost values: of these relations just those are asked that look at them, and then those that look at
    /// what others took values from.
    pub fn narrowed_from(
        self,
        alloc: Global,
        op: Op,
        rels: &[Rel],
        known: usize,
        losses: &Losses,
    ) -> Result<Domains, OutOfMemory>
        ensures { IfOk result (Narrows op rels.now self) }
    {
        let mut left = self;
        left.narrow(alloc, op, rels, known, losses)?;
        Ok(left)
    }

    /// The domains without what those relations rule out that tell it soon: no sum is asked, nor many rows.
    pub fn narrowed_soon(self, alloc: Global, op: Op, rels: &[Rel]) -> Result<Domains, OutOfMemory>
        ensures { IfOk result (Narrows op rels.now self) }
    {
        let mut left = self;
        if left.has_empty() {
            return Ok(left);
        }
        let mut times = Times::of(alloc, rels.len(), 0, &[true; 14])?;
        left.ask_firsts(alloc, op, rels, &mut times)?;
        Ok(left)
    }

    /// Takes from the domains what the relations rule out. After an error nothing is said of what is left.
    pub(crate) fn narrow(
        &mut self,
        alloc: Global,
        op: Op,
        rels: &[Rel],
        known: usize,
        losses: &Losses,
    ) -> Result<(), OutOfMemory>
        ensures { OnOk result (Narrows op rels.now self.old self.new) }
    {
        if self.has_empty() {
            return Ok(());
        }
        let mut times = Times::of(alloc, rels.len(), known, losses)?;
        for _ in 0..PASSES {
            let before = times.now;
            self.pass(alloc, op, rels, &mut times)?;
            if times.now == before || self.has_empty() {
                return Ok(());
            }
        }
        Ok(())
    }

    /// Goes through the relations that are asked first, or through the others, each alone, until a domain is empty.
    fn ask_those(
        &mut self,
        alloc: Global,
        op: Op,
        rels: &[Rel],
        times: &mut Times,
        first: bool,
    ) -> Result<(), OutOfMemory>
        ensures { OnOk result (Narrows op rels.now self.old self.new) }
    {
        for (number, rel) in rels.iter().enumerate() {
            if is_asked_first(rel) == first {
                self.ask(alloc, op, rel, number, times)?;
            }
        }
        Ok(())
    }

    /// Goes through the relations that are asked first. Where one took values and sums are to follow, it does so once more, since
    /// that may tell others of them more.
    fn ask_firsts(
        &mut self,
        alloc: Global,
        op: Op,
        rels: &[Rel],
        times: &mut Times,
    ) -> Result<(), OutOfMemory>
        ensures { OnOk result (Narrows op rels.now self.old self.new) }
    {
        let before = times.now;
        self.ask_those(alloc, op, rels, times, true)?;
        if times.now == before || !rels.iter().any(is_of_sum) {
            return Ok(());
        }
        self.ask_those(alloc, op, rels, times, true)?;
        Ok(())
    }

    /// Goes through the relations once, each alone and then all together, until a domain is empty.
    fn pass(
        &mut self,
        alloc: Global,
        op: Op,
        rels: &[Rel],
        times: &mut Times,
    ) -> Result<(), OutOfMemory>
        ensures { OnOk result (Narrows op rels.now self.old self.new) }
    {
        self.ask_firsts(alloc, op, rels, times)?;
        self.ask_those(alloc, op, rels, times, false)?;
        self.narrow_standing(alloc, op, rels);
        Ok(())
    }

    /// Takes from the domains what one relation rules out, if it may take anything away.
    fn ask(
        &mut self,
        alloc: Global,
        op: Op,
        rel: &Rel,
        number: usize,
        times: &mut Times,
    ) -> Result<(), OutOfMemory>
        ensures { OnOk result (Leaves (λ x. IsTrue (holds op x rel.now)) self.old self.new) }
    {
        if times.ended || !times.is_touched(rel, number) {
            return Ok(());
        }
        let before = self.sizes(rel);
        self.narrow_by(alloc, op, rel, times.is_left_alone(rel, number))?;
        let after = self.sizes(rel);
        times.note(rel, number, &before, &after);
        Ok(())
    }

    /// The sizes of the domains of the variables at which the relation may look, and 0 for the others.
    fn sizes(&mut self, rel: &Rel) -> [u64; 14]
        ensures { self.new ≡ self.old }
    {
        let mut sizes = [0; 14];
        for place in 0..14 {
            if mentions(rel, SLOTS[place]) {
                sizes[place] = self.size(SLOTS[place]);
            }
        }
        sizes
    }

    /// Takes from the domains what one relation rules out; `alone` says that since it was last asked no other one took values
    /// from its variables.
    fn narrow_by(
        &mut self,
        alloc: Global,
        op: Op,
        rel: &Rel,
        alone: bool,
    ) -> Result<(), OutOfMemory>
        ensures { OnOk result (Leaves (λ x. IsTrue (holds op x rel.now)) self.old self.new) }
    {
        match rel {
            Rel::Same(s, t) => self.narrow_same(alloc, *s, *t),
            Rel::Differ(s, t) => self.narrow_different(alloc, *s, *t),
            Rel::Sum(s, t, sum) => self.narrow_sum(alloc, *s, *t, *sum, alone),
            Rel::Taken(taken) => self.narrow_taken(alloc, op, *taken),
            Rel::Holds {
                index,
                value,
                table,
            } => self.narrow_held(alloc, *index, *value, table.as_slice()),
            Rel::Linked => self.narrow_linked(alloc),
            Rel::Target(pc, set) => self.narrow_target(alloc, op, *pc, set),
            Rel::In(s, set) => self.narrow_in(alloc, *s, set),
            Rel::Rows(rows) => self.narrow_rows(alloc, rows.as_slice()),
            Rel::Writes => self.narrow_writes(alloc, op),
        }
    }
}
