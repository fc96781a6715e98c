// Sums of variables.
ghost use Rattle.std.specs.Prelude.{◌≡◌, ◌+◌, ◌%◌, ◌^◌, IsTrue, OnOk};
ghost use Rattle.fd_prob.specs.Relations.{is_sum, value_of};
ghost use Rattle.fd_narrow.specs.Internal.Steps.{Leaves};

use crate::domains::Domains;
use dom_set::OutOfMemory;
use fd_prob::Slot;
use set_sums::{differences_within, halved, sums_within, words_of};
use std::alloc::Global;

/// In how many pieces a sum may be so that a part of it is cut by the sum's values one by one.
const FEW: usize = 8;

/// So many pieces are many for a sum.
const MANY: usize = 256;

/// Two variables, and the one that they add up to, modulo 2^32.
#[derive(Clone, Copy)]
struct Addition {
    s: Slot,
    t: Slot,
    sum: Slot,
}

impl Domains {
    /// Whether the first variable has one value and the second has not. Then what is left of the second and of their sum,
    /// which is exact, tells all that is known of the first.
    pub(crate) fn is_only_one_fixed(&self, s: Slot, t: Slot) -> bool {
        self.domain(s).is_single() && !self.domain(t).is_single()
    }

    /// Whether a variable may have any value.
    fn is_whole(&self, s: Slot) -> bool {
        self.domain(s).size() == 1 << 32
    }

    /// Whether what is left of a variable is not asked for. Where the other part may have any value, each value of the
    /// variable leads to the sum. Where the other part has one value, a search comes first to a sum that stands before the
    /// variable, and then the variable has its one value; what is left of it until then may be in far more pieces than the sum.
    /// What is left of a variable that may have any value tells little where the sum is in many pieces.
    fn is_left_alone(&self, of: Addition) -> bool {
        if self.is_whole(of.t) {
            return true;
        }
        let pieces = self.domain(of.sum).pieces();
        if self.domain(of.t).is_single() {
            return pieces > FEW && of.s.number() > of.sum.number();
        }
        pieces > MANY && self.is_whole(of.s)
    }

    /// Cuts the sum to what the two variables can add up to. Whatever is added to each word gives each word.
    fn narrow_total(&mut self, alloc: Global, of: Addition) -> Result<(), OutOfMemory>
        ensures { OnOk result (Leaves (λ x. IsTrue (is_sum x of.s of.t of.sum)) self.old self.new) }
    {
        if self.is_whole(of.s) || self.is_whole(of.t) {
            return Ok(());
        }
        let totals = sums_within(
            alloc,
            self.domain(of.s),
            self.domain(of.t),
            self.domain(of.sum),
        )?;
        self.cut(alloc, of.sum, &totals)
    }

    /// Cuts a variable to what leads to the sum when the other is added.
    fn narrow_part(&mut self, alloc: Global, of: Addition) -> Result<(), OutOfMemory>
        ensures { OnOk result (Leaves (λ x. IsTrue (is_sum x of.s of.t of.sum)) self.old self.new) }
    {
        if self.is_only_one_fixed(of.s, of.t) {
            return Ok(());
        }
        if self.is_left_alone(of) {
            return Ok(());
        }
        let parts = differences_within(
            alloc,
            self.domain(of.sum),
            self.domain(of.t),
            self.domain(of.s),
        )?;
        self.cut(alloc, of.s, &parts)
    }

    /// Cuts a variable to 0: a sum is one of its own parts just where the other part is 0.
    fn narrow_other_part(&mut self, alloc: Global, s: Slot, t: Slot) -> Result<(), OutOfMemory>
        ensures { OnOk result (Leaves (λ x. IsTrue (is_sum x s t t)) self.old self.new) }
    {
        let zero = words_of(alloc, &[(0, 0)])?;
        self.cut(alloc, s, &zero)
    }

    /// The sum is twice the variable.
    fn narrow_doubled(&mut self, alloc: Global, s: Slot, sum: Slot) -> Result<(), OutOfMemory>
        ensures { OnOk result (Leaves (λ x. IsTrue (is_sum x s s sum)) self.old self.new) }
    {
        self.narrow_total(alloc, Addition { s, t: s, sum })?;
        let parts = halved(alloc, self.domain(sum))?;
        self.cut(alloc, s, &parts)
    }

    /// Cuts a variable to what leads to the sum when the other is added, but for an immediate whose sum was asked before and
    /// was left alone since: then each of its values leads from a value of the other to one of the sum, and these were kept.
    fn narrow_touched(
        &mut self,
        alloc: Global,
        of: Addition,
        alone: bool,
    ) -> Result<(), OutOfMemory>
        ensures { OnOk result (Leaves (λ x. IsTrue (is_sum x of.s of.t of.sum)) self.old self.new) }
    {
        if alone && of.s == Slot::Imm {
            return Ok(());
        }
        self.narrow_part(alloc, of)
    }

    /// Three variables of which the first two add up to the third.
    fn narrow_parts(&mut self, alloc: Global, of: Addition, alone: bool) -> Result<(), OutOfMemory>
        ensures { OnOk result (Leaves (λ x. IsTrue (is_sum x of.s of.t of.sum)) self.old self.new) }
    {
        self.narrow_total(alloc, of)?;
        self.narrow_touched(alloc, of, alone)?;
        let turned = Addition {
            s: of.t,
            t: of.s,
            sum: of.sum,
        };
        self.narrow_touched(alloc, turned, alone)
    }

    /// The first two variables add up to the third, modulo 2^32; `alone` says that this was asked before, and that since then
    /// nothing else took values from the three.
    pub(crate) fn narrow_sum(
        &mut self,
        alloc: Global,
        s: Slot,
        t: Slot,
        sum: Slot,
        alone: bool,
    ) -> Result<(), OutOfMemory>
        ensures { OnOk result (Leaves (λ x. IsTrue (is_sum x s t sum)) self.old self.new) }
    {
        if t == sum {
            self.narrow_other_part(alloc, s, t)
        } else if s == sum {
            self.narrow_other_part(alloc, t, s)
        } else if s == t {
            self.narrow_doubled(alloc, s, sum)
        } else {
            self.narrow_parts(alloc, Addition { s, t, sum }, alone)
        }
    }
}
