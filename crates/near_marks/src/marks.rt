// Numbers below 4,096 that are marked.
ghost use Rattle.std.specs.Prelude.{◌≡◌, ℕ, ◌+◌, ◌*◌, ◌/◌, ◌%◌, ◌^◌, ◌<◌, ◌≤◌, ◌&&◌, ◌||◌, false, not, nat_eq, IfNone, IfSome, IsTrue};
ghost use Rattle.lane_bits.specs.Pages.{has};
ghost use Rattle.near_marks.specs.Internal.Near.{AreAllMarked, AreStillMarked, HasGap, HaveAll, HaveEach, is_marked};
ghost use Rattle.near_marks.specs.Internal.Turned.{HasRowGap, IsFirstTurned, IsRowMarked, NoneTurned, place_of};

use crate::steps::{NEAR, REACH, step};
use lane_bits::PageBits;
use std::marker::Model;

/// Numbers that leave the same remainder by 2^shift stand in rows of those that leave one by 64, where the shift is below
/// this.
const ROWS: u32 = 6;

/// Numbers below 4,096 of which some are marked. Those that are not are kept twice: in their order, and by what they leave
/// when they are divided by 64, so that those a power of two apart are found without a look at the others.
#[derive(Drop)]
pub struct Marks {
    gaps: PageBits,
    // The same, each at 64 times what it leaves plus its quotient.
    turned: PageBits,
    // What they leave, and perhaps more.
    rests: PageBits,
}

impl Model for Marks {
    ghost use Rattle.std.specs.Prelude.{List, ℕ};

    ghost Value = { List ℕ };

    ghost use Rattle.near_marks.specs.Internal.Turned.{AreKept};

    ghost view = { λ m. m.gaps };

    ghost invariant = { λ m. AreKept m.gaps m.turned m.rests };
}

/// Where the number stands among those by what they leave.
fn place_of(number: u64) -> u16
    requires { number < 4096 }
    ensures place { result ≡ place_of number }
    ensures within { result < 4096 }
{
    ((number % 64) * 64 + number / 64) as u16
}

impl Marks {
    /// Every number is marked.
    pub fn all() -> Marks
        ensures { AreAllMarked result }
    {
        Marks {
            gaps: PageBits::new(),
            turned: PageBits::new(),
            rests: PageBits::new(),
        }
    }

    /// No number is marked.
    fn none() -> Marks {
        Marks {
            gaps: PageBits::multiples_of(1),
            turned: PageBits::multiples_of(1),
            rests: PageBits::multiples_of(1),
        }
    }

    /// Takes the number's mark away.
    fn unmark(&mut self, number: u64)
        requires { number < 4096 }
    {
        self.gaps.set(number as u16);
        self.turned.set(place_of(number));
        self.rests.set((number % 64) as u16);
    }

    /// Takes away the marks of the words of a range, each plus the reach, or all where not all of these are below 4,096.
    fn unmark_range(&mut self, range: (u32, u32)) {
        let low = u64::from(range.0.wrapping_add(REACH as u32));
        let high = u64::from(range.1.wrapping_add(REACH as u32));
        if low > high || high >= NEAR || high - low == NEAR - 1 {
            *self = Marks::none();
            return;
        }
        for number in low..high + 1 {
            self.unmark(number);
        }
    }

    /// The numbers are marked that are no word of the ranges plus the reach, since these are not looked for.
    pub fn but_for(ranges: &[(u32, u32)]) -> Marks {
        let mut marks = Marks::all();
        for range in ranges {
            marks.unmark_range(*range);
        }
        marks
    }

    /// Marks the number.
    pub fn mark(&mut self, number: u64)
        requires { number < 4096 }
        ensures { (x : ℕ) → has self.new x ≡ (has self.old x && not (nat_eq x number)) }
    {
        self.gaps.clear(number as u16);
        self.turned.clear(place_of(number));
    }

    /// The first number from the given one up that is not marked.
    pub fn first_gap(&self, from: u64) -> Option<u64>
        requires { from ≤ 4096 }
        ensures from { IfSome result (λ v. from ≤ v) }
        ensures within { IfSome result (λ v. v < 4096) }
        ensures first { IfSome result (λ v. (x : ℕ) → from ≤ x → x < v → IsTrue (is_marked self.now x)) }
        ensures none { IfNone result ((x : ℕ) → from ≤ x → IsTrue (is_marked self.now x)) }
    {
        match self.gaps.first_from(from as u16) {
            Some(number) => Some(u64::from(number)),
            None => None,
        }
    }

    /// The first number that is not marked, from the place on, by what the numbers leave.
    fn first_turned(&self, from: u16) -> Option<u64>
        ensures some { IfSome result (IsFirstTurned self.now from) }
        ensures none { IfNone result (NoneTurned self.now from) }
    {
        match self.turned.first_from(from) {
            Some(place) => Some(u64::from(place % 64) * 64 + u64::from(place / 64)),
            None => None,
        }
    }

    /// Whether a number that leaves this may lack its mark.
    fn may_lack(&self, rest: u64) -> bool
        requires { rest < 64 }
        ensures { result ≡ false → IsRowMarked self.now rest }
    {
        self.rests.get(rest as u16)
    }

    /// Whether all numbers that leave this are marked, by a look at them.
    fn is_row_marked(&self, rest: u64) -> bool
        requires { rest < 64 }
        ensures { IsTrue result → IsRowMarked self.now rest }
    {
        match self.first_turned((rest * 64) as u16) {
            Some(number) => number % 64 != rest,
            None => true,
        }
    }

    /// The same, and it is kept in mind.
    fn is_full(&mut self, rest: u64) -> bool
        requires { rest < 64 }
        ensures full { IsTrue result → IsRowMarked self.new rest }
        ensures same { self.new ≡ self.old }
    {
        if !self.may_lack(rest) {
            return true;
        }
        if !self.is_row_marked(rest) {
            return false;
        }
        self.rests.clear(rest as u16);
        true
    }

    /// Marks the numbers from the first to the last one.
    fn mark_range(&mut self, first: u64, last: u64)
        requires { last < 4096 }
        ensures marked { HaveAll self.new first last }
        ensures kept { AreStillMarked self.old self.new }
    {
        if first == 0 && last == NEAR - 1 {
            *self = Marks::all();
            return;
        }
        let mut from = first.min(NEAR);
        while let Some(number) = self.first_gap(from) {
            if number > last {
                return;
            }
            self.mark(number);
            from = number + 1;
        }
    }

    /// Marks the numbers from the first to the last one that are a multiple of 64 from the first.
    fn mark_row(&mut self, first: u64, last: u64)
        requires ordered { first ≤ last }
        requires end { last < 4096 }
        ensures marked { HaveEach self.new first last 6 }
        ensures kept { AreStillMarked self.old self.new }
    {
        if self.is_full(first % 64) {
            return;
        }
        let mut from = place_of(first);
        let end = from + ((last - first) / 64) as u16;
        while let Some(number) = self.first_turned(from) {
            let place = place_of(number);
            if place > end {
                return;
            }
            self.mark(number);
            from = place + 1;
        }
    }

    /// Marks the numbers from the first to the last one, 2^shift apart, one row after another.
    fn mark_rows(&mut self, first: u64, last: u64, shift: u32)
        requires end { last < 4096 }
        requires within { shift ≤ 6 }
        ensures marked { HaveEach self.new first last shift }
        ensures kept { AreStillMarked self.old self.new }
    {
        let step = step(shift);
        let end = last.min(first.saturating_add(63));
        let mut number = first;
        while number <= end {
            self.mark_row(number, last);
            number += step;
        }
    }

    /// The same, one number after another.
    fn mark_singly(&mut self, first: u64, last: u64, shift: u32)
        requires end { last < 4096 }
        requires within { shift < 32 }
        ensures marked { HaveEach self.new first last shift }
        ensures kept { AreStillMarked self.old self.new }
    {
        let step = step(shift);
        let mut number = first;
        while number <= last {
            self.mark(number);
            number += step;
        }
    }

    /// Marks the numbers from the first to the last one, 2^shift apart.
    pub fn mark_each(&mut self, first: u64, last: u64, shift: u32)
        requires end { last < 4096 }
        requires within { shift < 32 }
        ensures marked { HaveEach self.new first last shift }
        ensures kept { AreStillMarked self.old self.new }
    {
        if shift == 0 {
            self.mark_range(first, last);
        } else if shift < ROWS {
            self.mark_rows(first, last, shift);
        } else {
            self.mark_singly(first, last, shift);
        }
    }

    /// Whether a number from the first to the last one is not marked.
    pub fn has_gap(&self, first: u64, last: u64) -> bool
        ensures { HasGap self.now first last result }
    {
        match self.first_gap(first.min(NEAR)) {
            Some(number) => number <= last,
            None => false,
        }
    }

    /// Whether a number from the first to the last one that leaves this when it is divided by 64 is not marked.
    pub fn has_row_gap(&self, rest: u64, first: u64, last: u64) -> bool
        requires rest { rest < 64 }
        ensures { HasRowGap self.now rest first last result }
    {
        if first >= NEAR {
            return false;
        }
        if !self.may_lack(rest) {
            return false;
        }
        let begin = first + (rest + 64 - first % 64) % 64;
        if begin >= NEAR {
            return false;
        }
        match self.first_turned(place_of(begin)) {
            Some(number) => number % 64 == rest && number <= last,
            None => false,
        }
    }

    /// How many numbers are not marked.
    pub fn count(&self) -> u32 {
        self.gaps.count()
    }

    /// The marked numbers.
    pub fn page(self) -> PageBits
        ensures { (x : ℕ) → x < 4096 → IsTrue (is_marked self x) → IsTrue (has result x) }
    {
        PageBits::multiples_of(1).and_not(&self.gaps)
    }
}
