// Ranges of numbers of which those count that match a pattern.
ghost use Rattle.std.specs.Prelude.{◌≤◌, ◌<◌, ◌^◌};

use crate::pattern::Pattern;
use crate::steps::END;

/// The numbers from `low` to `high` that match the pattern.
#[derive(Clone, Copy, PartialEq, Eq)]
pub struct Run {
    pub low: u32,
    pub high: u32,
    pub pattern: Pattern,
    pub ghost ordered: { low ≤ high },
    pub ghost fits: { high < 2 ^ 32 },
}

impl Run {
    ghost use Rattle.std.specs.Prelude.{◌≡◌, ℕ, ◌+◌, ◌-◌, ◌%◌, ◌^◌, ◌<◌, ◌≤◌, ◌&&◌, ◌==◌, true, false, not, nat_lt, nat_le, bit_and, IfSome, IsNone};
    ghost use Rattle.set_pieces.specs.Counting.{one, total};
    ghost use Rattle.set_pieces.specs.Internal.Patterns.{matches, matches_below, IsStep};
    ghost use Rattle.set_pieces.specs.Internal.Runs.{in_span, in_run, is_in_run, HoldsSome};
    ghost use Rattle.set_pieces.specs.Ends.{HasPage, IsFirstFrom, IsLast, AreEnds};

    /// The numbers whose bits under the mask are these, if it has them all. Where the highest bits are among
    /// them, the ends tell these, and the pattern those below the highest bit that the mask lacks.
    pub fn matching(mask: u32, bits: u32) -> Option<Run>
        ensures held { (x : ℕ) → x < 2 ^ 32 → is_in_run result x ≡ (bit_and x mask == bits) }
        ensures some { IfSome result HoldsSome }
    {
        if bits & mask != bits {
            return None;
        }
        let lacks = !mask;
        let below = ((u64::from(lacks) + 1).next_power_of_two() - 1) as u32;
        Some(Run {
            low: bits,
            high: bits | lacks,
            pattern: Pattern {
                mask: mask & below,
                bits: bits & below,
            },
        })
    }

    /// The bits that all its numbers have under the mask, where its pattern tells them or there is just one number.
    pub fn bits_under(self, mask: u32) -> Option<u32>
        ensures { IfSome result (λ bits. (x : ℕ) → in_run self x ≡ true → bit_and x mask ≡ bits) }
    {
        if self.pattern.mask & mask == mask {
            return Some(self.pattern.bits & mask);
        }
        let (low, high) = self.span()?;
        if low == high { Some(low & mask) } else { None }
    }

    /// Whether it holds the number.
    pub fn has(self, x: u32) -> bool
        ensures { result ≡ in_run self x }
    {
        self.low <= x && x <= self.high && self.pattern.matches(x)
    }

    /// Its numbers from one number on and below another.
    pub fn clipped(self, from: u64, end: u64) -> Option<Run>
        requires { from ≤ 2 ^ 32 }
        ensures held { (x : ℕ) →
            is_in_run result x ≡ (in_run self x && (nat_le from x && nat_lt x end)) }
        ensures pattern { IfSome result (λ r. r.pattern ≡ self.pattern) }
        ensures from { IfSome result (λ r. from ≤ r.low) }
        ensures end { IfSome result (λ r. r.high < end) }
        ensures some { IfSome result HoldsSome }
    {
        let low = from.max(u64::from(self.low));
        let end = end.min(u64::from(self.high) + 1);
        if end <= self.pattern.next_from(low) {
            return None;
        }
        Some(Run {
            low: low as u32,
            high: (end - 1) as u32,
            pattern: self.pattern,
        })
    }

    /// The numbers between its ends that match another pattern.
    pub fn with_pattern(self, pattern: Pattern) -> Run
        ensures held { (x : ℕ) → in_run result x ≡ (in_span self x && matches pattern x) }
        ensures pattern { result.pattern ≡ pattern }
    {
        Run {
            low: self.low,
            high: self.high,
            pattern,
        }
    }

    /// Its first number from the given one up.
    pub fn first_from(self, from: u32) -> Option<u32>
        ensures { IsFirstFrom (in_run self) from result }
    {
        if self.high < from {
            return None;
        }
        let first = self.pattern.next_from(u64::from(from.max(self.low)));
        if first <= u64::from(self.high) {
            Some(first as u32)
        } else {
            None
        }
    }

    /// Its last number.
    pub fn last(self) -> Option<u32>
        ensures { IsLast (in_run self) result }
    {
        let last = self.pattern.last_to(self.high)?;
        if self.low <= last { Some(last) } else { None }
    }

    /// Its lowest and its highest number.
    pub fn span(self) -> Option<(u32, u32)>
        ensures none { IsNone result → (x : ℕ) → in_run self x ≡ false }
        ensures covered { IfSome result (λ s. (x : ℕ) → in_run self x ≡ true → (s.0 ≤ x) × (x ≤ s.1)) }
        ensures ends { IfSome result (AreEnds (in_run self)) }
    {
        let low = self.first_from(0)?;
        let high = self.last()?;
        Some((low, high))
    }

    /// The same numbers, from the first of them to the last one, by a pattern without the highest bits that they share.
    pub fn tightened(self) -> Option<Run>
        ensures { (x : ℕ) → is_in_run result x ≡ in_run self x }
    {
        let low = self.first_from(0)?;
        let high = self.last()?;
        Some(Run {
            low,
            high,
            pattern: self.pattern.between(low, high),
        })
    }

    /// A page from the given one on, so that each page before it, from the given one on, has one of the numbers.
    pub fn pages_end(self, page: u32) -> u32
        requires { page ≤ 2 ^ 20 }
        ensures reached { page ≤ result }
        ensures most { result ≤ 2 ^ 20 }
        ensures held { (q : ℕ) → page ≤ q → q < result → HasPage (in_run self) q }
    {
        if self.pattern.mask < 4096 && u64::from(self.low) <= u64::from(page) * 4096 {
            page.max(self.high / 4096)
        } else {
            page
        }
    }

    /// How many of its numbers are below the given one.
    pub fn count_below(self, x: u64) -> u64
        ensures { result ≡ total (λ y. one (in_run self y)) x }
    {
        let end = x.min(u64::from(self.high) + 1);
        let low = u64::from(self.low);
        if end <= low {
            0
        } else {
            self.pattern.count_below(end) - self.pattern.count_below(low)
        }
    }

    /// The numbers that both runs hold.
    pub fn common(self, other: Self) -> Option<Run>
        ensures held { (x : ℕ) → is_in_run result x ≡ (in_run self x && in_run other x) }
        ensures some { IfSome result HoldsSome }
    {
        if self.high < other.low || other.high < self.low {
            return None;
        }
        match self.pattern.both(other.pattern) {
            Some(pattern) => {
                let both = self.with_pattern(pattern);
                both.clipped(u64::from(other.low), u64::from(other.high) + 1)
            }
            None => None,
        }
    }

    /// Its numbers that match the pattern.
    pub fn matched(self, pattern: Pattern) -> Option<Run>
        ensures { (x : ℕ) → is_in_run result x ≡ (in_run self x && matches pattern x) }
    {
        match self.pattern.both(pattern) {
            Some(both) => self
                .with_pattern(both)
                .clipped(u64::from(self.low), u64::from(self.high) + 1),
            None => None,
        }
    }

    /// Its numbers that have the pattern's bits below this one, and not this one.
    pub fn missed(self, other: Pattern, bit: u32) -> Option<Run>
        requires { bit < 32 }
        ensures { (x : ℕ) → is_in_run result x ≡ (in_run self x &&
            (matches_below other bit x && not (matches_below other (bit + 1) x))) }
    {
        match other.turned(bit) {
            Some(turned) => self.matched(turned),
            None => None,
        }
    }

    /// The numbers that it holds when bit 0 is cleared.
    pub fn with_odd(self) -> Option<Run>
        ensures held { (x : ℕ) → x < 2 ^ 32 → is_in_run result x ≡ in_run self (x - x % 2) }
        ensures some { IfSome result HoldsSome }
    {
        let low = u64::from(self.low) + u64::from(self.low % 2);
        let high = self.high - self.high % 2 + 1;
        if u64::from(high) < low {
            return None;
        }
        match self.pattern.with_odd() {
            Some(pattern) => {
                let both = Run {
                    low: low as u32,
                    high,
                    pattern,
                };
                both.clipped(0, END)
            }
            None => None,
        }
    }

    /// Each number plus the distance.
    fn raised(self, distance: u32) -> Run
        requires step { IsStep self.pattern }
        requires fits { self.high + distance < 2 ^ 32 }
        ensures { (y : ℕ) → in_run result y ≡
            (nat_le distance y && in_run self (y - distance)) }
    {
        Run {
            low: self.low + distance,
            high: self.high + distance,
            pattern: self.pattern.raised(distance),
        }
    }

    /// Each number less the distance.
    fn lowered(self, distance: u32) -> Run
        requires step { IsStep self.pattern }
        requires above { distance ≤ self.low }
        ensures { (y : ℕ) → in_run result y ≡ in_run self (y + distance) }
    {
        Run {
            low: self.low - distance,
            high: self.high - distance,
            pattern: self.pattern.lowered(distance),
        }
    }

    /// Each number plus the distance, where that is below 2^32.
    pub fn shifted_within(self, distance: u32) -> Option<Run>
        requires { IsStep self.pattern }
        ensures held { (y : ℕ) → y < 2 ^ 32 → is_in_run result y ≡
            (nat_le distance y && in_run self (y - distance)) }
        ensures some { IfSome result HoldsSome }
    {
        match self.clipped(0, END - u64::from(distance)) {
            Some(low) => Some(low.raised(distance)),
            None => None,
        }
    }

    /// Each number plus the distance less 2^32, where that is no less than 0.
    pub fn shifted_past(self, distance: u32) -> Option<Run>
        requires { IsStep self.pattern }
        ensures held { (y : ℕ) → y < 2 ^ 32 → is_in_run result y ≡
            (nat_lt y distance && in_run self (y + (2 ^ 32 - distance))) }
        ensures some { IfSome result HoldsSome }
    {
        let cut = END - u64::from(distance);
        match self.clipped(cut, END) {
            Some(high) => Some(high.lowered(cut as u32)),
            None => None,
        }
    }
}
