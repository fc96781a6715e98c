// Numbers that have given bits under a mask.
ghost use Rattle.std.specs.Prelude.{◌≡◌, bit_and};

use crate::steps::{END, low_bits};

/// The numbers whose bits under the mask are `bits`.
#[derive(Clone, Copy, PartialEq, Eq)]
pub struct Pattern {
    pub mask: u32,
    pub bits: u32,
    pub ghost within: { bit_and bits mask ≡ bits },
}

impl Pattern {
    ghost use Rattle.std.specs.Prelude.{◌≡◌, ℕ, ◌+◌, ◌-◌, ◌*◌, ◌/◌, ◌%◌, ◌^◌, ◌<◌, ◌≤◌, ◌↔◌, ◌&&◌, true, false, not, bit_and, IfSome, IsNone, IsTrue};
    ghost use Rattle.set_pieces.specs.Counting.{one, total};
    ghost use Rattle.set_pieces.specs.Internal.Patterns.{is_matched, matches, matches_below, IsStep};
    ghost use Rattle.set_pieces.specs.Ends.{IsLastTo};

    /// Whether the number matches.
    pub fn matches(self, x: u32) -> bool
        ensures { result ≡ matches self x }
    {
        x & self.mask == self.bits
    }

    /// The pattern of the halves of the numbers that match.
    fn half(self) -> Pattern
        ensures mask { result.mask ≡ self.mask / 2 }
        ensures bits { result.bits ≡ self.bits / 2 }
    {
        Pattern {
            mask: self.mask / 2,
            bits: self.bits / 2,
        }
    }

    /// How many numbers below the given one match, where these are a power of two apart.
    fn count_steps(self, x: u64) -> u64
        requires step { IsStep self }
        requires within { x ≤ 2 ^ 32 }
        ensures { result ≡ total (λ y. one (matches self y)) x }
    {
        (x + u64::from(self.mask - self.bits)) >> self.mask.count_ones()
    }

    /// How many numbers below the given one match.
    pub fn count_below(self, x: u64) -> u64
        requires { x ≤ 2 ^ 32 }
        ensures { result ≡ total (λ y. one (matches self y)) x }
    {
        if self.mask == 0 {
            return x;
        }
        if self.is_step() {
            return self.count_steps(x);
        }
        let half = self.half();
        let pairs = half.count_below(x / 2);
        let last = u64::from(x % 2 == 1 && half.matches((x / 2) as u32));
        if self.mask % 2 == 0 {
            pairs + pairs + last
        } else if self.bits % 2 == 0 {
            pairs + last
        } else {
            pairs
        }
    }

    /// The first number from the given one up that matches, where these are a power of two apart.
    fn next_step(self, from: u64) -> u64
        requires step { IsStep self }
        requires within { from ≤ 2 ^ 32 }
        ensures matching { matches self result ≡ true }
        ensures reached { from ≤ result }
        ensures first { (x : ℕ) → from ≤ x → x < result → matches self x ≡ false }
        ensures near { result ≤ from + self.mask }
    {
        let low = from & u64::from(self.mask);
        let same = from - low + u64::from(self.bits);
        if low <= u64::from(self.bits) {
            same
        } else {
            same + u64::from(self.mask) + 1
        }
    }

    /// The first number from the given one up that matches; it may be 2^32 or more.
    pub fn next_from(self, from: u64) -> u64
        requires { from ≤ 2 ^ 32 }
        ensures matching { matches self result ≡ true }
        ensures reached { from ≤ result }
        ensures first { (x : ℕ) → from ≤ x → x < result → matches self x ≡ false }
        ensures near { result ≤ from + 4 * self.mask }
    {
        if self.mask == 0 {
            return from;
        }
        if from < END && self.matches(from as u32) {
            return from;
        }
        if self.is_step() {
            return self.next_step(from);
        }
        let half = self.half();
        if self.mask % 2 == 0 {
            let next = half.next_from(from / 2);
            if next == from / 2 { from } else { 2 * next }
        } else if self.bits % 2 == 0 {
            2 * half.next_from((from + 1) / 2)
        } else {
            2 * half.next_from(from / 2) + 1
        }
    }

    /// The pattern of the numbers whose distances to the greatest number match.
    fn mirrored(self) -> Pattern
        ensures { (x : ℕ) → x < 2 ^ 32 → matches result (2 ^ 32 - 1 - x) ≡ matches self x }
    {
        Pattern {
            mask: self.mask,
            bits: self.mask & !self.bits,
        }
    }

    /// The last number up to the given one that matches.
    pub fn last_to(self, to: u32) -> Option<u32>
        ensures { IsLastTo (matches self) to result }
    {
        let first = self.mirrored().next_from(END - 1 - u64::from(to));
        if first < END {
            Some((END - 1 - first) as u32)
        } else {
            None
        }
    }

    /// The pattern of the numbers that match both.
    pub fn both(self, other: Pattern) -> Option<Pattern>
        ensures { (x : ℕ) → is_matched result x ≡ (matches self x && matches other x) }
    {
        if self.bits & other.mask != other.bits & self.mask {
            return None;
        }
        Some(Pattern {
            mask: self.mask | other.mask,
            bits: self.bits | other.bits,
        })
    }

    /// Whether it has all bits of the other: then the other matches where it does.
    pub fn is_within(self, other: Pattern) -> bool
        ensures { IsTrue result → (x : ℕ) → IsTrue (matches self x) → IsTrue (matches other x) }
    {
        self.mask & other.mask == other.mask && self.bits & other.mask == other.bits
    }

    /// The pattern of the numbers that have its bits below this one, and not this one.
    pub(crate) fn turned(self, bit: u32) -> Option<Pattern>
        requires { bit < 32 }
        ensures { (x : ℕ) → is_matched result x ≡ (matches_below self bit x && not (matches_below self (bit + 1) x)) }
    {
        let one = 1u32 << bit;
        if self.mask & one == 0 {
            return None;
        }
        let low = one | (one - 1);
        Some(Pattern {
            mask: self.mask & low,
            bits: (self.bits & low) ^ one,
        })
    }

    /// Changes nothing. Its contract says that a number has all bits of a pattern where it has those below
    /// bit 32, and that each number has those below bit 0.
    pub fn ends(self)
        ensures all { (x : ℕ) → matches_below self 32 x ≡ matches self x }
        ensures none { (x : ℕ) → matches_below self 0 x ≡ true }
    {}

    /// The two patterns of the numbers that match, by the lowest bit that the mask lacks below another one
    /// that it has; none where there is no such bit.
    pub fn halves(self) -> Option<(Pattern, Pattern)>
        ensures step { IsNone result ↔ IsStep self }
        ensures apart { IfSome result (λ h. (x : ℕ) → one (matches self x) ≡ one (matches h.0 x) + one (matches h.1 x)) }
        ensures finer { IfSome result (λ h. (self.mask < h.0.mask) × (self.mask < h.1.mask)) }
    {
        let bit = self.mask.trailing_ones();
        if bit == 32 {
            return None;
        }
        let free = 1u32 << bit;
        if self.mask < free {
            return None;
        }
        let mask = self.mask | free;
        Some((
            Pattern {
                mask,
                bits: self.bits,
            },
            Pattern {
                mask,
                bits: self.bits | free,
            },
        ))
    }

    /// Whether the mask has all bits below some bit, and no others.
    pub fn is_step(self) -> bool
        ensures { IsTrue result ↔ IsStep self }
    {
        self.halves().is_none()
    }

    /// A pattern that the same numbers match between two of which the first matches: the highest bits, which all
    /// numbers between these share, are left out.
    #[tactic(auto, using(crate::proofs::Halving::low_half, crate::proofs::Halving::within_pair))]
    pub fn between(self, low: u32, high: u32) -> Pattern
        requires ordered { low ≤ high }
        requires matching { matches self low ≡ true }
        ensures same { (x : ℕ) → low ≤ x → x ≤ high → matches result x ≡ matches self x }
        ensures fewer { result.mask ≤ self.mask }
    {
        if low == high {
            return Pattern { mask: 0, bits: 0 };
        }
        let rest = self.half().between(low / 2, high / 2);
        Pattern {
            mask: 2 * rest.mask + self.mask % 2,
            bits: 2 * rest.bits + self.bits % 2,
        }
    }

    /// The pattern of the numbers that match when bit 0 is cleared.
    pub fn with_odd(self) -> Option<Pattern>
        ensures { (x : ℕ) → is_matched result x ≡ matches self (x - x % 2) }
    {
        if self.bits % 2 == 1 {
            return None;
        }
        Some(Pattern {
            mask: self.mask - self.mask % 2,
            bits: self.bits,
        })
    }

    /// The pattern of the numbers whose bits under the mask match.
    pub fn masked(self, mask: u32) -> Option<Pattern>
        ensures { (x : ℕ) → is_matched result x ≡ matches self (bit_and x mask) }
    {
        if self.bits & mask != self.bits {
            return None;
        }
        Some(Pattern {
            mask: self.mask & mask,
            bits: self.bits,
        })
    }

    /// The pattern of the numbers that match, plus the distance.
    pub fn raised(self, distance: u32) -> Pattern
        requires { IsStep self }
        ensures { (y : ℕ) → distance ≤ y → matches result y ≡ matches self (y - distance) }
    {
        Pattern {
            mask: self.mask,
            bits: self.bits.wrapping_add(distance) & self.mask,
        }
    }

    /// The pattern of the numbers that match, less the distance.
    pub fn lowered(self, distance: u32) -> Pattern
        requires { IsStep self }
        ensures { (y : ℕ) → matches result y ≡ matches self (y + distance) }
    {
        Pattern {
            mask: self.mask,
            bits: self.bits.wrapping_sub(distance) & self.mask,
        }
    }

    /// The pattern of the multiples of 2^shift.
    pub fn multiples(shift: u32) -> Pattern
        requires { shift < 32 }
        ensures step { result.mask ≡ 2 ^ shift - 1 }
        ensures bits { result.bits ≡ 0 }
    {
        Pattern {
            mask: low_bits(u64::MAX, shift) as u32,
            bits: 0,
        }
    }
}
