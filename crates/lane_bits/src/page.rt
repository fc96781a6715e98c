// Sets of numbers below 4,096.
ghost use Rattle.std.specs.Prelude.{◌≡◌, ℕ, ◌+◌, ◌<◌, ◌≤◌, ◌%◌, ◌*◌, ◌↔◌, ◌&&◌, ◌||◌, true, false, not, nat_eq, nat_lt, ◌⊎◌, length, replicate, IsTrue, IfSome, IfNone};
ghost use Rattle.std.specs.Int.{bit_at};
ghost use Rattle.std.specs.List.Sorted.{IsStrictlyIncreasing};
ghost use Rattle.lane_bits.specs.Pages.{elements_of, has, bit};

use std::marker::Model;
use std::simd::prelude::*;

const WORDS: usize = 64;

/// A set of numbers below 4,096.
#[derive(Drop)]
pub struct PageBits {
    words: [u64; WORDS],
}

impl Model for PageBits {
    ghost use Rattle.std.specs.Prelude.{List, ℕ};

    ghost Value = { List ℕ };

    ghost use Rattle.lane_bits.specs.Pages.{elements_of, bit};

    ghost view = { λ p. elements_of (bit p.words) };
}

/// The place of the lowest bit of a word.
fn lowest(word: u64) -> Option<u16>
    ensures within { IfSome result (λ v. v < 64) }
    ensures set { IfSome result (λ v. bit_at word v ≡ 1) }
    ensures clear { IfSome result (λ v. (j : ℕ) → j < v → bit_at word j ≡ 0) }
    ensures none { IfNone result ((j : ℕ) → bit_at word j ≡ 0) }
{
    if word == 0 {
        None
    } else {
        Some(word.trailing_zeros() as u16)
    }
}

/// Words that begin at a bit of the first of the words from a place on.
fn words_from(words: &[u64], first: usize, shift: u64) -> u64x64
    requires enough { first + WORDS < length words.now }
    requires within { shift < 64 }
    ensures { (x : ℕ) → x < 4096 → bit result x ≡ bit words.now (first * 64 + shift + x) }
{
    let low = u64x64::from_slice(&words[first..]);
    // Two shifts, since one by 64 bits is none.
    let next = u64x64::from_slice(&words[first + 1..]);
    let high = (next << u64x64::splat(1)) << u64x64::splat(63 - shift);
    (low >> u64x64::splat(shift)) | high
}

impl PageBits {
    /// The empty set.
    pub fn new() -> PageBits
        ensures { (x : ℕ) → has result x ≡ false }
    {
        PageBits { words: [0; WORDS] }
    }

    fn repeated(word: u64) -> PageBits
        ensures { result ≡ elements_of (bit (replicate 64 word)) }
    {
        PageBits {
            words: u64x64::splat(word).to_array(),
        }
    }

    /// The multiples of 1, of 2 or of 4.
    pub fn multiples_of(step: u8) -> PageBits
        requires { (step ≡ 1) ⊎ ((step ≡ 2) ⊎ (step ≡ 4)) }
        ensures { (x : ℕ) → has result x ≡ (nat_lt x 4096 && nat_eq (x % step) 0) }
    {
        if step == 1 {
            PageBits::repeated(u64::MAX)
        } else if step == 2 {
            PageBits::repeated(0x5555_5555_5555_5555)
        } else {
            PageBits::repeated(0x1111_1111_1111_1111)
        }
    }

    /// Whether the number is in.
    pub fn get(&self, i: u16) -> bool
        requires { i < 4096 }
        ensures { result ≡ has self.now i }
    {
        let word = self.words[usize::from(i / 64)];
        (word >> (i % 64)) & 1 == 1
    }

    /// Puts the number in.
    pub fn set(&mut self, i: u16)
        requires { i < 4096 }
        ensures { (x : ℕ) → has self.new x ≡ (has self.old x || nat_eq x i) }
    {
        self.words[usize::from(i / 64)] |= 1 << (i % 64);
    }

    /// Takes the number out.
    pub fn clear(&mut self, i: u16)
        requires { i < 4096 }
        ensures { (x : ℕ) → has self.new x ≡ (has self.old x && not (nat_eq x i)) }
    {
        self.words[usize::from(i / 64)] &= !(1 << (i % 64));
    }

    /// The common numbers.
    pub fn and(&self, other: &PageBits) -> PageBits
        ensures { (x : ℕ) → has result x ≡ (has self.now x && has other.now x) }
    {
        let lanes = u64x64::from_array(self.words) & u64x64::from_array(other.words);
        PageBits {
            words: lanes.to_array(),
        }
    }

    /// The numbers of both.
    pub fn or(&self, other: &PageBits) -> PageBits
        ensures { (x : ℕ) → has result x ≡ (has self.now x || has other.now x) }
    {
        let lanes = u64x64::from_array(self.words) | u64x64::from_array(other.words);
        PageBits {
            words: lanes.to_array(),
        }
    }

    /// The numbers that are not in the other set.
    pub fn and_not(&self, other: &PageBits) -> PageBits
        ensures { (x : ℕ) → has result x ≡ (has self.now x && not (has other.now x)) }
    {
        let own = u64x64::from_array(self.words);
        let lanes = own ^ (own & u64x64::from_array(other.words));
        PageBits {
            words: lanes.to_array(),
        }
    }

    /// Whether a number is in both.
    pub fn any_common(&self, other: &PageBits) -> bool
        ensures common { IsTrue result ↔ ((x : ℕ) × (has self.now x ≡ true) × (has other.now x ≡ true)) }
        ensures below { IsTrue result → (x : ℕ) × (x < 4096) × (has self.now x ≡ true) × (has other.now x ≡ true) }
    {
        self.and(other).first_from(0).is_some()
    }

    /// How many numbers there are.
    pub fn count(&self) -> u32
        ensures count { result ≡ length self.now }
        ensures ascending { IsStrictlyIncreasing self.now }
    {
        let mut total = 0;
        for word in self.words {
            total += word.count_ones();
        }
        total
    }

    /// The least number that is not below i.
    pub fn first_from(&self, i: u16) -> Option<u16>
        ensures found { IfSome result (λ v. has self.now v ≡ true) }
        ensures from { IfSome result (λ v. i ≤ v) }
        ensures below { IfSome result (λ v. v < 4096) }
        ensures least { IfSome result (λ v. (x : ℕ) → i ≤ x → x < v → has self.now x ≡ false) }
        ensures none { IfNone result ((x : ℕ) → i ≤ x → has self.now x ≡ false) }
    {
        let words = &self.words;
        if i >= 4096 {
            return None;
        }
        let first = i / 64;
        if let Some(place) = lowest(words[usize::from(first)] & (u64::MAX << (i % 64))) {
            return Some(first * 64 + place);
        }
        for k in first + 1..64 {
            if let Some(place) = lowest(words[usize::from(k)]) {
                return Some(k * 64 + place);
            }
        }
        None
    }

    /// The numbers x for which x + n is in.
    pub fn lowered(&self, n: u16) -> PageBits
        ensures { (x : ℕ) → has result x ≡ has self.now (x + n) }
    {
        let words = u64x64::from_array(self.words);
        if n >= 4096 {
            return PageBits::new();
        }
        let mut padded = [0; 2 * WORDS];
        words.copy_to_slice(&mut padded);
        let lanes = words_from(&padded, usize::from(n / 64), u64::from(n % 64));
        PageBits {
            words: lanes.to_array(),
        }
    }

    /// Whether, for some i in this set, i + n is in the other.
    pub fn shift_check(&self, other: &PageBits, n: u16) -> bool
        ensures { IsTrue result ↔ ((i : ℕ) × (has self.now i ≡ true) × (has other.now (i + n) ≡ true)) }
    {
        self.any_common(&other.lowered(n))
    }
}
