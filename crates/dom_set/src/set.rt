// Sets of 32-bit numbers.
ghost use Rattle.std.specs.Prelude.{◌≡◌, ℕ, ◌+◌, ◌-◌, ◌^◌, ◌%◌, ◌<◌, ◌≤◌, ◌↔◌, ◌==◌, ◌&&◌, ◌||◌, true, [], length, filter, not, nat_lt, nat_le, Some, slice_get, ◌≢◌, ◌∷◌, MatchOption, IfOk, IfSome, IsTrue, IsNone, bit_and, All, Contains};
ghost use Rattle.std.specs.List.Sorted.{IsStrictlyIncreasing};
ghost use Rattle.std.specs.Int.{IsPowerOfTwo};
ghost use Rattle.set_pieces.specs.Ends.{HasPage, AreEnds};
ghost use Rattle.dom_set.specs.Tracks.{is_on_one};
ghost use Rattle.dom_set.specs.Elements.{elements_of, is_in, is_within, is_matching, is_signed_lt, first_cyclic};

use crate::track::Track;
use crate::{combined, lists, pairs, tracks};
use set_pieces::{END, OutOfMemory, Piece};
use std::alloc::Global;
use std::marker::Model;

/// A finite set of 32-bit numbers.
#[derive(Drop)]
pub struct Set {
    pieces: Vec<Piece>,
}

impl Model for Set {
    ghost use Rattle.std.specs.Prelude.{List, ℕ};

    ghost Value = { List ℕ };

    ghost use Rattle.dom_set.specs.Elements.{elements_of};
    ghost use Rattle.set_pieces.specs.Internal.Pieces.{holds, IsApart};

    ghost view = { λ s. elements_of (holds s.pieces.items) };

    ghost invariant = { λ s. IsApart s.pieces.items };
}

impl Set {
    /// The empty set, which takes no memory yet.
    pub fn new(alloc: Global) -> Set
        ensures { result ≡ [] }
    {
        Set {
            pieces: Vec::new(alloc),
        }
    }

    /// The same elements, in memory of their own.
    pub fn copy(&self, alloc: Global) -> Result<Set, OutOfMemory>
        ensures { IfOk result (λ s. s ≡ self.now) }
    {
        Ok(Set {
            pieces: Vec::from_slice(alloc, &self.pieces)?,
        })
    }

    /// The multiples of `align` in the ranges. Each pair is a lowest and a highest number; a pair
    /// whose lowest is above its highest is empty.
    pub fn from_ranges(alloc: Global, ranges: &[(u32, u32)], align: u32) -> Result<Set, OutOfMemory>
        requires { IsPowerOfTwo align }
        ensures { IfOk result (λ s. s ≡ elements_of (λ x. x % align == 0 && is_within ranges.now x)) }
    {
        let pieces = pairs::pieces_of(alloc, ranges, align)?;
        Ok(Set { pieces })
    }

    /// The numbers that match one of the patterns. Each pattern is a mask and the bits that a number has
    /// under it; nothing matches one with a bit outside its mask.
    pub fn from_patterns(alloc: Global, patterns: &[(u32, u32)]) -> Result<Set, OutOfMemory>
        ensures { IfOk result (λ s. s ≡ elements_of (is_matching patterns.now)) }
    {
        let pieces = combined::matching(alloc, patterns)?;
        Ok(Set { pieces })
    }

    /// Every word.
    pub fn all(alloc: Global) -> Result<Set, OutOfMemory>
        ensures { IfOk result (λ s. s ≡ elements_of (λ x. true)) }
    {
        let pieces = pairs::pieces_of(alloc, &[(0, u32::MAX)], 1)?;
        Ok(Set { pieces })
    }

    /// Whether the number is an element.
    pub fn has(&self, x: u32) -> bool
        ensures element { IsTrue result ↔ Contains self.now x }
        ensures test { result ≡ is_in self.now x }
    {
        lists::any_has(&self.pieces, x)
    }

    /// How many elements there are.
    pub fn size(&self) -> u64
        ensures size { result ≡ length self.now }
        ensures most { result ≤ 2 ^ 32 }
        ensures ascending { IsStrictlyIncreasing self.now }
        ensures words { All (λ x. x < 2 ^ 32) self.now }
    {
        lists::count_below(&self.pieces, END)
    }

    /// The element with so many below it.
    pub fn nth(&self, n: u64) -> u32
        requires { n < length self.now }
        ensures { slice_get self.now n ≡ Some result }
    {
        lists::nth(&self.pieces, n)
    }

    /// The first element from the pivot upwards, or the first of all where there is none.
    pub fn first_from(&self, pivot: u32) -> Option<u32>
        ensures first { result ≡ first_cyclic self.now pivot }
        ensures none { IsNone result ↔ (self.now ≡ []) }
    {
        match lists::first_from(&self.pieces, pivot) {
            Some(x) => Some(x),
            None => lists::first_from(&self.pieces, 0),
        }
    }

    /// Does nothing. Its contract says that the elements ascend and are words.
    pub fn element_laws(&self)
        ensures ascending { IsStrictlyIncreasing self.now }
        ensures words { All (λ x. x < 2 ^ 32) self.now }
    {
        let _ = self.pieces.len();
    }

    /// Whether there is no element.
    pub fn is_empty(&self) -> bool
        ensures { IsTrue result ↔ (self.now ≡ []) }
    {
        self.first_from(0).is_none()
    }

    /// The least element.
    pub fn least(&self) -> Option<u32>
        ensures { result ≡ slice_get self.now 0 }
    {
        lists::first_from(&self.pieces, 0)
    }

    /// The greatest element.
    pub fn greatest(&self) -> Option<u32>
        ensures greatest { result ≡ slice_get self.now (length self.now - 1) }
        ensures none { IsNone result ↔ (self.now ≡ []) }
    {
        lists::last(&self.pieces)
    }

    /// The element, where there is just one.
    pub fn only(&self) -> Option<u32>
        ensures { MatchOption result (length self.now ≢ 1) (λ x. self.now ≡ x ∷ []) }
    {
        let least = lists::first_from(&self.pieces, 0)?;
        let greatest = lists::last(&self.pieces)?;
        if least == greatest { Some(least) } else { None }
    }

    /// Whether there is just one element.
    pub fn is_single(&self) -> bool
        ensures { IsTrue result ↔ (length self.now ≡ 1) }
    {
        self.only().is_some()
    }

    /// The bits that all elements have under the mask, where they are known to be the same. They may be without being
    /// known to.
    pub fn bits_under(&self, mask: u32) -> Option<u32>
        ensures { IfSome result (λ bits. (x : ℕ) → IsTrue (is_in self.now x) → bit_and x mask ≡ bits) }
    {
        lists::bits_under(&self.pieces, mask)
    }

    /// In how many pieces it is kept, by which the time of calls goes.
    pub fn pieces(&self) -> usize {
        self.pieces.len()
    }

    /// Ranges that hold all elements, each from one element to another.
    pub fn spans(&self, alloc: Global) -> Result<Vec<(u32, u32)>, OutOfMemory>
        ensures covered { IfOk result (λ spans. (x : ℕ) → IsTrue (is_in self.now x) → IsTrue (is_within spans.items x)) }
        ensures ends { IfOk result (λ spans. All (AreEnds (is_in self.now)) spans.items) }
    {
        let spans = lists::spans(alloc, &self.pieces)?;
        Ok(spans)
    }

    /// Tracks that hold all elements, and perhaps more.
    pub fn tracks(&self, alloc: Global) -> Result<Vec<Track>, OutOfMemory>
        ensures { IfOk result (λ tracks. (x : ℕ) → IsTrue (is_in self.now x) → IsTrue (is_on_one tracks.items x)) }
    {
        let tracks = tracks::tracks(alloc, &self.pieces)?;
        Ok(tracks)
    }

    /// The number of a page of 4,096 numbers from the given one on, so that each page before it, from the given one on, has an
    /// element; 2^20 where all have. There may be pages with elements behind it: it is as far as the pieces tell soon.
    pub fn pages_end(&self, page: u32) -> u32
        requires { page ≤ 2 ^ 20 }
        ensures reached { page ≤ result }
        ensures most { result ≤ 2 ^ 20 }
        ensures held { (q : ℕ) → page ≤ q → q < result → HasPage (is_in self.now) q }
    {
        lists::pages_end(&self.pieces, page)
    }

    /// The elements that are no less than the number.
    pub fn from_on(&self, alloc: Global, x: u32) -> Result<Set, OutOfMemory>
        ensures { IfOk result (λ s. s ≡ filter (λ y. nat_le x y) self.now) }
    {
        let mut pieces = Vec::new(alloc);
        lists::push_clipped(&mut pieces, &self.pieces, u64::from(x), END)?;
        Ok(Set { pieces })
    }

    /// The common elements.
    pub fn and(&self, alloc: Global, other: &Set) -> Result<Set, OutOfMemory>
        ensures { IfOk result (λ s. s ≡ filter (is_in other.now) self.now) }
    {
        let pieces = combined::common(alloc, &self.pieces, &other.pieces)?;
        Ok(Set { pieces })
    }

    /// The elements that are not in the other set.
    pub fn minus(&self, alloc: Global, other: &Set) -> Result<Set, OutOfMemory>
        ensures { IfOk result (λ s. s ≡ filter (λ x. not (is_in other.now x)) self.now) }
    {
        let pieces = combined::minus(alloc, &self.pieces, &other.pieces)?;
        Ok(Set { pieces })
    }

    /// The elements of either set.
    pub fn or(&self, alloc: Global, other: &Set) -> Result<Set, OutOfMemory>
        ensures { IfOk result (λ s. s ≡ elements_of (λ x. is_in self.now x || is_in other.now x)) }
    {
        let pieces = combined::either(alloc, &self.pieces, &other.pieces)?;
        Ok(Set { pieces })
    }

    /// Each element plus the distance, modulo 2^32.
    pub fn shift(&self, alloc: Global, distance: u32) -> Result<Set, OutOfMemory>
        ensures { IfOk result (λ s. s ≡
            elements_of (λ y. is_in self.now ((y + (2 ^ 32 - distance)) % 2 ^ 32))) }
    {
        let pieces = lists::shifted(alloc, &self.pieces, distance)?;
        Ok(Set { pieces })
    }

    /// The words that are elements when bit 0 is cleared: each even element, and the number after it.
    pub fn with_odd(&self, alloc: Global) -> Result<Set, OutOfMemory>
        ensures { IfOk result (λ s. s ≡ elements_of (λ x. is_in self.now (x - x % 2))) }
    {
        let pieces = lists::with_odd(alloc, &self.pieces)?;
        Ok(Set { pieces })
    }

    /// The words of which the bits under the mask are an element.
    pub fn masked(&self, alloc: Global, mask: u32) -> Result<Set, OutOfMemory>
        ensures { IfOk result (λ s. s ≡ elements_of (λ x. is_in self.now (bit_and x mask))) }
    {
        let pieces = lists::masked(alloc, &self.pieces, mask)?;
        Ok(Set { pieces })
    }

    /// The same set. Each piece without a hole begins and ends at an element, so that later calls tell more by its ends.
    pub fn tightened(&self, alloc: Global) -> Result<Set, OutOfMemory>
        ensures { IfOk result (λ s. s ≡ self.now) }
    {
        let pieces = lists::tightened(alloc, &self.pieces)?;
        Ok(Set { pieces })
    }

    /// The elements that are less than the number.
    pub fn below(&self, alloc: Global, x: u32) -> Result<Set, OutOfMemory>
        ensures { IfOk result (λ s. s ≡ filter (λ y. nat_lt y x) self.now) }
    {
        let mut pieces = Vec::new(alloc);
        lists::push_clipped(&mut pieces, &self.pieces, 0, u64::from(x))?;
        Ok(Set { pieces })
    }

    /// The elements that are less than the number, both read as signed numbers.
    pub fn signed_below(&self, alloc: Global, x: u32) -> Result<Set, OutOfMemory>
        ensures { IfOk result (λ s. s ≡ filter (λ y. is_signed_lt y x) self.now) }
    {
        let mut pieces = Vec::new(alloc);
        if x >= LEAST {
            lists::push_clipped(&mut pieces, &self.pieces, u64::from(LEAST), u64::from(x))?;
            return Ok(Set { pieces });
        }
        lists::push_clipped(&mut pieces, &self.pieces, 0, u64::from(x))?;
        lists::push_clipped(&mut pieces, &self.pieces, u64::from(LEAST), END)?;
        Ok(Set { pieces })
    }
}

impl PartialEq for Set {
    ghost use Rattle.std.specs.Cmp;
    ghost use Rattle.std.specs.Cmp.Lexicographic.{pointwise, nat_list_eq_equiv};
    ghost use Rattle.std.specs.Prelude.{◌≡◌, ◌↔◌, IsTrue, nat_eq};

    ghost eq = { pointwise nat_eq };

    ghost laws = { Cmp.partial_equiv_from_equiv nat_list_eq_equiv };

    fn eq(&self, other: &Self) -> bool
        ensures value { result ≡ pointwise nat_eq self.now other.now }
        ensures same { IsTrue result ↔ (self.now ≡ other.now) }
    {
        combined::are_same(&self.pieces, &other.pieces)
    }
}

impl Eq for Set {
    ghost use Rattle.std.specs.Cmp.Lexicographic.{nat_list_eq_equiv};

    ghost laws = { nat_list_eq_equiv };
}

/// The number that is the least of all when read as a signed one.
const LEAST: u32 = 0x8000_0000;
