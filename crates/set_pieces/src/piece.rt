// Runs but for the numbers that a second pattern matches.
ghost use Rattle.std.specs.Prelude.{◌≡◌, ℕ, ◌-◌, ◌+◌, ◌%◌, ◌^◌, ◌<◌, ◌≤◌, ◌&&◌, ◌||◌, true, false, not, nat_lt, nat_le, bit_and, IfSome, IsNone};
ghost use Rattle.set_pieces.specs.Counting.{one, total};
ghost use Rattle.set_pieces.specs.Internal.Patterns.{is_matched, matches, matches_below, IsStep};
ghost use Rattle.set_pieces.specs.Ends.{HasPage, IsFirstFrom, IsLast, AreEnds};
ghost use Rattle.set_pieces.specs.Internal.Runs.{in_run, is_in_run};
ghost use Rattle.set_pieces.specs.Internal.Pieces.{in_piece, is_held};

use crate::holes::{first_without, last_without, pages_unmatched};
use crate::pattern::Pattern;
use crate::run::Run;

/// The numbers of the run that its hole doesn't match, if it has one.
#[derive(Clone, Copy, PartialEq, Eq)]
pub struct Piece {
    pub run: Run,
    pub hole: Option<Pattern>,
}

/// How many numbers below the given one the run holds, if there is a run.
#[tactic(auto, using(crate::proofs::Totals::total_zero))]
fn count_of(run: Option<Run>, x: u64) -> u64
    ensures { result ≡ total (λ y. one (is_in_run run y)) x }
{
    match run {
        Some(run) => run.count_below(x),
        None => 0,
    }
}

/// The pattern of the numbers that match when bit 0 is cleared.
fn odd_hole(hole: Option<Pattern>) -> Option<Pattern>
    ensures { (x : ℕ) → is_matched result x ≡ is_matched hole (x - x % 2) }
{
    match hole {
        Some(hole) => hole.with_odd(),
        None => None,
    }
}

impl Piece {
    /// All numbers of the run.
    pub fn whole(run: Run) -> Piece
        ensures held { (x : ℕ) → in_piece result x ≡ in_run run x }
        ensures run { result.run ≡ run }
        ensures hole { IsNone result.hole }
    {
        Piece { run, hole: None }
    }

    /// The numbers of the run that the pattern doesn't match, if there are any. The hole is kept only where it matches one
    /// of the run's numbers.
    fn less(run: Run, hole: Pattern) -> Option<Piece>
        ensures { (x : ℕ) → is_held result x ≡ (in_run run x && not (matches hole x)) }
    {
        if run.matched(hole).is_none() {
            return Some(Piece::whole(run));
        }
        let piece = Piece {
            run,
            hole: Some(hole),
        };
        match piece.first_from(0) {
            Some(_) => Some(piece),
            None => None,
        }
    }

    /// The same, where the pattern need not have the bits of the run's own: the hole gets them, too.
    fn unmatched(run: Run, hole: Pattern) -> Option<Piece>
        ensures { (x : ℕ) → is_held result x ≡ (in_run run x && not (matches hole x)) }
    {
        match run.pattern.both(hole) {
            Some(both) => Piece::less(run, both),
            None => Some(Piece::whole(run)),
        }
    }

    /// The numbers of the run that the hole doesn't match. None only where there is none.
    pub fn of(run: Run, hole: Option<Pattern>) -> Option<Piece>
        ensures { (x : ℕ) → is_held result x ≡ (in_run run x && not (is_matched hole x)) }
    {
        match hole {
            Some(hole) => Piece::unmatched(run, hole),
            None => Some(Piece::whole(run)),
        }
    }

    /// Whether the hole matches the number.
    fn is_missing(self, x: u32) -> bool
        ensures { result ≡ is_matched self.hole x }
    {
        match self.hole {
            Some(hole) => hole.matches(x),
            None => false,
        }
    }

    /// The numbers of the run that the hole matches.
    pub fn filled(self) -> Option<Run>
        ensures { (x : ℕ) → is_in_run result x ≡ (in_run self.run x && is_matched self.hole x) }
    {
        match self.hole {
            Some(hole) => self.run.matched(hole),
            None => None,
        }
    }

    /// The bits that all its numbers have under the mask, where its run's pattern tells them, or the run has just one
    /// number.
    pub fn bits_under(self, mask: u32) -> Option<u32>
        ensures { IfSome result (λ bits. (x : ℕ) → in_piece self x ≡ true → bit_and x mask ≡ bits) }
    {
        self.run.bits_under(mask)
    }

    /// Whether it holds the number.
    pub fn has(self, x: u32) -> bool
        ensures { result ≡ in_piece self x }
    {
        self.run.has(x) && !self.is_missing(x)
    }

    /// Its numbers from one number on and below another.
    pub fn clipped(self, from: u64, end: u64) -> Option<Piece>
        requires { from ≤ 2 ^ 32 }
        ensures { (x : ℕ) → is_held result x ≡ (in_piece self x && (nat_le from x && nat_lt x end)) }
    {
        match self.run.clipped(from, end) {
            Some(run) => Piece::of(run, self.hole),
            None => None,
        }
    }

    /// Its first number from the given one up.
    pub fn first_from(self, from: u32) -> Option<u32>
        ensures { IsFirstFrom (in_piece self) from result }
    {
        match self.hole {
            Some(hole) => first_without(self.run, hole, from),
            None => self.run.first_from(from),
        }
    }

    /// Its last number.
    pub fn last(self) -> Option<u32>
        ensures { IsLast (in_piece self) result }
    {
        match self.hole {
            Some(hole) => last_without(self.run, hole),
            None => self.run.last(),
        }
    }

    /// Its lowest and its highest number.
    pub fn span(self) -> Option<(u32, u32)>
        ensures none { IsNone result → (x : ℕ) → in_piece self x ≡ false }
        ensures covered { IfSome result (λ s. (x : ℕ) → in_piece self x ≡ true → (s.0 ≤ x) × (x ≤ s.1)) }
        ensures ends { IfSome result (AreEnds (in_piece self)) }
    {
        let low = self.first_from(0)?;
        let high = self.last()?;
        Some((low, high))
    }

    /// A page from the given one on, so that each page before it, from the given one on, has one of the numbers.
    pub fn pages_end(self, page: u32) -> u32
        requires { page ≤ 2 ^ 20 }
        ensures reached { page ≤ result }
        ensures most { result ≤ 2 ^ 20 }
        ensures held { (q : ℕ) → page ≤ q → q < result → HasPage (in_piece self) q }
    {
        match self.hole {
            Some(hole) => pages_unmatched(self.run, hole, page),
            None => self.run.pages_end(page),
        }
    }

    /// How many of its numbers are below the given one.
    pub fn count_below(self, x: u64) -> u64
        ensures { result ≡ total (λ y. one (in_piece self y)) x }
    {
        self.run.count_below(x) - count_of(self.filled(), x)
    }

    /// The numbers that it has in common with the run.
    pub fn common(self, other: Run) -> Option<Piece>
        ensures { (x : ℕ) → is_held result x ≡ (in_piece self x && in_run other x) }
    {
        match self.run.common(other) {
            Some(run) => Piece::of(run, self.hole),
            None => None,
        }
    }

    /// A pattern that is matched where the hole or the other pattern is, if one of them has all that the other has.
    pub fn wider_hole(self, other: Pattern) -> Option<Pattern>
        ensures { IfSome result (λ h. (x : ℕ) → matches h x ≡ (is_matched self.hole x || matches other x)) }
    {
        let Some(hole) = self.hole else {
            return Some(other);
        };
        if hole.is_within(other) {
            return Some(other);
        }
        if other.is_within(hole) {
            return Some(hole);
        }
        None
    }

    /// Its numbers that have the pattern's bits below this one, and not this one.
    pub fn missed(self, other: Pattern, bit: u32) -> Option<Piece>
        requires { bit < 32 }
        ensures { (x : ℕ) → is_held result x ≡ (in_piece self x &&
            (matches_below other bit x && not (matches_below other (bit + 1) x))) }
    {
        match self.run.missed(other, bit) {
            Some(run) => Piece::of(run, self.hole),
            None => None,
        }
    }

    /// The numbers that it holds when bit 0 is cleared.
    pub fn with_odd(self) -> Option<Piece>
        ensures { (x : ℕ) → x < 2 ^ 32 → is_held result x ≡ in_piece self (x - x % 2) }
    {
        match self.run.with_odd() {
            Some(run) => Piece::of(run, odd_hole(self.hole)),
            None => None,
        }
    }
}

/// The numbers of the run that the hole doesn't match, each plus the distance, where that is below 2^32.
pub fn shifted_within(run: Run, hole: Pattern, distance: u32) -> Option<Piece>
    requires run { IsStep run.pattern }
    requires hole { IsStep hole }
    ensures { (y : ℕ) → y < 2 ^ 32 → is_held result y ≡
        (nat_le distance y && (in_run run (y - distance) && not (matches hole (y - distance)))) }
{
    match run.shifted_within(distance) {
        Some(moved) => Piece::of(moved, Some(hole.raised(distance))),
        None => None,
    }
}

/// The same less 2^32, where that is no less than 0.
pub fn shifted_past(run: Run, hole: Pattern, distance: u32) -> Option<Piece>
    requires run { IsStep run.pattern }
    requires hole { IsStep hole }
    ensures { (y : ℕ) → y < 2 ^ 32 → is_held result y ≡
        (nat_lt y distance && (in_run run (y + (2 ^ 32 - distance)) && not (matches hole (y + (2 ^ 32 - distance))))) }
{
    match run.shifted_past(distance) {
        Some(moved) => Piece::of(moved, Some(hole.lowered(0u32.wrapping_sub(distance)))),
        None => None,
    }
}
