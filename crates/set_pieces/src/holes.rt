// The numbers of a run that a pattern doesn't match, by the bits of the pattern: for each bit those that have its bits
// below that one, and not that one.
ghost use Rattle.std.specs.Prelude.{◌≡◌, ℕ, ◌^◌, ◌<◌, ◌≤◌, ◌&&◌, ◌||◌, not, Bool};
ghost use Rattle.set_pieces.specs.Internal.Patterns.{matches};
ghost use Rattle.set_pieces.specs.Ends.{greater, lesser, HasPage, IsFirstFrom, IsLast};
ghost use Rattle.set_pieces.specs.Internal.Runs.{in_run, is_in_run};

use crate::pattern::Pattern;
use crate::run::Run;

/// The lesser of two numbers that may be missing.
pub fn lesser(a: Option<u32>, b: Option<u32>) -> Option<u32>
    ensures { result ≡ lesser a b }
{
    match (a, b) {
        (Some(x), Some(y)) => Some(x.min(y)),
        (Some(x), None) => Some(x),
        (None, b) => b,
    }
}

/// The greater of two numbers that may be missing.
pub fn greater(a: Option<u32>, b: Option<u32>) -> Option<u32>
    ensures { result ≡ greater a b }
{
    match (a, b) {
        (Some(x), Some(y)) => Some(x.max(y)),
        (Some(x), None) => Some(x),
        (None, b) => b,
    }
}

/// The lesser of a number and of the first one from the given one up that a run holds, if there is a run.
fn nearer_of(nearest: Option<u32>, run: Option<Run>, from: u32) -> Option<u32>
    ensures { (t : ℕ → Bool) → IsFirstFrom t from nearest →
        IsFirstFrom (λ x. t x || is_in_run run x) from result }
{
    match run {
        Some(run) => lesser(nearest, run.first_from(from)),
        None => nearest,
    }
}

/// The first number from the given one up that the run holds and the pattern doesn't match.
fn first_unmatched(run: Run, hole: Pattern, from: u32) -> Option<u32>
    ensures { IsFirstFrom (λ x. in_run run x && not (matches hole x)) from result }
{
    hole.ends();
    let mut nearest = None;
    for bit in 0..32 {
        nearest = nearer_of(nearest, run.missed(hole, bit), from);
    }
    nearest
}

/// The same, where it is mostly the first that the run holds.
pub fn first_without(run: Run, hole: Pattern, from: u32) -> Option<u32>
    ensures { IsFirstFrom (λ x. in_run run x && not (matches hole x)) from result }
{
    let first = run.first_from(from)?;
    if hole.matches(first) {
        return first_unmatched(run, hole, from);
    }
    Some(first)
}

/// The greater of a number and of the last one that a run holds, if there is a run.
fn further_of(furthest: Option<u32>, run: Option<Run>) -> Option<u32>
    ensures { (t : ℕ → Bool) → IsLast t furthest → IsLast (λ x. t x || is_in_run run x) result }
{
    match run {
        Some(run) => greater(furthest, run.last()),
        None => furthest,
    }
}

/// The last number that the run holds and the pattern doesn't match.
fn last_unmatched(run: Run, hole: Pattern) -> Option<u32>
    ensures { IsLast (λ x. in_run run x && not (matches hole x)) result }
{
    hole.ends();
    let mut furthest = None;
    for bit in 0..32 {
        furthest = further_of(furthest, run.missed(hole, bit));
    }
    furthest
}

/// The same, where it is mostly the last that the run holds.
pub fn last_without(run: Run, hole: Pattern) -> Option<u32>
    ensures { IsLast (λ x. in_run run x && not (matches hole x)) result }
{
    let last = run.last()?;
    if hole.matches(last) {
        return last_unmatched(run, hole);
    }
    Some(last)
}

/// A page as `Run::pages_end` tells it of the run, if there is one, and at least the given end.
fn pages_of(run: Option<Run>, page: u32, end: u32) -> u32
    requires page { page ≤ 2 ^ 20 }
    requires end { end ≤ 2 ^ 20 }
    ensures reached { end ≤ result }
    ensures most { result ≤ 2 ^ 20 }
    ensures held { (q : ℕ) → page ≤ q → end ≤ q → q < result → HasPage (is_in_run run) q }
{
    match run {
        Some(run) => end.max(run.pages_end(page)),
        None => end,
    }
}

/// A page from the given one on, so that each page before it, from the given one on, has a number that the run holds and
/// the pattern doesn't match.
pub fn pages_unmatched(run: Run, hole: Pattern, page: u32) -> u32
    requires { page ≤ 2 ^ 20 }
    ensures reached { page ≤ result }
    ensures most { result ≤ 2 ^ 20 }
    ensures held { (q : ℕ) → page ≤ q → q < result → HasPage (λ x. in_run run x && not (matches hole x)) q }
{
    hole.ends();
    let mut end = page;
    // Bits from 12 on are the page's own.
    for bit in 0..12 {
        end = pages_of(run.missed(hole, bit), page, end);
    }
    end
}
