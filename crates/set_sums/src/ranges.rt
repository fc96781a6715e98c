// Sets by ranges and sums of sets, where more elements than those asked for do no harm.
ghost use Rattle.std.specs.Prelude.{◌≡◌, ℕ, ◌+◌, ◌-◌, ◌%◌, ◌^◌, ◌<◌, [], ◌∷◌, false, true, All, IfOk, IfSome, IsNone, IsTrue, OnOk};
ghost use Rattle.dom_set.specs.Elements.{is_in};
ghost use Rattle.set_sums.specs.Internal.Spans.{AreCovered, AreKept, AreNegated, AreNegatives, HasDifferencesWithin, HasHalves, HasSumsWithin, HaveHalves, HaveHalvesOf, HaveRound, HaveSums, HaveSumsOf, HaveSumsWith, IsAround, IsBetween, IsMet, IsOfRanges, MayMeet};

use crate::near::is_narrow;
use dom_set::{OutOfMemory, Set, set_laws};
use near_marks::WORDS;
use std::alloc::Global;

/// The first word of the upper half.
pub const HALF: u32 = 1 << 31;

/// A lowest and a highest word.
pub type Span = (u32, u32);

/// The words of the ranges.
pub fn words_of(alloc: Global, ranges: &[Span]) -> Result<Set, OutOfMemory>
    ensures { IfOk result (IsOfRanges ranges.now) }
{
    set_laws();
    let words = Set::from_ranges(alloc, ranges, 1)?;
    Ok(words)
}

/// Each element plus the distance, modulo 2^32.
pub fn shifted(alloc: Global, set: &Set, distance: u32) -> Result<Set, OutOfMemory>
    ensures { IfOk result (λ s. (v : ℕ) → v < 2 ^ 32 → is_in s v ≡ is_in set.now ((v + (2 ^ 32 - distance)) % 2 ^ 32)) }
{
    set_laws();
    let shifted = set.shift(alloc, distance)?;
    Ok(shifted)
}

/// Each element minus the distance, modulo 2^32.
pub fn lowered(alloc: Global, set: &Set, distance: u32) -> Result<Set, OutOfMemory>
    ensures { IfOk result (λ s. (v : ℕ) → v < 2 ^ 32 → is_in s v ≡ is_in set.now ((v + distance) % 2 ^ 32)) }
{
    let lowered = shifted(alloc, set, 0u32.wrapping_sub(distance))?;
    Ok(lowered)
}

/// Whether the sets have a common element.
pub fn meet(alloc: Global, first: &Set, second: &Set) -> Result<bool, OutOfMemory>
    ensures { IfOk result (λ met. (v : ℕ) → IsTrue (is_in first.now v) → IsTrue (is_in second.now v) → met ≡ true) }
{
    let common = first.and(alloc, second)?;
    if common.is_empty() {
        return Ok(false);
    }
    Ok(true)
}

/// The least and the greatest element, unless the set is empty.
pub fn ends(set: &Set) -> Option<Span>
    ensures none { IsNone result → (v : ℕ) → is_in set.now v ≡ false }
    ensures some { IfSome result (IsBetween set.now) }
{
    set.element_laws();
    let low = set.least()?;
    let high = set.greatest()?;
    Some((low, high))
}

/// Adds the range from the least to the greatest element, unless the set is empty.
fn push_ends(ranges: &mut Vec<Span>, set: &Set) -> Result<(), OutOfMemory>
    ensures covered { OnOk result (AreCovered set.now ranges.new.items) }
    ensures kept { OnOk result (AreKept ranges.old.items ranges.new.items) }
{
    match ends(set) {
        Some(span) => {
            ranges.push(span)?;
            Ok(())
        }
        None => Ok(()),
    }
}

/// How many elements a set may have so that each is a range of its own.
const FEW: u64 = 32;

/// How many ranges a set is taken by, at most.
const MANY: usize = 4096;

/// How many it is taken by where all its elements are near 0, since two ranges around these lose little there.
const NEAR: usize = 32;

/// How many pairs of ranges there are, at most.
const PAIRS: usize = 4096;

/// How many ranges are looked at one by one.
const BLOCK: usize = 16;

/// How many ranges of a domain are windows of their own.
const WINDOWS: usize = 4;

/// Each element is a range.
fn elements(alloc: Global, set: &Set) -> Result<Vec<Span>, OutOfMemory>
    ensures { IfOk result (λ parts. AreCovered set.now parts.items) }
{
    let mut parts = Vec::new(alloc);
    for i in 0..set.size() {
        let value = set.nth(i);
        parts.push((value, value))?;
    }
    Ok(parts)
}

/// The elements are below the half of all words, or from there on: two ranges at most.
fn halves(alloc: Global, set: &Set) -> Result<Vec<Span>, OutOfMemory>
    ensures { IfOk result (λ parts. AreCovered set.now parts.items) }
{
    let lower = set.below(alloc, HALF)?;
    let upper = set.from_on(alloc, HALF)?;
    let mut parts = Vec::new(alloc);
    push_ends(&mut parts, &lower)?;
    push_ends(&mut parts, &upper)?;
    Ok(parts)
}

/// The spans of the pieces of a set, those that meet as one.
fn merged_spans(alloc: Global, set: &Set) -> Result<Vec<Span>, OutOfMemory>
    ensures { IfOk result (λ spans. AreCovered set.now spans.items) }
{
    set.element_laws();
    let spans = set.spans(alloc)?;
    let words = words_of(alloc, &spans)?;
    let merged = words.spans(alloc)?;
    Ok(merged)
}

/// Ranges around the elements: the spans of the set, one for each element where these are few and more than the
/// spans, or two at most where the spans are too many.
fn parts(alloc: Global, set: &Set) -> Result<Vec<Span>, OutOfMemory>
    ensures { IfOk result (λ parts. AreCovered set.now parts.items) }
{
    let parts = merged_spans(alloc, set)?;
    let most = if is_narrow(set) { NEAR } else { MANY };
    if parts.len() > most {
        let parts = halves(alloc, set)?;
        return Ok(parts);
    }
    if set.size() <= FEW && set.size() > parts.len() as u64 {
        let parts = elements(alloc, set)?;
        return Ok(parts);
    }
    Ok(parts)
}

/// Ranges around the elements of a domain: its spans where they are few, and else two at most.
fn windows_of(alloc: Global, domain: &Set) -> Result<Vec<Span>, OutOfMemory>
    ensures { IfOk result (λ windows. AreCovered domain.now windows.items) }
{
    let windows = merged_spans(alloc, domain)?;
    if windows.len() <= WINDOWS {
        return Ok(windows);
    }
    let windows = halves(alloc, domain)?;
    Ok(windows)
}

/// Whether one of the numbers from the lowest to the highest, modulo 2^32, is in the window.
fn is_met(window: Span, low: u64, high: u64) -> bool
    requires { high < 2 ^ 33 }
    ensures { IsMet (window ∷ []) low high result }
{
    let (first, last) = (u64::from(window.0), u64::from(window.1));
    (low <= last && first <= high) || (low <= WORDS + last && WORDS + first <= high)
}

/// Whether one of the numbers from the lowest to the highest, modulo 2^32, is in one of the windows.
fn are_met(windows: &[Span], low: u64, high: u64) -> bool
    requires { high < 2 ^ 33 }
    ensures { IsMet windows.now low high result }
{
    for window in windows {
        if is_met(*window, low, high) {
            return true;
        }
    }
    false
}

/// A range around all ranges.
fn hull(ranges: &[Span]) -> Span
    ensures { IsAround ranges.now result }
{
    let mut low = u32::MAX;
    let mut high = 0;
    for range in ranges {
        low = low.min(range.0);
        high = high.max(range.1);
    }
    (low, high)
}

/// Whether a sum of a number of the first ranges and one of the others may be in a window, by ranges around all of them.
fn may_meet(firsts: &[Span], others: &[Span], windows: &[Span]) -> bool
    ensures { MayMeet firsts.now others.now windows.now result }
{
    let (low, high) = sum_of(hull(firsts), hull(others));
    are_met(windows, low, high)
}

/// Whether there are more pairs of ranges than at most.
fn are_many(firsts: &[Span], others: &[Span]) -> bool {
    firsts.len().saturating_mul(others.len()) > PAIRS
}

/// How far the ranges reach, together.
fn width(ranges: &[Span]) -> u64 {
    let mut width: u64 = 0;
    for range in ranges {
        width = width.saturating_add(u64::from(range.1.saturating_sub(range.0)));
    }
    width
}

/// Whether the halves of a set reach less far than those of another. Then less is lost where it is taken by its halves.
fn is_narrower(alloc: Global, set: &Set, other: &Set) -> Result<bool, OutOfMemory> {
    let own = halves(alloc, set)?;
    let others = halves(alloc, other)?;
    Ok(width(&own) < width(&others))
}

/// Ranges around the elements of both sets. Where there are too many pairs of them, the set whose halves are narrower is
/// given two at most.
fn both_parts(
    alloc: Global,
    first: &Set,
    second: &Set,
) -> Result<(Vec<Span>, Vec<Span>), OutOfMemory>
    ensures { IfOk result (λ both. AreCovered first.now both.0.items × AreCovered second.now both.1.items) }
{
    let firsts = parts(alloc, first)?;
    let seconds = parts(alloc, second)?;
    if !are_many(&firsts, &seconds) {
        return Ok((firsts, seconds));
    }
    let narrower = is_narrower(alloc, first, second)?;
    if narrower {
        let firsts = halves(alloc, first)?;
        return Ok((firsts, seconds));
    }
    let seconds = halves(alloc, second)?;
    Ok((firsts, seconds))
}

/// Adds the numbers from the lowest to the highest, modulo 2^32.
pub fn push_round(ranges: &mut Vec<Span>, low: u64, high: u64) -> Result<(), OutOfMemory>
    ensures round { OnOk result (HaveRound ranges.new.items low high) }
    ensures kept { OnOk result (AreKept ranges.old.items ranges.new.items) }
{
    let first = (low % WORDS) as u32;
    let last = (high % WORDS) as u32;
    let rounds = (high / WORDS).saturating_sub(low / WORDS);
    if rounds == 0 {
        ranges.push((first, last))?;
    } else if rounds == 1 {
        ranges.push((first, u32::MAX))?;
        ranges.push((0, last))?;
    } else {
        ranges.push((0, u32::MAX))?;
    }
    Ok(())
}

/// The lowest and the highest sum of a number of each range.
fn sum_of(first: Span, other: Span) -> (u64, u64)
    ensures low { result.0 ≡ first.0 + other.0 }
    ensures high { result.1 ≡ first.1 + other.1 }
    ensures bound { result.1 < 2 ^ 33 }
{
    (
        u64::from(first.0) + u64::from(other.0),
        u64::from(first.1) + u64::from(other.1),
    )
}

/// The sums of a number of each range that are in a window, and perhaps more.
fn push_sum(
    ranges: &mut Vec<Span>,
    first: Span,
    other: Span,
    windows: &[Span],
) -> Result<(), OutOfMemory>
    ensures sums { OnOk result (HaveSumsOf ranges.new.items first other windows.now) }
    ensures kept { OnOk result (AreKept ranges.old.items ranges.new.items) }
{
    let (low, high) = sum_of(first, other);
    if are_met(windows, low, high) {
        push_round(ranges, low, high)?;
    }
    Ok(())
}

/// The sums of a number of the first range and one of the others that are in a window, and perhaps more.
fn push_sums(
    ranges: &mut Vec<Span>,
    first: Span,
    others: &[Span],
    windows: &[Span],
) -> Result<(), OutOfMemory>
    ensures sums { OnOk result (HaveSumsWith ranges.new.items first others.now windows.now) }
    ensures kept { OnOk result (AreKept ranges.old.items ranges.new.items) }
{
    for other in others {
        push_sum(ranges, first, *other, windows)?;
    }
    Ok(())
}

/// The same for each of the first ranges.
fn push_block(
    ranges: &mut Vec<Span>,
    firsts: &[Span],
    others: &[Span],
    windows: &[Span],
) -> Result<(), OutOfMemory>
    ensures sums { OnOk result (HaveSums ranges.new.items firsts.now others.now windows.now) }
    ensures kept { OnOk result (AreKept ranges.old.items ranges.new.items) }
{
    for first in firsts {
        push_sums(ranges, *first, others, windows)?;
    }
    Ok(())
}

/// The same, by halves of the longer list where the ranges are not few, so that what is far from the windows is passed
/// over as a whole.
fn push_pairs(
    ranges: &mut Vec<Span>,
    firsts: &[Span],
    others: &[Span],
    windows: &[Span],
) -> Result<(), OutOfMemory>
    ensures sums { OnOk result (HaveSums ranges.new.items firsts.now others.now windows.now) }
    ensures kept { OnOk result (AreKept ranges.old.items ranges.new.items) }
{
    if !may_meet(firsts, others, windows) {
        return Ok(());
    }
    if firsts.len() <= BLOCK && others.len() <= BLOCK {
        push_block(ranges, firsts, others, windows)?;
        return Ok(());
    }
    if firsts.len() < others.len() {
        let (front, back) = others.split_at(others.len() / 2);
        push_pairs(ranges, firsts, front, windows)?;
        push_pairs(ranges, firsts, back, windows)?;
        return Ok(());
    }
    let (front, back) = firsts.split_at(firsts.len() / 2);
    push_pairs(ranges, front, others, windows)?;
    push_pairs(ranges, back, others, windows)?;
    Ok(())
}

/// The sums of a number of the first ranges and one of the others that are in a window, and perhaps more.
fn range_sums(
    alloc: Global,
    firsts: &[Span],
    others: &[Span],
    windows: &[Span],
) -> Result<Vec<Span>, OutOfMemory>
    ensures { IfOk result (λ sums. HaveSums sums.items firsts.now others.now windows.now) }
{
    let mut sums = Vec::new(alloc);
    push_pairs(&mut sums, firsts, others, windows)?;
    Ok(sums)
}

/// What leads to 0 when a number of the ranges is added.
fn negated(alloc: Global, ranges: &[Span]) -> Result<Vec<Span>, OutOfMemory>
    ensures { IfOk result (λ negated. AreNegated negated.items ranges.now) }
{
    let mut negated = Vec::new(alloc);
    for range in ranges {
        let (low, high) = *range;
        push_round(
            &mut negated,
            WORDS - u64::from(high),
            WORDS - u64::from(low),
        )?;
    }
    Ok(negated)
}

/// The sums of elements of two sets that are in the domain, by ranges.
pub fn sums_around(
    alloc: Global,
    first: &Set,
    second: &Set,
    domain: &Set,
) -> Result<Set, OutOfMemory>
    ensures { IfOk result (HasSumsWithin first.now second.now domain.now) }
{
    let windows = windows_of(alloc, domain)?;
    let (firsts, others) = both_parts(alloc, first, second)?;
    let ranges = range_sums(alloc, &firsts, &others, &windows)?;
    let sums = words_of(alloc, &ranges)?;
    Ok(sums)
}

/// Ranges around the elements of the first set, and around what leads to 0 when one of the second is added. Where
/// there are too many pairs of them, the set whose halves are narrower is given two at most.
fn difference_parts(
    alloc: Global,
    first: &Set,
    second: &Set,
) -> Result<(Vec<Span>, Vec<Span>), OutOfMemory>
    requires { All (λ w. w < 2 ^ 32) second.now }
    ensures { IfOk result (λ both. AreCovered first.now both.0.items × AreNegatives second.now both.1.items) }
{
    let wholes = parts(alloc, first)?;
    let seconds = parts(alloc, second)?;
    let others = negated(alloc, &seconds)?;
    if !are_many(&wholes, &others) {
        return Ok((wholes, others));
    }
    let narrower = is_narrower(alloc, first, second)?;
    if narrower {
        let wholes = halves(alloc, first)?;
        return Ok((wholes, others));
    }
    let seconds = halves(alloc, second)?;
    let others = negated(alloc, &seconds)?;
    Ok((wholes, others))
}

/// The words of the domain that give an element of the first set when one of the second is added, by ranges.
pub fn differences_around(
    alloc: Global,
    first: &Set,
    second: &Set,
    domain: &Set,
) -> Result<Set, OutOfMemory>
    ensures { IfOk result (HasDifferencesWithin first.now second.now domain.now) }
{
    second.element_laws();
    domain.element_laws();
    let windows = windows_of(alloc, domain)?;
    let (firsts, others) = difference_parts(alloc, first, second)?;
    let ranges = range_sums(alloc, &firsts, &others, &windows)?;
    let differences = words_of(alloc, &ranges)?;
    Ok(differences)
}

/// The words that give a number of the range when they are doubled, modulo 2^32: one in each half of all words
/// for each even number.
fn push_halved(ranges: &mut Vec<Span>, range: Span) -> Result<(), OutOfMemory>
    ensures halves { OnOk result (HaveHalvesOf ranges.new.items range) }
    ensures kept { OnOk result (AreKept ranges.old.items ranges.new.items) }
{
    let (low, high) = (range.0 / 2 + range.0 % 2, range.1 / 2);
    // An odd number is no double.
    if high < low {
        return Ok(());
    }
    ranges.push((low, high))?;
    ranges.push((HALF + low, HALF + high))?;
    Ok(())
}

/// The words that give a number of the ranges when they are doubled.
fn halved_ranges(alloc: Global, ranges: &[Span]) -> Result<Vec<Span>, OutOfMemory>
    ensures { IfOk result (λ halved. HaveHalves halved.items ranges.now) }
{
    let mut halved = Vec::new(alloc);
    for range in ranges {
        push_halved(&mut halved, *range)?;
    }
    Ok(halved)
}

/// The words that give an element when they are doubled, modulo 2^32: just these where the elements are few, and
/// else perhaps more.
pub fn halved(alloc: Global, set: &Set) -> Result<Set, OutOfMemory>
    ensures { IfOk result (HasHalves set.now) }
{
    let ranges = parts(alloc, set)?;
    let halved = halved_ranges(alloc, &ranges)?;
    let words = words_of(alloc, &halved)?;
    Ok(words)
}
