// Differences of two sets that are near 0, by the places and the low bits of their elements together.
ghost use Rattle.std.specs.Prelude.{◌+◌, ◌-◌, ◌*◌, ◌<◌, ◌≤◌, IfOk, IfSome, IsTrue};
ghost use Rattle.set_sums.specs.Internal.Near.{AreBackward, AreForward, AreInRanges, HasNearDifferences, HasNearOn, IsAgainst, IsAlong, IsNarrow};

use crate::ranges::{Span, push_round, words_of};
use dom_set::{OutOfMemory, Set, Track};
use lane_bits::PageBits;
use near_marks::{Marks, REACH, Steps, WORDS, mark_pairs};
use std::alloc::Global;

/// How many pairs of tracks are looked at one by one, at most; those that pages of bits tell don't count.
const TRACKS: u64 = 16_000_000;

/// The numbers of a track.
fn along(track: Track) -> Steps
    ensures { IsAlong track result }
{
    Steps {
        low: u64::from(track.low),
        high: u64::from(track.high),
        shift: track.shift,
    }
}

/// What leads to 2^32 and the reach when a number of a track is added.
fn against(track: Track) -> Steps
    ensures { IsAgainst track result }
{
    Steps {
        low: WORDS + REACH - u64::from(track.high),
        high: WORDS + REACH - u64::from(track.low),
        shift: track.shift,
    }
}

/// The numbers of the tracks.
fn forward(alloc: Global, tracks: &[Track]) -> Result<Vec<Steps>, OutOfMemory>
    ensures { IfOk result (λ all. AreForward tracks.now all.items) }
{
    let mut all = Vec::new(alloc);
    for track in tracks {
        all.push(along(*track))?;
    }
    Ok(all)
}

/// What leads to 2^32 and the reach when a number of the tracks is added.
fn backward(alloc: Global, tracks: &[Track]) -> Result<Vec<Steps>, OutOfMemory>
    ensures { IfOk result (λ all. AreBackward tracks.now all.items) }
{
    let mut all = Vec::new(alloc);
    for track in tracks {
        all.push(against(*track))?;
    }
    Ok(all)
}

/// The first of the gaps from a number on, or the end of all.
fn next_gap(gaps: &PageBits, number: u16) -> u16
    requires { number ≤ 4096 }
    ensures behind { number ≤ result }
    ensures within { result ≤ 4096 }
{
    match gaps.first_from(number) {
        Some(gap) => gap,
        None => 4096,
    }
}

/// Whether the set has none of the words from the first number on that are before the end, less the reach.
fn leaves_out(classes: &Set, first: u16, end: u16) -> bool {
    for number in first..end {
        if classes.has(u32::from(number).wrapping_sub(REACH as u32)) {
            return false;
        }
    }
    true
}

/// The end of the range that goes on behind a number. It goes over the gaps that the set leaves out, so that there are
/// fewer ranges.
fn range_end(classes: &Set, gaps: &PageBits, marks: &PageBits, number: u16) -> u16
    requires { number < 4096 }
    ensures behind { number < result }
    ensures within { result ≤ 4096 }
{
    let mut end = next_gap(gaps, number + 1);
    while let Some(next) = marks.first_from(end) {
        if !leaves_out(classes, end, next) {
            return end;
        }
        end = next_gap(gaps, next + 1);
    }
    end
}

/// Ranges of the words that are marked, less the reach, and perhaps of some that the set leaves out.
fn marked_ranges(alloc: Global, classes: &Set, marks: &PageBits) -> Result<Vec<Span>, OutOfMemory>
    ensures { IfOk result (λ ranges. AreInRanges marks.now 4096 ranges.items) }
{
    let gaps = PageBits::multiples_of(1).and_not(marks);
    let mut ranges = Vec::new(alloc);
    let mut from = 0u16;
    while let Some(first) = marks.first_from(from) {
        let end = range_end(classes, &gaps, marks, first);
        push_round(
            &mut ranges,
            WORDS - REACH + u64::from(first),
            WORDS - REACH + u64::from(end) - 1,
        )?;
        from = end;
    }
    Ok(ranges)
}

/// Whether all elements are near 0.
pub fn is_narrow(domain: &Set) -> bool
    ensures { IsTrue result → IsNarrow domain.now }
{
    domain.element_laws();
    match domain.first_from(REACH as u32) {
        Some(x) => u64::from(x) < REACH || u64::from(x) >= WORDS - REACH,
        None => true,
    }
}

/// The near words that give a number of the first tracks when one of the others is added, those that are in none of the
/// wanted ranges, and perhaps some that are in none of the classes; nothing where it would take more pairs than are to be
/// looked at.
fn near_on(
    alloc: Global,
    firsts: &[Track],
    others: &[Track],
    wanted: &[Span],
    classes: &Set,
) -> Result<Option<Set>, OutOfMemory>
    ensures { IfOk result (λ near. IfSome near (HasNearOn firsts.now others.now)) }
{
    let firsts = forward(alloc, firsts)?;
    let others = backward(alloc, others)?;
    let mut marks = Marks::but_for(wanted);
    let mut left = TRACKS;
    mark_pairs(&mut marks, &mut left, &firsts, &others);
    if left == 0 {
        return Ok(None);
    }
    let ranges = marked_ranges(alloc, classes, &marks.page())?;
    let words = words_of(alloc, &ranges)?;
    Ok(Some(words))
}

/// The near words that give an element of the first set when one of the second is added, and perhaps some that are in
/// none of the classes or not in the domain; nothing where it would take too long to tell them.
pub fn near_differences(
    alloc: Global,
    first: &Set,
    second: &Set,
    domain: &Set,
    classes: &Set,
) -> Result<Option<Set>, OutOfMemory>
    ensures { IfOk result (λ near. IfSome near (HasNearDifferences first.now second.now)) }
{
    second.element_laws();
    let wanted = domain.spans(alloc)?;
    let firsts = first.tracks(alloc)?;
    let others = second.tracks(alloc)?;
    let near = near_on(alloc, &firsts, &others, &wanted, classes)?;
    Ok(near)
}
