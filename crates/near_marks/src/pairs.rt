// Sums of two lists of steps that are near, pair by pair.
ghost use Rattle.std.specs.Prelude.{◌+◌, ◌-◌, ◌*◌, ◌^◌, ◌<◌, ◌≤◌};
ghost use Rattle.near_marks.specs.Internal.Near.{AreStillMarked, HasGapFrom, HasNearGap, HaveMoved, HaveNear, HaveNearOf, HaveNearWith, HaveSteps, HaveSumsFrom, MayFillGap};

use crate::close::mark_by_pages;
use crate::grid::{hull, next_on};
use crate::marks::Marks;
use crate::rests::{has_gap_leaving, leave_much, rests_of, sums_of};
use crate::steps::{NEAR, Steps, WORDS, step};

/// Steps that are so much coarser leave few numbers near.
const COARSE: u32 = 6;

/// How many steps are looked at one by one.
const BLOCK: usize = 16;

/// Marks the numbers from the lowest to the highest one that are a multiple of 2^shift from the lowest, from the base
/// on.
fn mark_steps(marks: &mut Marks, low: u64, high: u64, shift: u32, base: u64)
    requires within { shift < 32 }
    requires fits { base ≤ 2 ^ 33 }
    ensures marked { HaveSteps marks.new low high shift base }
    ensures kept { AreStillMarked marks.old marks.new }
{
    let end = high.min(base + NEAR - 1);
    if end < base {
        return;
    }
    let first = next_on(low, shift, base);
    if first <= end {
        marks.mark_each(first - base, end - base, shift);
    }
}

/// Marks the sums of a number and one of the steps.
fn mark_moved(marks: &mut Marks, steps: Steps, distance: u64, base: u64)
    requires far { distance ≤ 2 ^ 33 }
    requires fits { base ≤ 2 ^ 33 }
    ensures marked { HaveMoved marks.new steps distance base }
    ensures kept { AreStillMarked marks.old marks.new }
{
    mark_steps(
        marks,
        steps.low + distance,
        steps.high + distance,
        steps.shift,
        base,
    );
}

/// Marks the sums of two steps, by one number of the other after another.
fn mark_apart(marks: &mut Marks, whole: Steps, other: Steps, base: u64)
    requires { base ≤ 2 ^ 33 }
    ensures marked { HaveSumsFrom marks.new whole other base }
    ensures kept { AreStillMarked marks.old marks.new }
{
    let step = step(other.shift);
    let last = other.high.min((base + NEAR - 1).saturating_sub(whole.low));
    let mut number = next_on(other.low, other.shift, base.saturating_sub(whole.high));
    while number <= last {
        mark_moved(marks, whole, number, base);
        number += step;
    }
}

/// Marks the sums of two steps: all that are as far apart as the finer, where these leave no gap, and else by one number
/// after another of the one that has fewer near.
fn mark_finer(marks: &mut Marks, fine: Steps, coarse: Steps, base: u64)
    requires finer { fine.shift ≤ coarse.shift }
    requires fits { base ≤ 2 ^ 33 }
    ensures marked { HaveSumsFrom marks.new fine coarse base }
    ensures kept { AreStillMarked marks.old marks.new }
{
    if (fine.high - fine.low) + step(fine.shift) >= step(coarse.shift) {
        mark_steps(
            marks,
            fine.low + coarse.low,
            fine.high + coarse.high,
            fine.shift,
            base,
        );
    } else if coarse.shift < COARSE {
        mark_apart(marks, coarse, fine, base);
    } else {
        mark_apart(marks, fine, coarse, base);
    }
}

/// Marks the sums of two steps from the base on.
fn mark_sums(marks: &mut Marks, first: Steps, other: Steps, base: u64)
    requires { base ≤ 2 ^ 33 }
    ensures marked { HaveSumsFrom marks.new first other base }
    ensures kept { AreStillMarked marks.old marks.new }
{
    if !has_gap_from(marks, first.low + other.low, first.high + other.high, base) {
        return;
    }
    if first.shift <= other.shift {
        mark_finer(marks, first, other, base);
    } else {
        mark_finer(marks, other, first, base);
    }
}

/// Marks the sums of two steps, modulo 2^32.
fn mark_pair(marks: &mut Marks, first: Steps, other: Steps)
    ensures marked { HaveNearOf marks.new first other }
    ensures kept { AreStillMarked marks.old marks.new }
{
    mark_sums(marks, first, other, 0);
    mark_sums(marks, first, other, WORDS);
    mark_sums(marks, first, other, 2 * WORDS);
}

/// Marks the sums of the first steps and each of the others.
fn mark_with(marks: &mut Marks, first: Steps, others: &[Steps])
    ensures marked { HaveNearWith marks.new first others.now }
    ensures kept { AreStillMarked marks.old marks.new }
{
    for other in others {
        mark_pair(marks, first, *other);
    }
}

/// Marks the sums of each of the steps and each of the others.
fn mark_block(marks: &mut Marks, firsts: &[Steps], others: &[Steps])
    ensures marked { HaveNear marks.new firsts.now others.now }
    ensures kept { AreStillMarked marks.old marks.new }
{
    for first in firsts {
        mark_with(marks, *first, others);
    }
}

/// Whether a number from the lowest to the highest is near, from the base on, and is not marked.
fn has_gap_from(marks: &Marks, low: u64, high: u64, base: u64) -> bool
    ensures { HasGapFrom marks.now low high base result }
{
    high >= base && marks.has_gap(low.saturating_sub(base), high - base)
}

/// Whether a number from the lowest to the highest is near and is not marked.
fn has_near_gap(marks: &Marks, low: u64, high: u64) -> bool
    requires { high ≤ 2 ^ 33 + 4096 }
    ensures { HasNearGap marks.now low high result }
{
    has_gap_from(marks, low, high, 0)
        || has_gap_from(marks, low, high, WORDS)
        || has_gap_from(marks, low, high, 2 * WORDS)
}

/// Whether a sum may be near and not marked, by ranges around the steps and by what these leave when they are divided by 64.
fn may_fill_gap(marks: &Marks, firsts: &[Steps], others: &[Steps]) -> bool
    ensures { MayFillGap marks.now firsts.now others.now result }
{
    let (low, high) = hull(firsts);
    let (least, most) = hull(others);
    let low = low.saturating_add(least);
    let high = high + most;
    if !has_near_gap(marks, low, high) {
        return false;
    }
    let first_rests = rests_of(firsts);
    let other_rests = rests_of(others);
    if leave_much(&first_rests, &other_rests) {
        return true;
    }
    let rests = sums_of(&first_rests, &other_rests);
    has_gap_leaving(marks, &rests, low, high)
}

/// Marks the sums of each of the steps and each of the others, by halves of the longer list where these are not few, so
/// that what gives nothing that is near and not marked is passed over as a whole. Marks every number where no pairs are
/// left to be looked at.
pub fn mark_pairs(marks: &mut Marks, left: &mut u64, firsts: &[Steps], others: &[Steps])
    ensures marked { HaveNear marks.new firsts.now others.now }
    ensures kept { AreStillMarked marks.old marks.new }
{
    if *left == 0 {
        *marks = Marks::all();
        return;
    }
    if !may_fill_gap(marks, firsts, others) {
        return;
    }
    if firsts.len() <= BLOCK && others.len() <= BLOCK {
        *left = left.saturating_sub((firsts.len() * others.len()) as u64);
        mark_block(marks, firsts, others);
        return;
    }
    if mark_by_pages(marks, firsts, others) {
        return;
    }
    if firsts.len() < others.len() {
        let (front, back) = others.split_at(others.len() / 2);
        mark_pairs(marks, left, firsts, front);
        mark_pairs(marks, left, firsts, back);
        return;
    }
    let (front, back) = firsts.split_at(firsts.len() / 2);
    mark_pairs(marks, left, front, others);
    mark_pairs(marks, left, back, others);
}
