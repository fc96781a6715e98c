// Sums of many steps that stand close together, by pages of bits: for each sum that is not marked it is asked at once whether
// any two of the numbers give it.
ghost use Rattle.std.specs.Prelude.{◌≡◌, ◌+◌, ◌*◌, ◌^◌, ◌<◌, ◌≤◌, IfSome, IsTrue};
ghost use Rattle.near_marks.specs.Internal.Close.{AreAbove, AreBelow, AreClose, AreDistances, AreMet, ArePlaced, ArePlacedOf, AreTurnedIn, AreTurnedOf, AreTurnedOfAll, IsDistance, MayMeet};
ghost use Rattle.near_marks.specs.Internal.Near.{AreStillMarked, HaveNear};
ghost use Rattle.near_marks.specs.Internal.Rests.{AreRestsKept};

use crate::grid::{hull, next_on};
use crate::marks::Marks;
use crate::steps::{NEAR, Steps, WORDS, step};
use lane_bits::PageBits;

/// So many pairs of steps are looked at in less time than pages are made.
const FEW: u64 = 1024;

/// So many pairs of steps are looked at in the time of one number of a page.
const PAIRS: u64 = 8;

/// Notes the numbers of the steps by how far they are above the lowest, where that is less than a page.
fn place(page: &mut PageBits, steps: Steps, low: u64)
    requires { low ≤ 2 ^ 33 }
    ensures placed { ArePlacedOf page.new steps low }
    ensures kept { AreRestsKept page.old page.new }
{
    let step = step(steps.shift);
    let end = steps.high.min(low + (NEAR - 1));
    let mut number = next_on(steps.low, steps.shift, low);
    while number <= end {
        page.set((number - low) as u16);
        number += step;
    }
}

/// Notes the numbers of the steps by how far they are below the last number of a page from the lowest on.
fn place_turned(page: &mut PageBits, steps: Steps, low: u64)
    requires { low ≤ 2 ^ 33 }
    ensures placed { AreTurnedOf page.new steps low }
    ensures kept { AreRestsKept page.old page.new }
{
    let step = step(steps.shift);
    let last = low + (NEAR - 1);
    let end = steps.high.min(last);
    let mut number = next_on(steps.low, steps.shift, low);
    while number <= end {
        page.set((last - number) as u16);
        number += step;
    }
}

/// The numbers of the steps by how far they are above the lowest.
fn page_of(all: &[Steps], low: u64) -> PageBits
    requires { low ≤ 2 ^ 33 }
    ensures { ArePlaced result all.now low }
{
    let mut page = PageBits::new();
    for steps in all {
        place(&mut page, *steps, low);
    }
    page
}

/// The numbers of the steps by how far they are below the last number of a page from the lowest on.
fn turned_page(all: &[Steps], low: u64) -> PageBits
    requires { low ≤ 2 ^ 33 }
    ensures { AreTurnedOfAll result all.now low }
{
    let mut page = PageBits::new();
    for steps in all {
        place_turned(&mut page, *steps, low);
    }
    page
}

/// How far numbers of two pages are from each other.
#[derive(Drop)]
struct Distances {
    /// How far those of the first page are above those of the other.
    above: PageBits,
    /// How far they are below those.
    below: PageBits,
}

/// The numbers of a page by how far they are below its last one.
fn turned(page: &PageBits) -> PageBits
    ensures { AreTurnedIn page.now result }
{
    let mut made = PageBits::new();
    let mut from = 0u16;
    while let Some(number) = page.first_from(from) {
        made.set(4095 - number);
        from = number + 1;
    }
    made
}

/// How far numbers of the first page are above those of the other, one of these after another.
fn above(firsts: &PageBits, others: &PageBits) -> PageBits
    ensures { AreAbove firsts.now others.now result }
{
    let mut made = PageBits::new();
    let mut from = 0u16;
    while let Some(number) = others.first_from(from) {
        made = made.or(&firsts.lowered(number));
        from = number + 1;
    }
    made
}

/// How far numbers of the first page are below those of the other, one of these after another.
fn below(firsts: &PageBits, others: &PageBits) -> PageBits
    ensures { AreBelow firsts.now others.now result }
{
    let turned = turned(firsts);
    let mut made = PageBits::new();
    let mut from = 0u16;
    while let Some(number) = others.first_from(from) {
        made = made.or(&turned.lowered(4095 - number));
        from = number + 1;
    }
    made
}

/// How far the numbers of two pages are from each other, one number after another of the page that has fewer.
fn distances_of(firsts: &PageBits, others: &PageBits) -> Distances
    ensures { AreDistances firsts.now others.now result }
{
    if others.count() <= firsts.count() {
        Distances {
            above: above(firsts, others),
            below: below(firsts, others),
        }
    } else {
        Distances {
            above: below(others, firsts),
            below: above(others, firsts),
        }
    }
}

/// Whether a number of the first page is one of the other page and as far above it as the sum is above the ends, by how far
/// their numbers are from each other.
fn is_distance(distances: &Distances, ends: u64, sum: u64) -> bool
    requires above { sum < ends + 4096 }
    requires below { ends < sum + 4096 }
    ensures { IsDistance distances.now ends sum result }
{
    if sum >= ends {
        distances.above.get((sum - ends) as u16)
    } else {
        distances.below.get((ends - sum) as u16)
    }
}

/// The same by a look at both pages.
fn some_meet(firsts: &PageBits, others: &PageBits, ends: u64, sum: u64) -> bool
    requires above { sum < ends + 4096 }
    requires below { ends < sum + 4096 }
    ensures { MayMeet firsts.now others.now ends sum result }
{
    if sum >= ends {
        others.shift_check(firsts, (sum - ends) as u16)
    } else {
        firsts.shift_check(others, (ends - sum) as u16)
    }
}

/// Whether a number of the first page is one of the other page and as far above it as the sum is above the ends.
fn may_meet(
    firsts: &PageBits,
    others: &PageBits,
    distances: &Option<Distances>,
    ends: u64,
    sum: u64,
) -> bool
    requires distances { IfSome distances.now (AreDistances firsts.now others.now) }
    requires above { sum < ends + 4096 }
    requires below { ends < sum + 4096 }
    ensures { MayMeet firsts.now others.now ends sum result }
{
    match distances {
        Some(distances) => is_distance(distances, ends, sum),
        None => some_meet(firsts, others, ends, sum),
    }
}

/// How far the numbers of two pages are from each other, where fewer numbers have to be gone through for that than are not
/// marked.
fn distances_if_few(marks: &Marks, firsts: &PageBits, others: &PageBits) -> Option<Distances>
    ensures { IfSome result (AreDistances firsts.now others.now) }
{
    if firsts.count().min(others.count()) < marks.count() / 2 {
        Some(distances_of(firsts, others))
    } else {
        None
    }
}

/// Marks the sums at which numbers of both pages meet, from the base on.
fn mark_met(
    marks: &mut Marks,
    firsts: &PageBits,
    others: &PageBits,
    distances: &Option<Distances>,
    ends: u64,
    base: u64,
)
    requires distances { IfSome distances.now (AreDistances firsts.now others.now) }
    requires ends { ends ≤ 2 ^ 35 }
    requires base { base ≤ 2 ^ 33 }
    ensures marked { AreMet marks.new firsts.now others.now ends base }
    ensures kept { AreStillMarked marks.old marks.new }
{
    let first = ends.saturating_sub(base + (NEAR - 1));
    let mut from = first.min(NEAR);
    while let Some(number) = marks.first_gap(from) {
        let sum = base + number;
        if sum >= ends + NEAR {
            return;
        }
        if may_meet(firsts, others, distances, ends, sum) {
            marks.mark(number);
        }
        from = number + 1;
    }
}

/// Marks the sums of each of the steps and each of the others, where the numbers of both are less than a page above a
/// lowest one.
fn mark_close(marks: &mut Marks, firsts: &[Steps], low: u64, others: &[Steps], least: u64)
    requires low { low ≤ 2 ^ 32 + 2048 }
    requires least { least ≤ 2 ^ 32 + 2048 }
    requires firsts { AreClose firsts.now low }
    requires others { AreClose others.now least }
    ensures marked { HaveNear marks.new firsts.now others.now }
    ensures kept { AreStillMarked marks.old marks.new }
{
    let first_page = page_of(firsts, low);
    let other_page = turned_page(others, least);
    let distances = distances_if_few(marks, &first_page, &other_page);
    let ends = low + least + (NEAR - 1);
    mark_met(marks, &first_page, &other_page, &distances, ends, 0);
    mark_met(marks, &first_page, &other_page, &distances, ends, WORDS);
    mark_met(marks, &first_page, &other_page, &distances, ends, 2 * WORDS);
}

/// The lowest number of the steps, where all of them are less than a page above it.
fn close_from(all: &[Steps]) -> Option<u64>
    ensures close { IfSome result (AreClose all.now) }
    ensures bound { IfSome result (λ low. low ≤ 2 ^ 32 + 2048) }
{
    let (low, high) = hull(all);
    if low <= high && high - low < NEAR {
        Some(low)
    } else {
        None
    }
}

/// How many numbers the steps have.
fn numbers_of(all: &[Steps]) -> u64 {
    let mut total = 0u64;
    for steps in all {
        total = total.saturating_add((steps.high - steps.low) >> steps.shift);
    }
    total.saturating_add(all.len() as u64)
}

/// Whether to look at all pairs of these takes longer than to look at pages of them.
fn are_many(marks: &Marks, firsts: &[Steps], others: &[Steps]) -> bool {
    let pairs = (firsts.len() as u64).saturating_mul(others.len() as u64);
    if pairs <= FEW {
        return false;
    }
    let numbers = numbers_of(firsts).min(numbers_of(others));
    pairs > PAIRS.saturating_mul(numbers.min(u64::from(marks.count())))
}

/// Marks the sums of each of the steps and each of the others, if both stand close together and are many: whether it did.
pub fn mark_by_pages(marks: &mut Marks, firsts: &[Steps], others: &[Steps]) -> bool
    ensures marked { IsTrue result → HaveNear marks.new firsts.now others.now }
    ensures kept { AreStillMarked marks.old marks.new }
{
    if !are_many(marks, firsts, others) {
        return false;
    }
    let Some(low) = close_from(firsts) else {
        return false;
    };
    let Some(least) = close_from(others) else {
        return false;
    };
    mark_close(marks, firsts, low, others, least);
    true
}
