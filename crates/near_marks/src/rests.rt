// What numbers leave when they are divided by 64.
ghost use Rattle.std.specs.Prelude.{◌≡◌, ℕ, ◌+◌, ◌%◌, ◌^◌, ◌<◌, ◌≤◌, IsTrue};
ghost use Rattle.lane_bits.specs.Pages.{has};
ghost use Rattle.near_marks.specs.Internal.Rests.{AreRestsKept, HasGapLeaving, HasGapLeavingFrom, HaveRests, HaveRestsOf, HaveSumsOf, HaveSumsWith};

use crate::marks::Marks;
use crate::steps::{Steps, WORDS, step};
use lane_bits::PageBits;

/// Notes what the steps leave.
fn note_rests(rests: &mut PageBits, steps: Steps)
    ensures noted { HaveRestsOf rests.new steps }
    ensures kept { AreRestsKept rests.old rests.new }
{
    let step = step(steps.shift);
    let end = steps.high.min(steps.low + 63);
    let mut number = steps.low;
    while number <= end {
        rests.set((number % 64) as u16);
        number += step;
    }
}

/// What the steps leave.
pub fn rests_of(all: &[Steps]) -> PageBits
    ensures { HaveRests result all.now }
{
    let mut rests = PageBits::new();
    for steps in all {
        note_rests(&mut rests, *steps);
    }
    rests
}

/// Notes what the sums of a number that leaves this and one that leaves one of the others leave.
fn note_sums(sums: &mut PageBits, rest: u16, others: &PageBits)
    requires { rest < 64 }
    ensures noted { HaveSumsWith sums.new rest others.now 64 }
    ensures kept { AreRestsKept sums.old sums.new }
{
    for other in 0..64u16 {
        if others.get(other) {
            sums.set((rest + other) % 64);
        }
    }
}

/// What the sums of two numbers leave of which each leaves one of these.
pub fn sums_of(firsts: &PageBits, others: &PageBits) -> PageBits
    ensures { HaveSumsOf result firsts.now 64 others.now }
{
    let mut sums = PageBits::new();
    for rest in 0..64u16 {
        if firsts.get(rest) {
            note_sums(&mut sums, rest, others);
        }
    }
    sums
}

/// From so many pairs on sums are not added up: they leave nearly all, and that takes its time.
const MANY: u32 = 512;

/// Whether the pairs of what is left are many.
pub fn leave_much(firsts: &PageBits, others: &PageBits) -> bool {
    firsts.count().saturating_mul(others.count()) > MANY
}

/// Whether a number from the lowest to the highest, from the base on, leaves one of these and is not marked.
fn has_gap_leaving_from(marks: &Marks, rests: &PageBits, low: u64, high: u64, base: u64) -> bool
    ensures { HasGapLeavingFrom marks.now rests.now 64 low high base result }
{
    if high < base {
        return false;
    }
    for rest in 0..64u16 {
        if rests.get(rest)
            && marks.has_row_gap(u64::from(rest), low.saturating_sub(base), high - base)
        {
            return true;
        }
    }
    false
}

/// Whether a number from the lowest to the highest is near, leaves one of these and is not marked.
pub fn has_gap_leaving(marks: &Marks, rests: &PageBits, low: u64, high: u64) -> bool
    requires { high ≤ 2 ^ 33 + 4096 }
    ensures { HasGapLeaving marks.now rests.now low high result }
{
    has_gap_leaving_from(marks, rests, low, high, 0)
        || has_gap_leaving_from(marks, rests, low, high, WORDS)
        || has_gap_leaving_from(marks, rests, low, high, 2 * WORDS)
}
