// Numbers of a set whose lowest bits pass a test, by blocks of numbers.
ghost use Rattle.std.specs.Prelude.{◌≡◌, ℕ, ◌+◌, ◌-◌, ◌%◌, ◌^◌, ◌<◌, ◌≤◌, ◌&&◌, ◌||◌, IfOk, OnOk};
ghost use Rattle.dom_set.specs.Elements.{is_in, is_within};
ghost use Rattle.row_parts.specs.Internal.Blocks.{is_in_block, AllPass, NonePass};
ghost use Rattle.row_parts.specs.declared.blocks.Cover.TheVariants.{All, Nothing, Some as SomePass};

use dom_set::{OutOfMemory, Set, set_laws};
use std::alloc::Global;

/// How many numbers of a block pass a test.
#[derive(Clone, Copy, Debug, PartialEq, Eq)]
pub enum Cover {
    All,
    Nothing,
    Some,
}

/// A test of numbers that is asked of blocks: 2^bits numbers from a multiple of 2^bits on.
pub trait Choice {
    ghost use Rattle.std.specs.Prelude.{ℕ, Bool};

    /// Whether a number passes.
    ghost test: { Self → ℕ → Bool };

    /// Blocks of fewer than 2^grain numbers are not asked of.
    ghost grain: { Self → ℕ };

    /// How many numbers of a block pass; of a least block it tells all or nothing.
    fn judge(&self, start: u32, bits: u32) -> Cover
        requires bits { bits ≤ 32 }
        requires grain { grain self.now ≤ bits }
        requires aligned { start % 2 ^ bits ≡ 0 }
        requires within { start + 2 ^ bits ≤ 2 ^ 32 }
        ensures all { result ≡ All → AllPass (test self.now) start bits }
        ensures none { result ≡ Nothing → NonePass (test self.now) start bits }
        ensures some { result ≡ SomePass → grain self.now < bits };
}

/// A power of two.
pub fn power(bits: u32) -> u64
    requires { bits < 33 }
    ensures value { result ≡ 2 ^ bits }
    ensures bound { result ≤ 2 ^ 32 }
{
    1u64 << bits
}

/// The mask of so many lowest bits.
pub fn mask_of(width: u32) -> u32
    requires { width ≤ 32 }
    ensures { result ≡ 2 ^ width - 1 }
{
    (power(width) - 1) as u32
}

/// The last number of a block.
fn last_of(start: u32, bits: u32) -> u32
    requires bits { bits ≤ 32 }
    requires within { start + 2 ^ bits ≤ 2 ^ 32 }
    ensures { result + 1 ≡ start + 2 ^ bits }
{
    start + (power(bits) - 1) as u32
}

/// How a block is halved.
#[derive(Clone, Copy, Debug, PartialEq, Eq)]
struct Halves {
    bits: u32,
    /// Where the upper half begins.
    upper: u32,
}

/// The halves of a block.
#[tactic(auto, using(crate::proofs::Cuts::double, crate::proofs::Cuts::lower_aligned, crate::proofs::Cuts::upper_aligned))]
fn halved(start: u32, bits: u32) -> Halves
    requires some { 0 < bits }
    requires bits { bits ≤ 32 }
    requires aligned { start % 2 ^ bits ≡ 0 }
    requires within { start + 2 ^ bits ≤ 2 ^ 32 }
    ensures bits { result.bits + 1 ≡ bits }
    ensures size { 2 ^ bits ≡ 2 ^ result.bits + 2 ^ result.bits }
    ensures upper { result.upper ≡ start + 2 ^ result.bits }
    ensures lower_aligned { start % 2 ^ result.bits ≡ 0 }
    ensures upper_aligned { result.upper % 2 ^ result.bits ≡ 0 }
{
    let half = bits - 1;
    Halves {
        bits: half,
        upper: start + power(half) as u32,
    }
}

/// Appends ranges of the numbers in the block that pass.
#[tactic(auto, using(crate::proofs::Cuts::halved, crate::proofs::Cuts::with_none))]
fn push_blocks<C: Choice>(
    choice: &C,
    start: u32,
    bits: u32,
    ranges: &mut Vec<(u32, u32)>,
) -> Result<(), OutOfMemory>
    requires bits { bits ≤ 32 }
    requires grain { C.grain choice.now ≤ bits }
    requires aligned { start % 2 ^ bits ≡ 0 }
    requires within { start + 2 ^ bits ≤ 2 ^ 32 }
    ensures { OnOk result ((x : ℕ) →
        is_within ranges.new.items x
        ≡ (is_within ranges.old.items x || (is_in_block start bits x && C.test choice.now x))) }
{
    match choice.judge(start, bits) {
        Cover::All => {
            ranges.push((start, last_of(start, bits)))?;
            Ok(())
        }
        Cover::Nothing => Ok(()),
        Cover::Some => {
            let halves = halved(start, bits);
            push_blocks(choice, start, halves.bits, ranges)?;
            push_blocks(choice, halves.upper, halves.bits, ranges)
        }
    }
}

/// The numbers of the set of which the lowest bits, so many, pass.
pub fn chosen<C: Choice>(
    alloc: Global,
    set: &Set,
    choice: &C,
    width: u32,
) -> Result<Set, OutOfMemory>
    requires width { width ≤ 32 }
    requires grain { C.grain choice.now ≤ width }
    ensures { IfOk result (λ s. (x : ℕ) → x < 2 ^ 32 → is_in s x ≡ (is_in set.now x && C.test choice.now (x % 2 ^ width))) }
{
    set_laws();
    let _words = power(width);
    let mut ranges = Vec::new(alloc);
    push_blocks(choice, 0, width, &mut ranges)?;
    // Neighbouring blocks are one range. Where the lowest bits are not all, its numbers come again.
    let low = Set::from_ranges(alloc, &ranges, 1)?;
    let passing = low.masked(alloc, mask_of(width))?;
    let chosen = set.and(alloc, &passing)?;
    Ok(chosen)
}
