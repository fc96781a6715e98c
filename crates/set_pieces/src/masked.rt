// Pieces of the words of which the bits under a mask are a number of a piece.
ghost use Rattle.std.specs.Prelude.{◌≡◌, ℕ, ◌+◌, ◌%◌, ◌^◌, ◌<◌, ◌≤◌, ◌&&◌, false, not, nat_lt, nat_le, bit_and, IfSome, MatchOption, OnOk};
ghost use Rattle.set_pieces.specs.Counting.{one};
ghost use Rattle.set_pieces.specs.Internal.Patterns.{is_matched, matches};
ghost use Rattle.set_pieces.specs.Internal.Runs.{in_run, is_in_run};
ghost use Rattle.set_pieces.specs.Internal.Pieces.{in_piece, times};

use crate::error::OutOfMemory;
use crate::parts::push_piece;
use crate::pattern::Pattern;
use crate::piece::Piece;
use crate::run::Run;
use crate::steps::{low_bits, step};

/// The pattern of the words whose bits under the mask the hole matches, if there is one.
fn masked_hole(hole: Option<Pattern>, mask: u32) -> Option<Pattern>
    ensures { (x : ℕ) → is_matched result x ≡ is_matched hole (bit_and x mask) }
{
    match hole {
        Some(hole) => hole.masked(mask),
        None => None,
    }
}

/// Of the numbers from one to another, the one that the greatest power of two divides.
fn roundest(from: u64, to: u64) -> u64
    requires { from ≤ to }
    ensures from { from ≤ result }
    ensures to { result ≤ to }
{
    let mut round = to;
    while round > 0 && round & (round - 1) >= from {
        round &= round - 1;
    }
    round
}

/// A round number up to the first, so that from it on none matches before the first.
fn round_low(pattern: Pattern, first: u32) -> u64
    ensures most { result ≤ first }
    ensures none { (y : ℕ) → result ≤ y → y < first → matches pattern y ≡ false }
{
    if first == 0 {
        return 0;
    }
    match pattern.last_to(first - 1) {
        Some(before) => roundest(u64::from(before) + 1, u64::from(first)),
        None => 0,
    }
}

/// A round number past the last, so that below it none up to the mask matches behind the last.
fn round_end(pattern: Pattern, last: u32, mask: u32) -> u64
    requires { last ≤ mask }
    ensures least { last < result }
    ensures most { result ≤ 2 ^ 32 }
    ensures none { (y : ℕ) → last < y → y < result → y ≤ mask → matches pattern y ≡ false }
{
    let from = u64::from(last) + 1;
    let next = pattern.next_from(from);
    if u64::from(mask) < next {
        return (u64::from(mask) + 1).next_power_of_two();
    }
    roundest(from, next)
}

/// Two numbers, as round as may be, so that up to the mask the run holds what matches its pattern from the first on and
/// below the second.
fn round_ends(run: Run, mask: u32) -> Option<(u64, u64)>
    ensures held { MatchOption result
        ((y : ℕ) → y ≤ mask → in_run run y ≡ false)
        (λ s. (y : ℕ) → y ≤ mask → in_run run y ≡ ((nat_le s.0 y && nat_lt y s.1) && matches run.pattern y)) }
    ensures ordered { IfSome result (λ s. s.0 ≤ s.1) }
    ensures most { IfSome result (λ s. s.1 ≤ 2 ^ 32) }
{
    let part = run.clipped(0, u64::from(mask) + 1)?;
    let first = part.first_from(0)?;
    let last = part.last()?;
    Some((
        round_low(run.pattern, first),
        round_end(run.pattern, last, mask),
    ))
}

/// The exponent of the greatest power of two that divides the first number, and that doesn't lead past the end.
fn block_shift(from: u64, end: u64) -> u32
    requires { from < end }
    ensures divides { from % 2 ^ result ≡ 0 }
    ensures fits { from + 2 ^ result ≤ end }
    ensures bound { result < 33 }
{
    let mut shift = 0;
    while shift < 32 && low_bits(from, shift + 1) == 0 && step(shift + 1) <= end - from {
        shift += 1;
    }
    shift
}

/// The words whose bits under the mask are one of 2^shift numbers, if there is such a word.
fn masked_block(from: u64, shift: u32, mask: u32) -> Option<Run>
    requires shift { shift < 33 }
    requires divides { from % 2 ^ shift ≡ 0 }
    requires fits { from + 2 ^ shift ≤ 2 ^ 32 }
    ensures { (x : ℕ) → x < 2 ^ 32 →
        is_in_run result x ≡ (nat_le from (bit_and x mask) && nat_lt (bit_and x mask) (from + 2 ^ shift)) }
{
    let low = (step(shift) - 1) as u32;
    Run::matching(mask & !low, from as u32)
}

/// Appends the words of the block that the pattern matches and the hole doesn't.
fn push_block(
    out: &mut Vec<Piece>,
    block: Option<Run>,
    pattern: Pattern,
    hole: Option<Pattern>,
) -> Result<(), OutOfMemory>
    ensures { OnOk result ((x : ℕ) → times out.new.items x ≡
        times out.old.items x + one (is_in_run block x && (matches pattern x && not (is_matched hole x)))) }
{
    let Some(block) = block else {
        return Ok(());
    };
    match block.matched(pattern) {
        Some(run) => {
            push_piece(out, Piece::of(run, hole))?;
            Ok(())
        }
        None => Ok(()),
    }
}

/// Appends the words that the pattern matches and the hole doesn't, and whose bits under the mask are a number from one
/// on and below another: block by block, each of a power of two that divides its first number.
fn push_range(
    out: &mut Vec<Piece>,
    from: u64,
    end: u64,
    mask: u32,
    pattern: Pattern,
    hole: Option<Pattern>,
) -> Result<(), OutOfMemory>
    requires ordered { from ≤ end }
    requires most { end ≤ 2 ^ 32 }
    ensures { OnOk result ((x : ℕ) → x < 2 ^ 32 → times out.new.items x ≡ times out.old.items x +
        one ((nat_le from (bit_and x mask) && nat_lt (bit_and x mask) end) && (matches pattern x && not (is_matched hole x)))) }
{
    let mut low = from;
    while low < end {
        let shift = block_shift(low, end);
        push_block(out, masked_block(low, shift, mask), pattern, hole)?;
        low += step(shift);
    }
    Ok(())
}

/// Appends the words of which the bits under the mask are a number from one on and below another that the piece's pattern
/// matches and its hole doesn't.
fn push_masked_range(
    out: &mut Vec<Piece>,
    p: Piece,
    from: u64,
    end: u64,
    mask: u32,
) -> Result<(), OutOfMemory>
    requires ordered { from ≤ end }
    requires most { end ≤ 2 ^ 32 }
    ensures { OnOk result ((x : ℕ) → x < 2 ^ 32 → times out.new.items x ≡ times out.old.items x +
        one ((nat_le from (bit_and x mask) && nat_lt (bit_and x mask) end) &&
        (matches p.run.pattern (bit_and x mask) && not (is_matched p.hole (bit_and x mask))))) }
{
    match p.run.pattern.masked(mask) {
        Some(pattern) => {
            push_range(out, from, end, mask, pattern, masked_hole(p.hole, mask))?;
            Ok(())
        }
        None => Ok(()),
    }
}

/// Appends the words of which the bits under the mask are a number of the piece.
pub fn push_masked_piece(out: &mut Vec<Piece>, p: Piece, mask: u32) -> Result<(), OutOfMemory>
    ensures { OnOk result ((x : ℕ) → x < 2 ^ 32 →
        times out.new.items x ≡ times out.old.items x + one (in_piece p (bit_and x mask))) }
{
    if mask == u32::MAX {
        push_piece(out, Some(p))?;
        return Ok(());
    }
    match round_ends(p.run, mask) {
        Some((low, end)) => {
            push_masked_range(out, p, low, end, mask)?;
            Ok(())
        }
        None => Ok(()),
    }
}
