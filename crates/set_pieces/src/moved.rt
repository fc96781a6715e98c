// Pieces moved by a distance, modulo 2^32.
ghost use Rattle.std.specs.Prelude.{◌≡◌, ℕ, ◌+◌, ◌-◌, ◌%◌, ◌^◌, ◌<◌, ◌&&◌, not, OnOk};
ghost use Rattle.set_pieces.specs.Counting.{one};
ghost use Rattle.set_pieces.specs.Internal.Patterns.{matches};
ghost use Rattle.set_pieces.specs.Internal.Runs.{in_run, is_in_run};
ghost use Rattle.set_pieces.specs.Internal.Pieces.{in_piece, times};

use crate::error::OutOfMemory;
use crate::parts::{push_piece, push_run};
use crate::pattern::Pattern;
use crate::piece::{Piece, shifted_past, shifted_within};
use crate::run::Run;
use crate::steps::END;

/// Appends each number plus the distance, modulo 2^32. Numbers a power of two apart are so still;
/// others are taken in halves until they are.
fn push_shifted(out: &mut Vec<Piece>, run: Option<Run>, distance: u32) -> Result<(), OutOfMemory>
    ensures { OnOk result ((y : ℕ) → y < 2 ^ 32 → times out.new.items y ≡
        times out.old.items y + one (is_in_run run ((y + (2 ^ 32 - distance)) % 2 ^ 32))) }
{
    let Some(p) = run else {
        return Ok(());
    };
    match p.pattern.halves() {
        Some((first, second)) => {
            push_shifted(out, p.with_pattern(first).clipped(0, END), distance)?;
            push_shifted(out, p.with_pattern(second).clipped(0, END), distance)?;
            Ok(())
        }
        None => {
            push_run(out, p.shifted_within(distance))?;
            push_run(out, p.shifted_past(distance))?;
            Ok(())
        }
    }
}

/// So many numbers, from each multiple on, tell all bits of the run's mask apart.
fn block_of(p: Run) -> u64
    ensures { 0 < result }
{
    (u64::from(p.pattern.mask) + 1).next_power_of_two()
}

/// Whether the run reaches into no more blocks than it has residues in one, or, where these are more than two, into
/// fewer than 4,096.
fn has_few_blocks(p: Run) -> bool {
    let block = block_of(p);
    let blocks = (u64::from(p.high) / block).saturating_sub(u64::from(p.low) / block) + 1;
    let residues = block >> p.pattern.mask.count_ones();
    blocks <= residues || (residues > 2 && blocks < 4096)
}

/// Appends each number plus the distance, modulo 2^32, block by block: of numbers of one block a range may be left.
fn push_blocks(out: &mut Vec<Piece>, p: Run, distance: u32) -> Result<(), OutOfMemory>
    ensures { OnOk result ((y : ℕ) → y < 2 ^ 32 → times out.new.items y ≡
        times out.old.items y + one (in_run p ((y + (2 ^ 32 - distance)) % 2 ^ 32))) }
{
    let block = block_of(p);
    let mut from = u64::from(p.low);
    while from <= u64::from(p.high) {
        let end = (from - from % block).saturating_add(block);
        if let Some(part) = p.clipped(from, end) {
            push_shifted(out, part.tightened(), distance)?;
        }
        from = end;
    }
    Ok(())
}

/// Appends each number of the run, if there is one, plus the distance, modulo 2^32.
fn push_moved(out: &mut Vec<Piece>, run: Option<Run>, distance: u32) -> Result<(), OutOfMemory>
    ensures { OnOk result ((y : ℕ) → y < 2 ^ 32 → times out.new.items y ≡
        times out.old.items y + one (is_in_run run ((y + (2 ^ 32 - distance)) % 2 ^ 32))) }
{
    let Some(p) = run else {
        return Ok(());
    };
    if p.pattern.is_step() {
        return push_shifted(out, Some(p), distance);
    }
    if has_few_blocks(p) {
        return push_blocks(out, p, distance);
    }
    push_shifted(out, p.tightened(), distance)
}

/// The same of the numbers of a run that a pattern doesn't match: at once where both patterns are those of numbers a power
/// of two apart, and else by the bits of the second one.
fn push_moved_holed(
    out: &mut Vec<Piece>,
    run: Run,
    hole: Pattern,
    distance: u32,
) -> Result<(), OutOfMemory>
    ensures { OnOk result ((y : ℕ) → y < 2 ^ 32 → times out.new.items y ≡ times out.old.items y +
        one (in_run run ((y + (2 ^ 32 - distance)) % 2 ^ 32) && not (matches hole ((y + (2 ^ 32 - distance)) % 2 ^ 32)))) }
{
    if run.pattern.is_step() && hole.is_step() {
        push_piece(out, shifted_within(run, hole, distance))?;
        push_piece(out, shifted_past(run, hole, distance))?;
        return Ok(());
    }
    hole.ends();
    for bit in 0..32 {
        push_moved(out, run.missed(hole, bit), distance)?;
    }
    Ok(())
}

/// Appends each number of the piece plus the distance, modulo 2^32.
pub fn push_moved_piece(out: &mut Vec<Piece>, p: Piece, distance: u32) -> Result<(), OutOfMemory>
    ensures { OnOk result ((y : ℕ) → y < 2 ^ 32 → times out.new.items y ≡
        times out.old.items y + one (in_piece p ((y + (2 ^ 32 - distance)) % 2 ^ 32))) }
{
    match p.hole {
        Some(hole) => {
            push_moved_holed(out, p.run, hole, distance)?;
            Ok(())
        }
        None => {
            push_moved(out, Some(p.run), distance)?;
            Ok(())
        }
    }
}
