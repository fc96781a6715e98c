// What two pieces have in common, and what one leaves of another.
ghost use Rattle.std.specs.Prelude.{◌≡◌, ℕ, ◌+◌, ◌^◌, ◌&&◌, not, OnOk};
ghost use Rattle.set_pieces.specs.Counting.{one, total};
ghost use Rattle.set_pieces.specs.Internal.Patterns.{is_matched, matches};
ghost use Rattle.set_pieces.specs.Internal.Runs.{in_run, is_in_run};
ghost use Rattle.set_pieces.specs.Internal.Pieces.{in_piece, is_held, times};

use crate::error::OutOfMemory;
use crate::pattern::Pattern;
use crate::piece::Piece;
use crate::run::Run;
use crate::steps::END;

/// Appends a piece, if there is one.
#[tactic(auto, using(crate::proofs::Times::times_push))]
pub fn push_piece(out: &mut Vec<Piece>, piece: Option<Piece>) -> Result<(), OutOfMemory>
    ensures { OnOk result ((x : ℕ) →
        times out.new.items x ≡ times out.old.items x + one (is_held piece x)) }
{
    if let Some(p) = piece {
        out.push(p)?;
    }
    Ok(())
}

/// Appends the numbers of the run, if there is one.
pub fn push_run(out: &mut Vec<Piece>, run: Option<Run>) -> Result<(), OutOfMemory>
    ensures { OnOk result ((x : ℕ) → times out.new.items x ≡
        times out.old.items x + one (is_in_run run x)) }
{
    match run {
        Some(run) => push_piece(out, Some(Piece::whole(run))),
        None => Ok(()),
    }
}

/// Appends the numbers of the piece that the pattern doesn't match: for each bit those that have its bits below that one,
/// and not that one.
fn push_missed(out: &mut Vec<Piece>, p: Piece, pattern: Pattern) -> Result<(), OutOfMemory>
    ensures { OnOk result ((x : ℕ) →
        times out.new.items x + one (in_piece p x && matches pattern x) ≡ times out.old.items x + one (in_piece p x)) }
{
    pattern.ends();
    for bit in 0..32 {
        push_piece(out, p.missed(pattern, bit))?;
    }
    Ok(())
}

/// Whether a pattern tells just one bit more than the mask. Then the numbers that don't match it match another such one.
fn is_one_more(pattern: Pattern, mask: u32) -> bool {
    (pattern.mask & !mask).count_ones() == 1
}

/// Appends the numbers of the piece that the pattern doesn't match, where it matches some that the run's pattern does: as
/// one piece, if the piece has no hole or one of both patterns has all that the other has.
fn push_holed(out: &mut Vec<Piece>, p: Piece, pattern: Pattern) -> Result<(), OutOfMemory>
    ensures { OnOk result ((x : ℕ) →
        times out.new.items x + one (in_piece p x && matches pattern x) ≡ times out.old.items x + one (in_piece p x)) }
{
    if is_one_more(pattern, p.run.pattern.mask) {
        return push_missed(out, p, pattern);
    }
    match p.wider_hole(pattern) {
        Some(hole) => {
            push_piece(out, Piece::of(p.run, Some(hole)))?;
            Ok(())
        }
        None => push_missed(out, p, pattern),
    }
}

/// Appends the numbers of the piece that the pattern doesn't match.
fn push_unmatched(out: &mut Vec<Piece>, p: Piece, pattern: Pattern) -> Result<(), OutOfMemory>
    ensures { OnOk result ((x : ℕ) →
        times out.new.items x + one (in_piece p x && matches pattern x) ≡ times out.old.items x + one (in_piece p x)) }
{
    if p.run.pattern.is_within(pattern) {
        return Ok(());
    }
    match p.run.pattern.both(pattern) {
        Some(narrow) => {
            push_holed(out, p, narrow)?;
            Ok(())
        }
        None => {
            push_piece(out, Some(p))?;
            Ok(())
        }
    }
}

/// Appends the numbers of the piece that the hole doesn't match, if there is one.
pub fn push_outside_hole(
    out: &mut Vec<Piece>,
    p: Piece,
    hole: Option<Pattern>,
) -> Result<(), OutOfMemory>
    ensures { OnOk result ((x : ℕ) →
        times out.new.items x + one (in_piece p x && is_matched hole x) ≡ times out.old.items x + one (in_piece p x)) }
{
    match hole {
        Some(pattern) => {
            push_unmatched(out, p, pattern)?;
            Ok(())
        }
        None => {
            push_piece(out, Some(p))?;
            Ok(())
        }
    }
}

/// Appends the numbers of a part that the pattern doesn't match, if there is a part.
fn push_part_unmatched(
    out: &mut Vec<Piece>,
    part: Option<Piece>,
    pattern: Pattern,
) -> Result<(), OutOfMemory>
    ensures { OnOk result ((x : ℕ) →
        times out.new.items x + one (is_held part x && matches pattern x) ≡ times out.old.items x + one (is_held part x)) }
{
    match part {
        Some(p) => push_unmatched(out, p, pattern),
        None => Ok(()),
    }
}

/// Appends what the run leaves of the piece: what is below the run, what is between its ends, and what is above it.
fn push_around(out: &mut Vec<Piece>, p: Piece, q: Run) -> Result<(), OutOfMemory>
    ensures { OnOk result ((x : ℕ) → times out.new.items x ≡
        times out.old.items x + one (in_piece p x && not (in_run q x))) }
{
    let (low, end) = (u64::from(q.low), u64::from(q.high) + 1);
    push_piece(out, p.clipped(0, low))?;
    push_part_unmatched(out, p.clipped(low, end), q.pattern)?;
    push_piece(out, p.clipped(end, END))?;
    Ok(())
}

/// Appends what the run leaves of the piece.
fn push_outside(out: &mut Vec<Piece>, p: Piece, q: Run) -> Result<(), OutOfMemory>
    ensures { OnOk result ((x : ℕ) → times out.new.items x ≡
        times out.old.items x + one (in_piece p x && not (in_run q x))) }
{
    if p.common(q).is_none() {
        return push_piece(out, Some(p));
    }
    push_around(out, p, q)
}

/// What the piece and the run have in common, if there is a run.
fn common_part(p: Piece, run: Option<Run>) -> Option<Piece>
    ensures { (x : ℕ) → is_held result x ≡ (in_piece p x && is_in_run run x) }
{
    match run {
        Some(run) => p.common(run),
        None => None,
    }
}

/// Appends what the second piece leaves of the first.
pub fn push_less(out: &mut Vec<Piece>, p: Piece, q: Piece) -> Result<(), OutOfMemory>
    ensures { OnOk result ((x : ℕ) → times out.new.items x ≡
        times out.old.items x + one (in_piece p x && not (in_piece q x))) }
{
    push_outside(out, p, q.run)?;
    push_piece(out, common_part(p, q.filled()))?;
    Ok(())
}

/// How many numbers a piece holds, if there is one.
#[tactic(auto, using(crate::proofs::Totals::total_zero))]
fn count_piece(piece: Option<Piece>) -> u64
    ensures { result ≡ total (λ x. one (is_held piece x)) (2 ^ 32) }
{
    match piece {
        Some(p) => p.count_below(END),
        None => 0,
    }
}

/// How many numbers two pieces have in common.
pub fn count_both(p: Piece, q: Piece) -> u64
    ensures { result ≡ total (λ x. one (in_piece p x && in_piece q x)) (2 ^ 32) }
{
    count_piece(p.common(q.run)) - count_piece(common_part(p, q.filled()))
}
