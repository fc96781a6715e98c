// From pairs of ends to pieces that are apart.
ghost use Rattle.std.specs.Prelude.{◌≡◌, ℕ, ◌+◌, ◌^◌, ◌<◌, ◌≤◌, ◌↔◌, ◌&&◌, ◌||◌, ◌==◌, ◌%◌, nat_le, ◌∷◌, IfOk, IfSome, OnOk, All, IsTrue};
ghost use Rattle.std.specs.List.Sorted.{IsNonDecreasingBy};
ghost use Rattle.std.specs.Int.{IsPowerOfTwo};
ghost use Rattle.dom_set.specs.Elements.{is_within};
ghost use Rattle.set_pieces.specs.Counting.{one};
ghost use Rattle.set_pieces.specs.Internal.Pieces.{in_piece, is_held, times, holds, IsApart, IsMultiples};

use set_pieces::{OutOfMemory, Pattern, Piece, Run, low_bits, step};
use std::alloc::Global;

/// The exponent of a power of two.
fn exponent(n: u32) -> u32
    requires { IsPowerOfTwo n }
    ensures power { n ≡ 2 ^ result }
    ensures bound { result < 32 }
{
    n.trailing_zeros()
}

/// The multiples of 2^shift from one number to another.
fn multiples(low: u32, high: u32, shift: u32) -> Option<Piece>
    requires { shift < 32 }
    ensures multiples { IfSome result (IsMultiples shift) }
    ensures held { (x : ℕ) → x < 2 ^ 32 →
        is_held result x ≡ (x % 2 ^ shift == 0 && (nat_le low x && nat_le x high)) }
{
    let up = u64::from(low) + (step(shift) - 1);
    let first = up - low_bits(up, shift);
    let high = u64::from(high);
    let last = high - low_bits(high, shift);
    if last < first {
        return None;
    }
    Some(Piece {
        run: Run {
            low: first as u32,
            high: last as u32,
            pattern: Pattern::multiples(shift),
        },
        hole: None,
    })
}

/// Appends the multiples of 2^shift from one number to another.
fn push_multiples(out: &mut Vec<Piece>, low: u32, high: u32, shift: u32) -> Result<(), OutOfMemory>
    requires { shift < 32 }
    ensures multiples { OnOk result
        (All (IsMultiples shift) out.old.items → All (IsMultiples shift) out.new.items) }
    ensures held { OnOk result ((x : ℕ) → x < 2 ^ 32 → holds out.new.items x ≡
        (holds out.old.items x || (x % 2 ^ shift == 0 && (nat_le low x && nat_le x high)))) }
{
    if let Some(p) = multiples(low, high, shift) {
        out.push(p)?;
    }
    Ok(())
}

/// The multiples of 2^shift in each pair.
fn aligned(alloc: Global, pairs: &[(u32, u32)], shift: u32) -> Result<Vec<Piece>, OutOfMemory>
    requires { shift < 32 }
    ensures multiples { IfOk result (λ v. All (IsMultiples shift) v.items) }
    ensures held { IfOk result (λ v. (x : ℕ) → x < 2 ^ 32 →
        holds v.items x ≡ (x % 2 ^ shift == 0 && is_within pairs.now x)) }
{
    let mut out = Vec::new(alloc);
    for pair in pairs {
        push_multiples(&mut out, pair.0, pair.1, shift)?;
    }
    Ok(out)
}

/// Whether a piece that begins no lower goes on with the first or overlaps it.
fn touches(p: Piece, q: Piece) -> bool
    ensures { IsTrue result ↔ (q.run.low ≤ p.run.high + p.run.pattern.mask + 1) }
{
    u64::from(q.run.low) <= u64::from(p.run.high) + u64::from(p.run.pattern.mask) + 1
}

/// The numbers of two pieces of one step of which the second begins no lower, and touches the
/// first.
fn joined(p: Piece, q: Piece, shift: u32) -> Piece
    requires first { IsMultiples shift p }
    requires second { IsMultiples shift q }
    requires ordered { p.run.low ≤ q.run.low }
    requires touching { q.run.low ≤ p.run.high + p.run.pattern.mask + 1 }
    ensures multiples { IsMultiples shift result }
    ensures first { result.run.low ≡ p.run.low }
    ensures held { (x : ℕ) →
        in_piece result x ≡ (in_piece p x || in_piece q x) }
{
    Piece {
        run: Run {
            low: p.run.low,
            high: p.run.high.max(q.run.high),
            pattern: p.run.pattern,
        },
        hole: None,
    }
}

/// The numbers of the first piece and the rest, all of one step and in the order of their
/// first numbers, each once.
fn merged_from(
    alloc: Global,
    first: Piece,
    rest: &[Piece],
    shift: u32,
) -> Result<Vec<Piece>, OutOfMemory>
    requires first { IsMultiples shift first }
    requires rest { All (IsMultiples shift) rest.now }
    requires sorted { IsNonDecreasingBy (λ p. p.run.low) (first ∷ rest.now) }
    ensures { IfOk result (λ v. (x : ℕ) →
        times v.items x ≡ one (in_piece first x || holds rest.now x)) }
{
    let mut out = Vec::new(alloc);
    let mut open = first;
    for p in rest {
        if touches(open, *p) {
            open = joined(open, *p, shift);
        } else {
            out.push(open)?;
            open = *p;
        }
    }
    out.push(open)?;
    Ok(out)
}

/// The numbers of pieces of one step in the order of their first numbers, each once.
fn merged(alloc: Global, sorted: &[Piece], shift: u32) -> Result<Vec<Piece>, OutOfMemory>
    requires multiples { All (IsMultiples shift) sorted.now }
    requires sorted { IsNonDecreasingBy (λ p. p.run.low) sorted.now }
    ensures { IfOk result (λ v. (x : ℕ) → times v.items x ≡ one (holds sorted.now x)) }
{
    match sorted {
        [] => Ok(Vec::new(alloc)),
        [first, rest @ ..] => merged_from(alloc, *first, rest, shift),
    }
}

/// The multiples of a power of two in the ranges, as pieces that are apart.
pub fn pieces_of(alloc: Global, pairs: &[(u32, u32)], align: u32) -> Result<Vec<Piece>, OutOfMemory>
    requires { IsPowerOfTwo align }
    ensures apart { IfOk result (λ v. IsApart v.items) }
    ensures held { IfOk result (λ v. (x : ℕ) → x < 2 ^ 32 →
        holds v.items x ≡ (x % align == 0 && is_within pairs.now x)) }
{
    let shift = exponent(align);
    let mut all = aligned(alloc, pairs, shift)?;
    all.sort_unstable_by_key(|p| p.run.low);
    let pieces = merged(alloc, &all, shift)?;
    Ok(pieces)
}
