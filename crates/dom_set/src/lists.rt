// Lists of pieces.
ghost use Rattle.std.specs.Prelude.{◌≡◌, ℕ, ◌+◌, ◌-◌, ◌%◌, ◌^◌, ◌<◌, ◌≤◌, ◌&&◌, ◌||◌, Bool, true, bit_and, All, IfSome, IsTrue, nat_lt, nat_le, if◌then◌else◌, IfOk, OnOk};
ghost use Rattle.set_pieces.specs.Counting.{total};
ghost use Rattle.dom_set.specs.Elements.{is_within};
ghost use Rattle.set_pieces.specs.Internal.Pieces.{in_piece, is_held, times, holds, Ascends, IsApart};
ghost use Rattle.set_pieces.specs.Ends.{HasPage, IsFirstFrom, IsLast, AreEnds};

use set_pieces::{
    END, OutOfMemory, Piece, greater, lesser, push_masked_piece, push_moved_piece, push_piece,
};
use std::alloc::Global;

/// Whether some piece holds the number.
pub fn any_has(pieces: &[Piece], x: u32) -> bool
    ensures { result ≡ holds pieces.now x }
{
    pieces.iter().any(|p| p.has(x))
}

/// How many numbers below the given one they hold.
pub fn count_below(pieces: &[Piece], x: u64) -> u64
    requires end { x ≤ 2 ^ 32 }
    requires apart { IsApart pieces.now }
    ensures { result ≡ total (times pieces.now) x }
{
    let mut count = 0;
    for p in pieces {
        count += p.count_below(x);
    }
    count
}

/// The number below which they hold so many.
pub fn nth(pieces: &[Piece], n: u64) -> u32
    requires apart { IsApart pieces.now }
    requires within { n < total (times pieces.now) (2 ^ 32) }
    ensures below { total (times pieces.now) result ≡ n }
    ensures held { times pieces.now result ≡ 1 }
{
    let mut low = 0;
    let mut end = END;
    while end - low > 1 {
        let middle = low + (end - low) / 2;
        if count_below(pieces, middle) <= n {
            low = middle;
        } else {
            end = middle;
        }
    }
    low as u32
}

/// The nearer of a number and of the first one from the given one up that the piece holds: a piece that begins no
/// nearer than the number isn't asked.
fn nearer(nearest: Option<u32>, p: Piece, from: u32) -> Option<u32>
    ensures { (t : ℕ → Bool) → IsFirstFrom t from nearest →
        IsFirstFrom (λ x. t x || in_piece p x) from result }
{
    match nearest {
        Some(x) if x <= p.run.low => nearest,
        _ => lesser(nearest, p.first_from(from)),
    }
}

/// The first number from the given one up that they hold.
pub fn first_from(pieces: &[Piece], from: u32) -> Option<u32>
    ensures { IsFirstFrom (holds pieces.now) from result }
{
    let mut nearest = None;
    for p in pieces {
        nearest = nearer(nearest, *p, from);
    }
    nearest
}

/// The last number that they hold.
pub fn last(pieces: &[Piece]) -> Option<u32>
    ensures { IsLast (holds pieces.now) result }
{
    let mut furthest = None;
    for p in pieces {
        furthest = greater(furthest, p.last());
    }
    furthest
}

/// The lowest and the highest number of each piece that has one, in the order of the pieces.
pub fn spans(alloc: Global, pieces: &[Piece]) -> Result<Vec<(u32, u32)>, OutOfMemory>
    ensures covered { IfOk result (λ spans. (x : ℕ) → holds pieces.now x ≡ true → is_within spans.items x ≡ true) }
    ensures ends { IfOk result (λ spans. All (AreEnds (holds pieces.now)) spans.items) }
{
    let mut spans = Vec::new(alloc);
    for p in pieces {
        if let Some(span) = p.span() {
            spans.push(span)?;
        }
    }
    Ok(spans)
}

/// A page as `Piece::pages_end` tells it of the piece, and at least the given end.
fn further_end(end: u32, p: Piece, page: u32) -> u32
    requires page { page ≤ 2 ^ 20 }
    requires end { end ≤ 2 ^ 20 }
    ensures reached { end ≤ result }
    ensures most { result ≤ 2 ^ 20 }
    ensures held { (q : ℕ) → page ≤ q → end ≤ q → q < result → HasPage (in_piece p) q }
{
    if p.run.pages_end(page) <= end {
        return end;
    }
    end.max(p.pages_end(page))
}

/// A page from the given one on, so that each page before it, from the given one on, has one of the numbers.
pub fn pages_end(pieces: &[Piece], page: u32) -> u32
    requires { page ≤ 2 ^ 20 }
    ensures reached { page ≤ result }
    ensures most { result ≤ 2 ^ 20 }
    ensures held { (q : ℕ) → page ≤ q → q < result → HasPage (holds pieces.now) q }
{
    let mut end = page;
    for p in pieces {
        end = further_end(end, *p, page);
    }
    end
}

/// The bits that all their numbers have under a mask, where each piece tells its own and these are the same.
pub fn bits_under(pieces: &[Piece], mask: u32) -> Option<u32>
    ensures { IfSome result (λ bits. (x : ℕ) → holds pieces.now x ≡ true → bit_and x mask ≡ bits) }
{
    let bits = pieces.first()?.bits_under(mask)?;
    for p in pieces {
        let own = p.bits_under(mask)?;
        if own != bits {
            return None;
        }
    }
    Some(bits)
}

/// Appends the numbers from one on and below another.
pub fn push_clipped(
    out: &mut Vec<Piece>,
    pieces: &[Piece],
    from: u64,
    end: u64,
) -> Result<(), OutOfMemory>
    requires { from ≤ 2 ^ 32 }
    ensures { OnOk result ((x : ℕ) → times out.new.items x ≡
        times out.old.items x + (if nat_le from x && nat_lt x end then times pieces.now x else 0)) }
{
    for p in pieces {
        push_piece(out, p.clipped(from, end))?;
    }
    Ok(())
}

/// Whether each piece begins no lower than the one before it.
pub fn ascend(pieces: &[Piece]) -> bool
    ensures { IsTrue result → Ascends pieces.now }
{
    for i in 1..pieces.len() {
        if pieces[i].run.low < pieces[i - 1].run.low {
            return false;
        }
    }
    true
}

/// Puts the pieces in the order of their first numbers.
pub fn put_in_order(pieces: &mut Vec<Piece>)
    ensures { (x : ℕ) → times pieces.new.items x ≡ times pieces.old.items x }
{
    if !ascend(pieces) {
        pieces.sort_unstable_by_key(|p| p.run.low);
    }
}

/// Each number plus the distance, modulo 2^32.
pub fn shifted(alloc: Global, pieces: &[Piece], distance: u32) -> Result<Vec<Piece>, OutOfMemory>
    ensures { IfOk result (λ v. (y : ℕ) → y < 2 ^ 32 →
        times v.items y ≡ times pieces.now ((y + (2 ^ 32 - distance)) % 2 ^ 32)) }
{
    let mut out = Vec::new(alloc);
    for p in pieces {
        push_moved_piece(&mut out, *p, distance)?;
    }
    put_in_order(&mut out);
    Ok(out)
}

/// The numbers that they hold when bit 0 is cleared.
pub fn with_odd(alloc: Global, pieces: &[Piece]) -> Result<Vec<Piece>, OutOfMemory>
    ensures { IfOk result (λ v. (x : ℕ) → x < 2 ^ 32 →
        times v.items x ≡ times pieces.now (x - x % 2)) }
{
    let mut out = Vec::new(alloc);
    for p in pieces {
        push_piece(&mut out, p.with_odd())?;
    }
    Ok(out)
}

/// The words of which they hold the bits under the mask.
pub fn masked(alloc: Global, pieces: &[Piece], mask: u32) -> Result<Vec<Piece>, OutOfMemory>
    ensures { IfOk result (λ v. (x : ℕ) → x < 2 ^ 32 →
        times v.items x ≡ times pieces.now (bit_and x mask)) }
{
    let mut out = Vec::new(alloc);
    for p in pieces {
        push_masked_piece(&mut out, *p, mask)?;
    }
    put_in_order(&mut out);
    Ok(out)
}

/// The same numbers, from the first of them to the last one where the piece has no hole. None where it has no number.
fn tight(p: Piece) -> Option<Piece>
    ensures { (x : ℕ) → is_held result x ≡ in_piece p x }
{
    match p.hole {
        Some(_) => Some(p),
        None => {
            let run = p.run.tightened()?;
            Some(Piece::whole(run))
        }
    }
}

/// The same numbers by tight pieces.
pub fn tightened(alloc: Global, pieces: &[Piece]) -> Result<Vec<Piece>, OutOfMemory>
    ensures { IfOk result (λ v. (x : ℕ) → times v.items x ≡ times pieces.now x) }
{
    let mut out = Vec::new(alloc);
    for p in pieces {
        push_piece(&mut out, tight(*p))?;
    }
    put_in_order(&mut out);
    Ok(out)
}
