// Two lists of pieces at once: what they have in common, what one leaves of the other, and the numbers of either.
ghost use Rattle.std.specs.Prelude.{◌≡◌, ℕ, ◌+◌, ◌*◌, ◌^◌, ◌<◌, ◌≤◌, ◌↔◌, ◌&&◌, not, List, length, drop, IsTrue, if◌then◌else◌, IfOk, OnOk};
ghost use Rattle.set_pieces.specs.Counting.{one, total};
ghost use Rattle.dom_set.specs.Elements.{is_matching};
ghost use Rattle.set_pieces.specs.Internal.Pieces.{in_piece, times, holds, Ascends, IsApart, AreAlive};

use crate::lists::{ascend, count_below, put_in_order};
use set_pieces::{
    END, OutOfMemory, Piece, Run, count_both, push_less, push_outside_hole, push_piece, push_run,
};
use std::alloc::Global;

/// Where a walk through a list goes on: at its place, with those of the pieces before it that reach from the number
/// on, or from the start where the number lies before the old one.
fn resumed(alive: &mut Vec<Piece>, place: usize, old: u32, from: u32) -> usize
    ensures { (ps : List Piece) → AreAlive ps place alive.old.items old → AreAlive ps result alive.new.items from }
{
    if old <= from {
        alive.retain(|p| from <= p.run.high);
        place
    } else {
        alive.clear();
        0
    }
}

/// Appends the piece, if it reaches from the number on.
fn push_alive(alive: &mut Vec<Piece>, p: Piece, from: u32) -> Result<(), OutOfMemory>
    ensures { OnOk result ((x : ℕ) → from ≤ x →
        times alive.new.items x ≡ times alive.old.items x + one (in_piece p x)) }
{
    if from <= p.run.high {
        alive.push(p)?;
    }
    Ok(())
}

/// Whether a walk through the list goes on from the place: where the piece there ends before the number, or the next
/// one does not begin behind it.
fn is_passed(pieces: &[Piece], place: usize, from: u32) -> bool
    ensures { IsTrue result → place < length pieces.now }
{
    if place >= pieces.len() {
        return false;
    }
    pieces[place].run.high < from || (place < pieces.len() - 1 && pieces[place + 1].run.low <= from)
}

/// The place of a walk through a list at a number, and those of the pieces before it that reach from the number on.
/// Where the list ascends, one is kept only if the next one begins no later than it ends.
fn next_place(
    alive: &mut Vec<Piece>,
    pieces: &[Piece],
    place: usize,
    old: u32,
    from: u32,
) -> Result<usize, OutOfMemory>
    requires { AreAlive pieces.now place alive.old.items old }
    ensures { IfOk result (λ next. AreAlive pieces.now next alive.new.items from) }
{
    let mut next = resumed(alive, place, old, from);
    while is_passed(pieces, next, from) {
        push_alive(alive, pieces[next], from)?;
        next += 1;
    }
    Ok(next)
}

/// Appends what two pieces have in common.
fn push_both(out: &mut Vec<Piece>, p: Piece, q: Piece) -> Result<(), OutOfMemory>
    ensures { OnOk result ((x : ℕ) → times out.new.items x ≡
        times out.old.items x + one (in_piece p x && in_piece q x)) }
{
    match p.common(q.run) {
        Some(both) => {
            push_outside_hole(out, both, q.hole)?;
            Ok(())
        }
        None => Ok(()),
    }
}

/// Appends what the piece and those of the list from a place on have in common.
fn push_common(
    out: &mut Vec<Piece>,
    p: Piece,
    others: &[Piece],
    place: usize,
    ascending: bool,
) -> Result<(), OutOfMemory>
    requires { IsTrue ascending → Ascends others.now }
    ensures { OnOk result ((x : ℕ) → times out.new.items x ≡
        times out.old.items x + one (in_piece p x) * times (drop place others.now) x) }
{
    for i in place..others.len() {
        if ascending && p.run.high < others[i].run.low {
            return Ok(());
        }
        push_both(out, p, others[i])?;
    }
    Ok(())
}

/// What the two lists have in common.
pub fn common(alloc: Global, pieces: &[Piece], others: &[Piece]) -> Result<Vec<Piece>, OutOfMemory>
    ensures { IfOk result (λ v. (x : ℕ) →
        times v.items x ≡ times pieces.now x * times others.now x) }
{
    let mut out = Vec::new(alloc);
    let ascending = ascend(others);
    let mut alive = Vec::new(alloc);
    let mut place = 0;
    let mut low = 0;
    for p in pieces {
        place = next_place(&mut alive, others, place, low, p.run.low)?;
        low = p.run.low;
        push_common(&mut out, *p, &alive, 0, false)?;
        push_common(&mut out, *p, others, place, ascending)?;
    }
    put_in_order(&mut out);
    Ok(out)
}

/// How many numbers the piece and those of the list have in common.
fn count_shared(p: Piece, others: &[Piece]) -> u64
    requires { IsApart others.now }
    ensures { result ≡ total (λ x. one (in_piece p x) * times others.now x) (2 ^ 32) }
{
    let mut count = 0;
    for q in others {
        count += count_both(p, *q);
    }
    count
}

/// How many numbers the two lists have in common.
pub fn count_common(pieces: &[Piece], others: &[Piece]) -> u64
    requires apart { IsApart pieces.now }
    requires others { IsApart others.now }
    ensures { result ≡ total (λ x. times pieces.now x * times others.now x) (2 ^ 32) }
{
    let mut count = 0;
    for p in pieces {
        count += count_shared(*p, others);
    }
    count
}

/// What the piece leaves of the list.
fn without(alloc: Global, pieces: &[Piece], q: Piece) -> Result<Vec<Piece>, OutOfMemory>
    ensures { IfOk result (λ v. (x : ℕ) →
        times v.items x ≡ (if in_piece q x then 0 else times pieces.now x)) }
{
    let mut out = Vec::new(alloc);
    for p in pieces {
        push_less(&mut out, *p, q)?;
    }
    Ok(out)
}

/// What the list leaves of the piece.
fn left_of(alloc: Global, p: Piece, others: &[Piece]) -> Result<Vec<Piece>, OutOfMemory>
    ensures { IfOk result (λ v. (x : ℕ) →
        times v.items x ≡ (if holds others.now x then 0 else one (in_piece p x))) }
{
    let mut left = Vec::new(alloc);
    left.push(p)?;
    for q in others {
        left = without(alloc, &left, *q)?;
    }
    Ok(left)
}

/// Appends what the second piece leaves of the first: to what is done, if the first ends before the second begins and
/// those that follow the second ascend, or else to the rest.
fn push_part(
    done: &mut Vec<Piece>,
    rest: &mut Vec<Piece>,
    p: Piece,
    q: Piece,
    ascending: bool,
) -> Result<(), OutOfMemory>
    ensures all { OnOk result ((x : ℕ) → times done.new.items x + times rest.new.items x ≡
        times done.old.items x + times rest.old.items x + one (in_piece p x && not (in_piece q x))) }
    ensures before { OnOk result ((x : ℕ) → (IsTrue ascending → q.run.low ≤ x) →
        times done.new.items x ≡ times done.old.items x) }
    ensures within { OnOk result ((x : ℕ) →
        times rest.new.items x ≤ times rest.old.items x + one (in_piece p x)) }
{
    if ascending && p.run.high < q.run.low {
        push_piece(done, Some(p))?;
        return Ok(());
    }
    push_less(rest, p, q)
}

/// What the piece leaves of the list, but for those that end before it begins, if those that follow it ascend: these
/// are done, and appended to the first list.
fn left_behind(
    done: &mut Vec<Piece>,
    alloc: Global,
    pieces: &[Piece],
    q: Piece,
    ascending: bool,
) -> Result<Vec<Piece>, OutOfMemory>
    ensures all { IfOk result (λ v. (x : ℕ) → times done.new.items x + times v.items x ≡
        times done.old.items x + (if in_piece q x then 0 else times pieces.now x)) }
    ensures before { OnOk result ((x : ℕ) → (IsTrue ascending → q.run.low ≤ x) →
        times done.new.items x ≡ times done.old.items x) }
    ensures within { IfOk result (λ v. (x : ℕ) → times v.items x ≤ times pieces.now x) }
{
    let mut rest = Vec::new(alloc);
    for p in pieces {
        push_part(done, &mut rest, *p, q, ascending)?;
    }
    Ok(rest)
}

/// Appends the pieces.
fn push_all(out: &mut Vec<Piece>, pieces: &[Piece]) -> Result<(), OutOfMemory>
    ensures { OnOk result ((x : ℕ) →
        times out.new.items x ≡ times out.old.items x + times pieces.now x) }
{
    for p in pieces {
        push_piece(out, Some(*p))?;
    }
    Ok(())
}

/// Appends what the pieces of the list from a place on leave of a first list, which is a part of the piece.
fn push_left(
    out: &mut Vec<Piece>,
    alloc: Global,
    first: Vec<Piece>,
    p: Piece,
    others: &[Piece],
    place: usize,
    ascending: bool,
) -> Result<(), OutOfMemory>
    requires ascending { IsTrue ascending → Ascends others.now }
    requires within { (x : ℕ) → times first.items x ≤ one (in_piece p x) }
    ensures { OnOk result ((x : ℕ) → times out.new.items x ≡
        times out.old.items x + (if holds (drop place others.now) x then 0 else times first.items x)) }
{
    let mut left = first;
    for i in place..others.len() {
        if ascending && p.run.high < others[i].run.low {
            push_all(out, &left)?;
            return Ok(());
        }
        left = left_behind(out, alloc, &left, others[i], ascending)?;
    }
    push_all(out, &left)?;
    Ok(())
}

/// What the second list leaves of the first.
pub fn minus(alloc: Global, pieces: &[Piece], others: &[Piece]) -> Result<Vec<Piece>, OutOfMemory>
    ensures { IfOk result (λ v. (x : ℕ) →
        times v.items x ≡ (if holds others.now x then 0 else times pieces.now x)) }
{
    let mut out = Vec::new(alloc);
    let ascending = ascend(others);
    let mut alive = Vec::new(alloc);
    let mut place = 0;
    let mut low = 0;
    for p in pieces {
        place = next_place(&mut alive, others, place, low, p.run.low)?;
        low = p.run.low;
        let left = left_of(alloc, *p, &alive)?;
        push_left(&mut out, alloc, left, *p, others, place, ascending)?;
    }
    put_in_order(&mut out);
    Ok(out)
}

/// Whether the two lists hold the same numbers.
pub fn are_same(pieces: &[Piece], others: &[Piece]) -> bool
    requires apart { IsApart pieces.now }
    requires others { IsApart others.now }
    ensures { IsTrue result ↔ ((x : ℕ) → x < 2 ^ 32 → times pieces.now x ≡ times others.now x) }
{
    if pieces == others {
        return true;
    }
    let size = count_below(pieces, END);
    size == count_below(others, END) && size == count_common(pieces, others)
}

/// The numbers of the first list, and those of the second one that it lacks.
pub fn either(alloc: Global, pieces: &[Piece], others: &[Piece]) -> Result<Vec<Piece>, OutOfMemory>
    ensures { IfOk result (λ v. (x : ℕ) →
        times v.items x ≡ (if holds pieces.now x then times pieces.now x else times others.now x)) }
{
    let mut out = minus(alloc, others, pieces)?;
    push_all(&mut out, pieces)?;
    put_in_order(&mut out);
    Ok(out)
}

/// The numbers of the pieces, each once.
fn united(alloc: Global, pieces: &[Piece]) -> Result<Vec<Piece>, OutOfMemory>
    ensures { IfOk result (λ v. (x : ℕ) → times v.items x ≡ one (holds pieces.now x)) }
{
    if pieces.len() < 2 {
        let all = Vec::from_slice(alloc, pieces)?;
        return Ok(all);
    }
    let (front, back) = pieces.split_at(pieces.len() / 2);
    let first = united(alloc, front)?;
    let second = united(alloc, back)?;
    let both = either(alloc, &first, &second)?;
    Ok(both)
}

/// The piece of each pattern that some number matches.
fn pieces_matching(alloc: Global, patterns: &[(u32, u32)]) -> Result<Vec<Piece>, OutOfMemory>
    ensures { IfOk result (λ v. (x : ℕ) → x < 2 ^ 32 → holds v.items x ≡ is_matching patterns.now x) }
{
    let mut out = Vec::new(alloc);
    for pattern in patterns {
        push_run(&mut out, Run::matching(pattern.0, pattern.1))?;
    }
    Ok(out)
}

/// The numbers that match one of the patterns, each a mask and the bits under it.
pub fn matching(alloc: Global, patterns: &[(u32, u32)]) -> Result<Vec<Piece>, OutOfMemory>
    ensures apart { IfOk result (λ v. IsApart v.items) }
    ensures held { IfOk result (λ v. (x : ℕ) → x < 2 ^ 32 →
        holds v.items x ≡ is_matching patterns.now x) }
{
    let pieces = pieces_matching(alloc, patterns)?;
    let apart = united(alloc, &pieces)?;
    Ok(apart)
}
