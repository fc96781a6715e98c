// Tracks around the numbers of pieces.
ghost use Rattle.std.specs.Prelude.{◌≡◌, ℕ, ◌%◌, ◌^◌, ◌<◌, ◌≤◌, true, false, OnOk, IfOk};
ghost use Rattle.set_pieces.specs.Ends.{AreEnds};
ghost use Rattle.set_pieces.specs.Internal.Patterns.{matches};
ghost use Rattle.set_pieces.specs.Internal.Pieces.{holds, in_piece};
ghost use Rattle.set_pieces.specs.Internal.Runs.{in_run, is_in_run};
ghost use Rattle.dom_set.specs.Tracks.{is_on, is_on_one, AreKept};

use crate::track::Track;
use set_pieces::{OutOfMemory, Pattern, Piece, Run};
use std::alloc::Global;

/// So many low bits are the same for all numbers that match the pattern.
fn shift_of(pattern: Pattern) -> u32
    ensures within { result < 32 }
    ensures same { (x : ℕ) → matches pattern x ≡ true → x % 2 ^ result ≡ pattern.bits % 2 ^ result }
{
    pattern.mask.trailing_ones().min(31)
}

/// The track from the first to the last number of the run.
fn track_of(run: Run, low: u32, high: u32) -> Track
    requires { AreEnds (in_run run) (low, high) }
    ensures { (x : ℕ) → in_run run x ≡ true → low ≤ x → x ≤ high → is_on result x ≡ true }
{
    // A single number has no neighbour, whatever the distance.
    if low == high {
        return Track {
            low,
            high,
            shift: 31,
        };
    }
    Track {
        low,
        high,
        shift: shift_of(run.pattern),
    }
}

/// Adds the track from the first to the last number of the run, if there is one.
fn push_track(tracks: &mut Vec<Track>, run: Option<Run>) -> Result<(), OutOfMemory>
    ensures covered { OnOk result ((x : ℕ) → is_in_run run x ≡ true → is_on_one tracks.new.items x ≡ true) }
    ensures kept { OnOk result (AreKept tracks.old.items tracks.new.items) }
{
    let Some(run) = run else {
        return Ok(());
    };
    let Some((low, high)) = run.span() else {
        return Ok(());
    };
    tracks.push(track_of(run, low, high))?;
    Ok(())
}

/// Adds tracks around the run's numbers, if there is one: two where its pattern has a bit above one that it lacks.
fn push_run_tracks(tracks: &mut Vec<Track>, run: Option<Run>) -> Result<(), OutOfMemory>
    ensures covered { OnOk result ((x : ℕ) → is_in_run run x ≡ true → is_on_one tracks.new.items x ≡ true) }
    ensures kept { OnOk result (AreKept tracks.old.items tracks.new.items) }
{
    let Some(run) = run else {
        return Ok(());
    };
    match run.pattern.halves() {
        Some((first, second)) => {
            push_track(tracks, run.matched(first))?;
            push_track(tracks, run.matched(second))?;
            Ok(())
        }
        None => push_track(tracks, Some(run)),
    }
}

/// Adds the track of the numbers from the first one up to the end, if there are any.
fn push_range(tracks: &mut Vec<Track>, first: u64, end: u64) -> Result<(), OutOfMemory>
    requires { end ≤ 2 ^ 32 }
    ensures covered { OnOk result ((x : ℕ) → first ≤ x → x < end → is_on_one tracks.new.items x ≡ true) }
    ensures kept { OnOk result (AreKept tracks.old.items tracks.new.items) }
{
    if first >= end {
        return Ok(());
    }
    let low = first as u32;
    let high = (end - 1) as u32;
    // A single number has no neighbour, whatever the distance.
    let shift = if low == high { 31 } else { 0 };
    tracks.push(Track { low, high, shift })?;
    Ok(())
}

/// Adds tracks around the numbers from the lowest to the highest one that the pattern doesn't match: a range between each
/// two that it does.
fn push_ranges(
    tracks: &mut Vec<Track>,
    hole: Pattern,
    low: u32,
    high: u32,
) -> Result<(), OutOfMemory>
    ensures covered { OnOk result ((x : ℕ) → low ≤ x → x ≤ high → matches hole x ≡ false → is_on_one tracks.new.items x ≡ true) }
    ensures kept { OnOk result (AreKept tracks.old.items tracks.new.items) }
{
    let end = u64::from(high) + 1;
    let mut from = u64::from(low);
    while from < end {
        let next = hole.next_from(from).min(end);
        push_range(tracks, from, next)?;
        from = next + 1;
    }
    Ok(())
}

/// Whether the run is a range and the hole leaves out so few of its numbers that they make fewer ranges than it has bits.
fn is_cut_rarely(run: Run, hole: Pattern, low: u32, high: u32) -> bool {
    let below = hole.count_below(u64::from(low));
    let cuts = hole.count_below(u64::from(high) + 1).saturating_sub(below);
    run.pattern.mask == 0 && cuts < u64::from(hole.mask.trailing_ones())
}

/// Adds tracks around the run's numbers that the pattern doesn't match, bit by bit: around those that have its bits below
/// one, and not that one.
fn push_bits(tracks: &mut Vec<Track>, run: Run, hole: Pattern) -> Result<(), OutOfMemory>
    ensures covered { OnOk result ((x : ℕ) → in_run run x ≡ true → matches hole x ≡ false → is_on_one tracks.new.items x ≡ true) }
    ensures kept { OnOk result (AreKept tracks.old.items tracks.new.items) }
{
    hole.ends();
    for bit in 0..32 {
        push_run_tracks(tracks, run.missed(hole, bit))?;
    }
    Ok(())
}

/// Adds tracks around the run's numbers that the pattern doesn't match, as ranges where these are fewer, and else bit by bit.
fn push_holed_tracks(tracks: &mut Vec<Track>, run: Run, hole: Pattern) -> Result<(), OutOfMemory>
    ensures covered { OnOk result ((x : ℕ) → in_run run x ≡ true → matches hole x ≡ false → is_on_one tracks.new.items x ≡ true) }
    ensures kept { OnOk result (AreKept tracks.old.items tracks.new.items) }
{
    let Some((low, high)) = run.span() else {
        return Ok(());
    };
    if is_cut_rarely(run, hole, low, high) {
        return push_ranges(tracks, hole, low, high);
    }
    push_bits(tracks, run, hole)
}

/// Adds tracks around the numbers of a piece.
fn push_tracks(tracks: &mut Vec<Track>, p: Piece) -> Result<(), OutOfMemory>
    ensures covered { OnOk result ((x : ℕ) → in_piece p x ≡ true → is_on_one tracks.new.items x ≡ true) }
    ensures kept { OnOk result (AreKept tracks.old.items tracks.new.items) }
{
    match p.hole {
        Some(hole) => {
            push_holed_tracks(tracks, p.run, hole)?;
            Ok(())
        }
        None => {
            push_run_tracks(tracks, Some(p.run))?;
            Ok(())
        }
    }
}

/// Tracks that hold all numbers of the pieces, and perhaps more.
pub fn tracks(alloc: Global, pieces: &[Piece]) -> Result<Vec<Track>, OutOfMemory>
    ensures { IfOk result (λ tracks. (x : ℕ) → holds pieces.now x ≡ true → is_on_one tracks.items x ≡ true) }
{
    let mut tracks = Vec::new(alloc);
    for p in pieces {
        push_tracks(&mut tracks, *p)?;
    }
    Ok(tracks)
}
