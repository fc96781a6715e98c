// Frames of 4,096 bytes, by their first bytes.
ghost use Rattle.std.specs.Prelude.{◌≡◌, ℕ, ◌/◌, ◌%◌, ◌||◌, nat_eq, IfOk, OnOk};
ghost use Rattle.std.specs.List.{list_any};
ghost use Rattle.data_bytes.specs.Sets.{IsSetOf};
ghost use Rattle.rv_mem.specs.Frames.{in_frames};
ghost use Rattle.data_bytes.specs.Frames.{in_frames_from, AreFrames};

use crate::error::OutOfMemory;
use dom_set::Set;
use std::alloc::Global;

/// Appends a frame, unless it is the last one.
fn push_frame(frames: &mut Vec<u32>, frame: u32) -> Result<(), OutOfMemory>
    requires frames { AreFrames frames.old.items }
    requires frame { frame % 4096 ≡ 0 }
    ensures held { OnOk result ((v : ℕ) → in_frames frames.new.items v ≡ (in_frames frames.old.items v || nat_eq (v / 4096) (frame / 4096))) }
    ensures frames { OnOk result (AreFrames frames.new.items) }
{
    if let Some(last) = frames.pop() {
        if last != frame {
            frames.push(last)?;
        }
    }
    frames.push(frame)?;
    Ok(())
}

/// Appends the frames of a run of bytes.
fn push_frames(frames: &mut Vec<u32>, run: (u32, u32)) -> Result<(), OutOfMemory>
    requires { AreFrames frames.old.items }
    ensures held { OnOk result ((v : ℕ) → in_frames frames.new.items v ≡ (in_frames frames.old.items v || in_frames_from run v)) }
    ensures frames { OnOk result (AreFrames frames.new.items) }
{
    for number in run.0 / 4096..run.1 / 4096 + 1 {
        push_frame(frames, number * 4096)?;
    }
    Ok(())
}

/// The frames of runs, each by its first byte and its last, and those of the pool; perhaps more than once.
pub fn frames_of(alloc: Global, runs: &[(u32, u32)], pool: &[u32]) -> Result<Vec<u32>, OutOfMemory>
    requires { AreFrames pool.now }
    ensures held { IfOk result (λ frames. (v : ℕ) →
        in_frames frames.items v ≡ (list_any (λ run. in_frames_from run v) runs.now || in_frames pool.now v)) }
    ensures frames { IfOk result (λ frames. AreFrames frames.items) }
{
    let mut frames = Vec::new(alloc);
    for run in runs {
        push_frames(&mut frames, *run)?;
    }
    frames.extend_from_slice(pool)?;
    Ok(frames)
}

/// The bytes of frames.
pub fn frame_bytes(alloc: Global, frames: &[u32]) -> Result<Set, OutOfMemory>
    requires { AreFrames frames.now }
    ensures { IfOk result (IsSetOf (in_frames frames.now)) }
{
    let mut runs = Vec::new(alloc);
    for frame in frames {
        runs.push((*frame, *frame + 4095))?;
    }
    Ok(Set::from_ranges(alloc, &runs, 1)?)
}
