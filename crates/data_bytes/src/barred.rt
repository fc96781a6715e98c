// The bytes that an access may not touch, frame by frame.
ghost use Rattle.std.specs.Prelude.{◌≡◌, ℕ, ◌/◌, ◌%◌, ◌^◌, ◌<◌, ◌&&◌, ◌||◌, nat_eq, IfOk};
ghost use Rattle.dom_set.specs.Elements.{is_in};
ghost use Rattle.foot_map.specs.Races.{is_blocked};
ghost use Rattle.data_bytes.specs.Sets.{IsSetOf};
ghost use Rattle.rv_mem.specs.Frames.{in_frames};
ghost use Rattle.data_bytes.specs.Frames.{AreFrames};

use crate::error::OutOfMemory;
use dom_set::Set;
use foot_map::FootMap;
use rv_script::Role;
use std::alloc::Global;

/// The bytes of a frame that an access of a hart in a role may not touch.
fn barred_in(
    alloc: Global,
    feet: &FootMap,
    hart: u8,
    role: Role,
    frame: u32,
) -> Result<Set, OutOfMemory>
    requires { frame % 4096 ≡ 0 }
    ensures { IfOk result (IsSetOf (λ v. nat_eq (v / 4096) (frame / 4096) && is_blocked feet.now hart role v)) }
{
    let free = feet.allowed(alloc, hart, role, frame)?.shift(alloc, frame)?;
    let bytes = Set::from_ranges(alloc, &[(frame, frame + 4095)], 1)?;
    Ok(bytes.minus(alloc, &free)?)
}

/// The elements of either set.
fn joined(alloc: Global, first: Set, second: &Set) -> Result<Set, OutOfMemory>
    ensures { IfOk result (IsSetOf (λ v. is_in first v || is_in second.now v)) }
{
    if second.is_empty() {
        return Ok(first);
    }
    Ok(first.or(alloc, second)?)
}

/// The bytes of frames that an access of a hart in a role may not touch.
pub fn barred(
    alloc: Global,
    feet: &FootMap,
    hart: u8,
    role: Role,
    frames: &[u32],
) -> Result<Set, OutOfMemory>
    requires { AreFrames frames.now }
    ensures { IfOk result (IsSetOf (λ v. in_frames frames.now v && is_blocked feet.now hart role v)) }
{
    let mut barred = Set::new(alloc);
    for frame in frames {
        let here = barred_in(alloc, feet, hart, role, *frame)?;
        barred = joined(alloc, barred, &here)?;
    }
    Ok(barred)
}
