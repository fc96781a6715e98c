// Where steps begin and end, and which of their numbers is the next.
ghost use Rattle.std.specs.Prelude.{◌+◌, ◌^◌, ◌<◌, ◌≤◌};
ghost use Rattle.near_marks.specs.Internal.Near.{IsAroundSteps, IsNext};

use crate::steps::{Steps, step};

/// The first number from the given one up that is a multiple of 2^shift from the lowest.
pub fn next_on(low: u64, shift: u32, from: u64) -> u64
    requires within { shift < 32 }
    requires fits { from < 2 ^ 40 }
    ensures { IsNext low shift from result }
{
    if from <= low {
        return low;
    }
    let step = step(shift);
    let past = (from - low) & (step - 1);
    if past == 0 {
        from
    } else {
        from + (step - past)
    }
}

/// A range around all steps.
pub fn hull(all: &[Steps]) -> (u64, u64)
    ensures around { IsAroundSteps all.now result }
    ensures bound { result.1 ≤ 2 ^ 32 + 2048 }
{
    let mut low = u64::MAX;
    let mut high = 0;
    for steps in all {
        low = low.min(steps.low);
        high = high.max(steps.high);
    }
    (low, high)
}
