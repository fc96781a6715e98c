// The order of values and of assignments, upwards from pivots and round to them again.
ghost use Rattle.std.specs.Prelude.{◌≡◌, ◌<◌, ◌⊎◌, ◌^◌, IfSome, MatchBool};
ghost use Rattle.fd_prob.specs.Order.{rank};
ghost use Rattle.case_search.specs.Search.{AreSame, Before, IsLesser, IsNext};

use crate::place::slot_at;
use dom_set::Set;
use fd_prob::Assignment;

/// How far the value stands above the pivot.
pub fn rank(pivot: u32, value: u32) -> u32
    ensures rank { result ≡ rank pivot value }
    ensures pivot { pivot < 2 ^ 32 }
    ensures value { value < 2 ^ 32 }
{
    value.wrapping_sub(pivot)
}

/// The element with the least rank from the pivot of those that have the rank `k` and more.
pub fn next_from(set: &Set, pivot: u32, k: u64) -> Option<u32>
    ensures { IsNext set.now pivot k result }
{
    set.element_laws();
    let Ok(k) = u32::try_from(k) else {
        return None;
    };
    let value = set.first_from(pivot.wrapping_add(k))?;
    if k <= rank(pivot, value) {
        Some(value)
    } else {
        None
    }
}

/// Whether `x` comes before `y`; else it comes after `y`, or both have the same values.
pub fn is_before(pivots: &[u32; 14], x: &Assignment, y: &Assignment) -> bool
    ensures { MatchBool result (Before pivots.now x.now y.now) (Before pivots.now y.now x.now ⊎ AreSame y.now x.now) }
{
    for i in 0..14 {
        let (a, b) = (x.values[i], y.values[i]);
        if a != b {
            return rank(pivots[i], a) < rank(pivots[i], b);
        }
    }
    false
}

/// The one of the two that comes first in the order of the pivots, or the one that is there.
pub fn lesser(
    pivots: &[u32; 14],
    best: Option<Assignment>,
    other: Option<Assignment>,
) -> Option<Assignment>
    ensures { IsLesser pivots.now best other result }
{
    match (best, other) {
        (None, other) => other,
        (best, None) => best,
        (Some(x), Some(y)) => {
            if is_before(pivots, &y, &x) {
                Some(y)
            } else {
                Some(x)
            }
        }
    }
}
