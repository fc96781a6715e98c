// The words that jump into a set.
ghost use Rattle.std.specs.Prelude.{IfOk};
ghost use Rattle.word_sets.specs.Internal.Targets.{HasOddToo};

use dom_set::{OutOfMemory, Set, set_laws};
use std::alloc::Global;

/// The words that are elements when bit 0 is cleared, as jalr does with its sum (Unprivileged, 2.5.1).
pub fn with_odd(alloc: Global, set: &Set) -> Result<Set, OutOfMemory>
    ensures { IfOk result (HasOddToo set.now) }
{
    set_laws();
    let both = set.with_odd(alloc)?;
    Ok(both)
}
