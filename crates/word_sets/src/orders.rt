// The two orders of words.
ghost use Rattle.std.specs.Prelude.{◌≡◌, ℕ, ◌^◌, ◌<◌, ◌≤◌, All, IfOk, IfSome, IsTrue};
ghost use Rattle.dom_set.specs.Elements.{is_in};
ghost use Rattle.word_sets.specs.Internal.Orders.{HasEnds, rank};

use dom_set::{OutOfMemory, Set};
use set_sums::{HALF, Span, ends, shifted, words_of};
use std::alloc::Global;

/// How words are compared: each as an unsigned number, or as a signed one.
#[derive(Clone, Copy, Debug, PartialEq, Eq)]
pub enum Order {
    Unsigned,
    Signed,
}

/// Where the elements stand in the order.
fn ranks(alloc: Global, order: Order, set: &Set) -> Result<Set, OutOfMemory>
    requires { All (λ v. v < 2 ^ 32) set.now }
    ensures { IfOk result (λ ranks. (v : ℕ) → IsTrue (is_in set.now v) → IsTrue (is_in ranks (rank order v))) }
{
    match order {
        Order::Unsigned => {
            let ranks = set.copy(alloc)?;
            Ok(ranks)
        }
        Order::Signed => {
            let ranks = shifted(alloc, set, HALF)?;
            Ok(ranks)
        }
    }
}

/// The least and the greatest rank of the elements in the order, unless there is none.
pub fn rank_ends(alloc: Global, order: Order, set: &Set) -> Result<Option<Span>, OutOfMemory>
    ensures { IfOk result (λ found. IfSome found (HasEnds order set.now)) }
{
    if set.size() == 0 {
        return Ok(None);
    }
    let ranks = ranks(alloc, order, set)?;
    Ok(ends(&ranks))
}

/// The words that stand between two ranks in the order, both of them included.
pub fn between(alloc: Global, order: Order, span: Span) -> Result<Set, OutOfMemory>
    ensures { IfOk result (λ set. (v : ℕ) → v < 2 ^ 32 → span.0 ≤ rank order v → rank order v ≤ span.1 → IsTrue (is_in set v)) }
{
    let ranks = words_of(alloc, &[span])?;
    match order {
        Order::Unsigned => Ok(ranks),
        Order::Signed => {
            let words = shifted(alloc, &ranks, HALF)?;
            Ok(words)
        }
    }
}
