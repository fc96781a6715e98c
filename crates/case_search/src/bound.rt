// Lower bounds of what is of a case.
ghost use Rattle.std.specs.Prelude.{◌≡◌, false, MatchOption};
ghost use Rattle.fd_prob.specs.declared.problem.Assignment.{Assignment};
ghost use Rattle.fd_prob.specs.Fitting.{IsCase};
ghost use Rattle.case_search.specs.Search.{Before, IsBound, IsMadeOf};

use crate::order::is_before;
use crate::place::slot_at;
use fd_prob::{Assignment, Case};

/// For each variable the value of its domain that is nearest above its pivot, unless a domain is empty.
fn bound(case: &Case, pivots: &[u32; 14]) -> Option<Assignment>
    requires { IsCase case.now }
    ensures { MatchOption result ((x : Assignment) → IsMadeOf case.now x → ⊥) (λ b. (x : Assignment) → IsMadeOf case.now x → IsBound pivots.now b x) }
{
    let mut values = [0; 14];
    for i in 0..14 {
        let domain = case.domain(slot_at(i));
        domain.element_laws();
        values[i] = domain.first_from(pivots[i])?;
    }
    Some(Assignment { values })
}

/// Whether an assignment of the case may come before the best one so far. Where it says no, none does, so that the case need
/// not be searched; it looks at the domains alone.
pub fn may_precede(case: &Case, pivots: &[u32; 14], best: &Assignment) -> bool
    requires { IsCase case.now }
    ensures { result ≡ false → (x : Assignment) → IsMadeOf case.now x → Before pivots.now x best.now → ⊥ }
{
    match bound(case, pivots) {
        Some(bound) => !is_before(pivots, best, &bound),
        None => false,
    }
}
