// The values of domains.
ghost use Rattle.std.specs.Prelude.{◌≡◌, false, IfOk};
ghost use Rattle.tpl_lang.specs.Faults.{is_domain_above};
ghost use Rattle.tpl_lang.specs.Sets.{domain_of};
ghost use Rattle.tpl_token.specs.Internal.Phrases.{domain_view};

use dom_set::{OutOfMemory, Set};
use std::alloc::Global;
use tpl_ast::Var;
use tpl_judge::{align_law, causes, resolve, word_points};
use tpl_state::Sets;
use tpl_token::DomainText;

/// The values that a variable is among.
pub fn domain_of(
    alloc: Global,
    sets: &Sets,
    var: Var,
    domain: &DomainText<'_>,
) -> Result<Set, OutOfMemory>
    requires { is_domain_above var (domain_view domain.now) ≡ false }
    ensures { IfOk result (λ s. s ≡ domain_of sets.now var (domain_view domain.now)) }
{
    align_law();
    match domain {
        DomainText::Numbers(set) => resolve(alloc, sets, set),
        DomainText::Words(words) => {
            let points = word_points(alloc, var, words)?;
            Set::from_ranges(alloc, &points, 1)
        }
        DomainText::Outcomes(outcomes) => causes(alloc, outcomes),
    }
}
