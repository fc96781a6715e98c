// Sets without elements.
ghost use Rattle.std.specs.Prelude.{◌≡◌, false, IfOk};
ghost use Rattle.std.specs.List.{list_any};
ghost use Rattle.tpl_lang.specs.Faults.{is_atom_above, is_domain_above, is_phrase_above, is_wish_above, is_atom_empty, is_domain_empty, is_empty, is_none_of};
ghost use Rattle.tpl_lang.specs.Sets.{fours, resolved};
ghost use Rattle.tpl_judge.specs.Internal.Aligns.{is_misaligned};
ghost use Rattle.tpl_state.specs.Internal.State.{known};
ghost use Rattle.tpl_token.specs.Internal.Phrases.{atom_view, domain_view, phrase, set_view, wishes_view};

use dom_set::OutOfMemory;
use std::alloc::Global;
use tpl_ast::Var;
use tpl_judge::{align_law, fours, resolve};
use tpl_state::State;
use tpl_token::{AtomText, DomainText, SetText, Statement, WishText};

/// Whether a set has no elements.
fn is_set_empty(alloc: Global, state: &State, set: &SetText<'_>) -> Result<bool, OutOfMemory>
    requires { is_misaligned (set_view set.now) ≡ false }
    ensures { IfOk result (λ b. b ≡ is_none_of (resolved (known state.now).sets (set_view set.now))) }
{
    let set = resolve(alloc, &state.sets, set)?;
    Ok(set.size() == 0)
}

/// Whether vectors have no multiple of 4.
fn are_vectors_empty(alloc: Global, state: &State, set: &SetText<'_>) -> Result<bool, OutOfMemory>
    requires { is_misaligned (set_view set.now) ≡ false }
    ensures { IfOk result (λ b. b ≡ is_none_of (fours (resolved (known state.now).sets (set_view set.now)))) }
{
    let set = resolve(alloc, &state.sets, set)?;
    let multiples = fours(alloc, &set)?;
    Ok(multiples.size() == 0)
}

fn is_domain_empty(
    alloc: Global,
    state: &State,
    var: Var,
    domain: &DomainText<'_>,
) -> Result<bool, OutOfMemory>
    requires { is_domain_above var (domain_view domain.now) ≡ false }
    ensures { IfOk result (λ b. b ≡ is_domain_empty (known state.now) (domain_view domain.now)) }
{
    align_law();
    match domain {
        DomainText::Numbers(set) => is_set_empty(alloc, state, set),
        _ => Ok(false),
    }
}

fn is_atom_empty(alloc: Global, state: &State, atom: &AtomText<'_>) -> Result<bool, OutOfMemory>
    requires { is_atom_above (atom_view atom.now) ≡ false }
    ensures { IfOk result (λ b. b ≡ is_atom_empty (known state.now) (atom_view atom.now)) }
{
    match atom {
        AtomText::Among(var, domain) => is_domain_empty(alloc, state, *var, domain),
        AtomText::NotAmong(var, domain) => is_domain_empty(alloc, state, *var, domain),
        _ => Ok(false),
    }
}

fn is_any_wish_empty(
    alloc: Global,
    state: &State,
    wishes: &[WishText<'_>],
) -> Result<bool, OutOfMemory>
    requires { list_any is_wish_above (wishes_view wishes.now) ≡ false }
    ensures { IfOk result (λ b. b ≡ list_any (λ w. is_atom_empty (known state.now) w.atom) (wishes_view wishes.now)) }
{
    for wish in wishes {
        if is_atom_empty(alloc, state, &wish.atom)? {
            return Ok(true);
        }
    }
    Ok(false)
}

/// Whether a statement has a set without elements, or vectors without a multiple of 4.
pub fn is_empty(
    alloc: Global,
    state: &State,
    statement: &Statement<'_>,
) -> Result<bool, OutOfMemory>
    requires { is_phrase_above (phrase statement.now) ≡ false }
    ensures { IfOk result (λ b. b ≡ is_empty (known state.now) (phrase statement.now)) }
{
    align_law();
    match statement {
        Statement::Vectors(set) => are_vectors_empty(alloc, state, set),
        Statement::Set(_, set) => is_set_empty(alloc, state, set),
        Statement::Name(_, set) => is_set_empty(alloc, state, set),
        Statement::Do(wishes) => is_any_wish_empty(alloc, state, wishes),
        _ => Ok(false),
    }
}
