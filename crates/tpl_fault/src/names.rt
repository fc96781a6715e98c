// Names that are declared before, and words and names that aren't known.
ghost use Rattle.std.specs.Prelude.{◌≡◌};
ghost use Rattle.std.specs.List.{list_any};
ghost use Rattle.tpl_lang.specs.Faults.{is_atom_unknown, is_domain_unknown, is_double, is_set_unknown, is_unknown};
ghost use Rattle.tpl_lang.specs.Known.{is_declared};
ghost use Rattle.tpl_state.specs.Internal.State.{known};
ghost use Rattle.tpl_token.specs.Internal.Phrases.{atom_view, domain_view, phrase, set_view, wishes_view};

use tpl_ast::Var;
use tpl_judge::is_any_word_unknown;
use tpl_lang::csr_of;
use tpl_state::State;
use tpl_token::{AtomText, DomainText, SetText, Statement, WishText};

/// Whether a set, a name or a label has the name.
pub fn is_declared(state: &State, name: &[u8]) -> bool
    ensures { result ≡ is_declared (known state.now) name.now }
{
    state.sets.find(name).is_some() || state.names.has(name)
}

fn is_set_unknown(state: &State, set: &SetText<'_>) -> bool
    ensures { result ≡ is_set_unknown (known state.now) (set_view set.now) }
{
    match set {
        SetText::Named(name) => state.sets.find(name).is_none(),
        SetText::Listed(_, _) => false,
    }
}

fn is_domain_unknown(state: &State, var: Var, domain: &DomainText<'_>) -> bool
    ensures { result ≡ is_domain_unknown (known state.now) var (domain_view domain.now) }
{
    match domain {
        DomainText::Numbers(set) => is_set_unknown(state, set),
        DomainText::Words(words) => is_any_word_unknown(var, words),
        DomainText::Outcomes(_) => false,
    }
}

fn is_atom_unknown(state: &State, atom: &AtomText<'_>) -> bool
    ensures { result ≡ is_atom_unknown (known state.now) (atom_view atom.now) }
{
    match atom {
        AtomText::Among(var, domain) => is_domain_unknown(state, *var, domain),
        AtomText::NotAmong(var, domain) => is_domain_unknown(state, *var, domain),
        AtomText::IsName(_, name) => !state.names.has(name),
        _ => false,
    }
}

fn is_any_wish_unknown(state: &State, wishes: &[WishText<'_>]) -> bool
    ensures { result ≡ list_any (λ w. is_atom_unknown (known state.now) w.atom) (wishes_view wishes.now) }
{
    for wish in wishes {
        if is_atom_unknown(state, &wish.atom) {
            return true;
        }
    }
    false
}

/// Whether a statement uses a set, a name, a label, an operation or a CSR that isn't known.
pub fn is_unknown(state: &State, statement: &Statement<'_>) -> bool
    ensures { result ≡ is_unknown (known state.now) (phrase statement.now) }
{
    match statement {
        Statement::Vectors(set) => is_set_unknown(state, set),
        Statement::Set(_, set) => is_set_unknown(state, set),
        Statement::Name(_, set) => is_set_unknown(state, set),
        Statement::Csr(name, _) => csr_of(name).is_none(),
        Statement::Do(wishes) => is_any_wish_unknown(state, wishes),
        _ => false,
    }
}

/// Whether a statement declares what was declared before.
pub fn is_double(state: &State, statement: &Statement<'_>) -> bool
    ensures { result ≡ is_double (known state.now) (phrase statement.now) }
{
    match statement {
        Statement::Set(name, _) => is_declared(state, name),
        Statement::Name(name, _) => is_declared(state, name),
        Statement::Label(name) => is_declared(state, name),
        _ => false,
    }
}
