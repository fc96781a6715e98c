// The atoms of a line.
ghost use Rattle.std.specs.Prelude.{◌≡◌, ◌≤◌, false, length, map, IfOk};
ghost use Rattle.std.specs.List.{list_any};
ghost use Rattle.tpl_lang.specs.Faults.{is_atom_above, is_wish_above};
ghost use Rattle.tpl_lang.specs.Statements.{atom_of, wish_of};
ghost use Rattle.tpl_state.specs.Internal.State.{known};
ghost use Rattle.tpl_token.specs.Internal.Phrases.{atom_view, wish_view, wishes_view};
ghost use Rattle.tpl_ast.specs.Limits.{most_names};

use crate::sets::domain_of;
use dom_set::OutOfMemory;
use std::alloc::Global;
use tpl_ast::{Atom, Wish};
use tpl_state::State;
use tpl_token::{AtomText, WishText};

fn atom_of(alloc: Global, state: &State, atom: &AtomText<'_>) -> Result<Atom, OutOfMemory>
    requires fine { is_atom_above (atom_view atom.now) ≡ false }
    requires few { length (known state.now).names ≤ most_names }
    ensures { IfOk result (λ a. a ≡ atom_of (known state.now) (atom_view atom.now)) }
{
    match atom {
        AtomText::Among(var, domain) => {
            let set = domain_of(alloc, &state.sets, *var, domain)?;
            Ok(Atom::In(*var, set))
        }
        AtomText::NotAmong(var, domain) => {
            let set = domain_of(alloc, &state.sets, *var, domain)?;
            Ok(Atom::NotIn(*var, set))
        }
        AtomText::IsName(var, name) => Ok(Atom::Is(*var, state.names.index_of(name))),
        AtomText::Same(var, other) => Ok(Atom::Same(*var, *other)),
        AtomText::Differ(var, other) => Ok(Atom::Differ(*var, *other)),
        AtomText::Taken => Ok(Atom::Taken),
        AtomText::NotTaken => Ok(Atom::NotTaken),
        AtomText::Shared => Ok(Atom::Shared),
    }
}

fn wish_of(alloc: Global, state: &State, wish: &WishText<'_>) -> Result<Wish, OutOfMemory>
    requires fine { is_wish_above (wish_view wish.now) ≡ false }
    requires few { length (known state.now).names ≤ most_names }
    ensures { IfOk result (λ w. w ≡ wish_of (known state.now) (wish_view wish.now)) }
{
    let atom = atom_of(alloc, state, &wish.atom)?;
    Ok(Wish {
        atom,
        prefer: wish.prefer,
    })
}

/// The atoms of a line, with sets and names looked up.
pub fn wishes_of(
    alloc: Global,
    state: &State,
    wishes: &[WishText<'_>],
) -> Result<Vec<Wish>, OutOfMemory>
    requires fine { list_any is_wish_above (wishes_view wishes.now) ≡ false }
    requires few { length (known state.now).names ≤ most_names }
    ensures { IfOk result (λ v. v.items ≡ map (wish_of (known state.now)) (wishes_view wishes.now)) }
{
    let mut found = Vec::new(alloc);
    for wish in wishes {
        let wish = wish_of(alloc, state, wish)?;
        found.push(wish)?;
    }
    Ok(found)
}
