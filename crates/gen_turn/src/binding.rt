// The names of a leaf.
ghost use Rattle.std.specs.Prelude.{◌≡◌, ◌<◌, ◌≤◌, ◌+◌, ◌-◌, ◌^◌, ◌&&◌, true, length, OnOk, OnErr, slice_index_or, None};
ghost use Rattle.std.specs.List.{list_all};
ghost use Rattle.tpl_ast.specs.Leaves.{atoms_of, is_name_below};
ghost use Rattle.tpl_admit.specs.Internal.Moments.{moment};
ghost use Rattle.tpl_admit.specs.Variables.{value_of};
ghost use Rattle.part_state.specs.State.{here};
ghost use Rattle.leaf_turn.specs.Answers.{AreKept};
ghost use Rattle.gen_turn.specs.Turns.{bound_by_wish, bound_with, is_listed, names_bound, next_bias, with_name, with_names};

use leaf_turn::OutOfMemory;
use part_state::Part;
use tpl_admit::Moment;
use tpl_ast::{Atom, Wish};

/// Gives a name without a value one, where there is one. A refusal changes nothing.
pub fn bind_name(part: &mut Part, name: u32, value: Option<u32>) -> Result<(), OutOfMemory>
    requires { name < length part.old.now.names }
    ensures now { OnOk result (here part.new ≡ with_names (with_name name value part.old.now.names) (here part.old)) }
    ensures kept { AreKept part.old part.new }
    ensures refused { OnErr result (part.new ≡ part.old) }
{
    match value {
        None => Ok(()),
        Some(value) => match part.name(name) {
            Some(_) => Ok(()),
            None => Ok(part.bind(name, value)?),
        },
    }
}

/// Binds the name of an atom to the value of its variable.
fn bind_atom(part: &mut Part, at: &Moment, atom: &Atom) -> Result<(), OutOfMemory>
    requires { is_name_below (length part.old.now.names) atom.now ≡ true }
    ensures now { OnOk result (here part.new ≡ with_names (bound_with (λ v. value_of v (moment at.now)) atom.now part.old.now.names) (here part.old)) }
    ensures kept { AreKept part.old part.new }
{
    match atom {
        Atom::Is(var, name) => bind_name(part, *name, at.value(*var)),
        Atom::In(_, _)
        | Atom::NotIn(_, _)
        | Atom::Same(_, _)
        | Atom::Differ(_, _)
        | Atom::Taken
        | Atom::NotTaken
        | Atom::Shared => Ok(()),
    }
}

/// Whether the bias with a number among the biases is listed.
fn is_listed(dropped: &[(u32, bool)], bias: usize) -> bool
    ensures { result ≡ is_listed dropped.now bias }
{
    dropped.iter().any(|listed| listed.0 as usize == bias)
}

/// Binds the name of an atom that has to hold, or of a bias that is kept; it would have the given number among the biases.
fn bind_wish(
    part: &mut Part,
    at: &Moment,
    dropped: &[(u32, bool)],
    bias: usize,
    wish: &Wish,
) -> Result<(), OutOfMemory>
    requires { is_name_below (length part.old.now.names) wish.now.atom ≡ true }
    ensures now { OnOk result (here part.new ≡ with_names (bound_by_wish (λ v. value_of v (moment at.now)) dropped.now bias wish.now part.old.now.names) (here part.old)) }
    ensures kept { AreKept part.old part.new }
{
    if wish.prefer && is_listed(dropped, bias) {
        return Ok(());
    }
    bind_atom(part, at, &wish.atom)
}

/// The number of the next bias behind an atom.
fn next_bias(bias: usize, wish: &Wish) -> usize
    requires { bias < 2 ^ 64 - 1 }
    ensures { result ≡ next_bias bias wish.now }
{
    if wish.prefer { bias + 1 } else { bias }
}

/// Binds the names of the atoms of a leaf that have to hold, and of its biases that are kept, to the values of their
/// variables.
pub fn bind_names(
    part: &mut Part,
    at: &Moment,
    dropped: &[(u32, bool)],
    wishes: &[Wish],
) -> Result<(), OutOfMemory>
    requires { list_all (is_name_below (length part.old.now.names)) (atoms_of wishes.now) ≡ true }
    ensures now { OnOk result (here part.new ≡ with_names (names_bound (λ v. value_of v (moment at.now)) dropped.now 0 wishes.now part.old.now.names) (here part.old)) }
    ensures kept { AreKept part.old part.new }
{
    let mut bias = 0;
    for wish in wishes {
        bind_wish(part, at, dropped, bias, wish)?;
        bias = next_bias(bias, wish);
    }
    Ok(())
}
