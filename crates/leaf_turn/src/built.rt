// What the atoms of leaves let through and bar.
ghost use Rattle.std.specs.Prelude.{◌≡◌};
ghost use Rattle.std.specs.List.{list_any};
ghost use Rattle.leaf_turn.specs.Built.{LeavesWithAccessesArePosable, all_let, lets, lets_data, may_be_data};

use leaf_pose::{is_data, same_var};
use rv_isa::{OPS, Op};
use tpl_ast::{Atom, Var, Wish};

/// Whether an atom lets a variable have a value. Only its sets are looked at.
fn lets(atom: &Atom, var: Var, value: u32) -> bool
    ensures { result ≡ lets atom.now var value }
{
    match atom {
        Atom::In(of, set) if same_var(*of, var) => set.has(value),
        Atom::NotIn(of, set) if same_var(*of, var) => !set.has(value),
        _ => true,
    }
}

/// Whether all atoms that have to hold do.
fn all_let(wishes: &[Wish], var: Var, value: u32) -> bool
    ensures { result ≡ all_let wishes.now var value }
{
    for wish in wishes {
        if !wish.prefer && !lets(&wish.atom, var, value) {
            return false;
        }
    }
    true
}

/// Whether an operation is a load or store, and the atoms that have to hold let it through.
fn may_be_data(wishes: &[Wish], op: Op) -> bool
    ensures { result ≡ may_be_data wishes.now op }
{
    is_data(op) && all_let(wishes, Var::Op, u32::from(op.number()))
}

/// Whether the atoms that have to hold let one of the operations through as a load or store.
fn some_is_data(wishes: &[Wish], ops: &[Op]) -> bool
    ensures { result ≡ list_any (may_be_data wishes.now) ops.now }
{
    for op in ops {
        if may_be_data(wishes, *op) {
            return true;
        }
    }
    false
}

/// Whether the atoms of a leaf that have to hold let some load or store through.
pub fn lets_data(wishes: &[Wish]) -> bool
    ensures { result ≡ lets_data wishes.now }
{
    some_is_data(wishes, &OPS)
}

/// Does nothing. Its contract says that the atoms of a leaf can be posed wherever a hart stands, where it is told what loads
/// and stores may do if they let some through.
pub fn leaves_with_accesses_are_posable()
    ensures { LeavesWithAccessesArePosable }
{}
