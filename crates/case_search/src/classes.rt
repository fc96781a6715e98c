// Variables that relations make equal, also through others.
ghost use Rattle.std.specs.Prelude.{◌≡◌, ◌<◌, IsTrue, slice_index};
ghost use Rattle.rv_isa.specs.declared.operation.Op.{Op};
ghost use Rattle.fd_narrow.specs.Narrowing.{AllHold};
ghost use Rattle.fd_prob.specs.declared.problem.Assignment.{Assignment};
ghost use Rattle.fd_prob.specs.declared.slot.Slot.TheVariants as slots;
ghost use Rattle.fd_prob.specs.Relations.{holds, is_same};
ghost use Rattle.case_search.specs.Internal.Classes.{AreClasses};

use crate::stronger::some_links;
use fd_prob::{Rel, Slot};

/// For each variable, by its place in the order, the place of the one that stands for its class.
type Classes = [usize; 14];

/// The variables of one class stand in another.
fn merged(classes: &Classes, from: usize, to: usize) -> Classes
    ensures { (x : Assignment) → AreClasses classes.now x → slice_index x.values from ≡ slice_index x.values to → AreClasses result x }
{
    let mut made = *classes;
    for place in 0..14 {
        if made[place] == from {
            made[place] = to;
        }
    }
    made
}

/// Two variables have one class.
fn joined(classes: &Classes, s: Slot, t: Slot) -> Classes
    ensures { (x : Assignment) → AreClasses classes.now x → IsTrue (is_same x s t) → AreClasses result x }
{
    merged(classes, classes[s.number()], classes[t.number()])
}

/// Whether both variables are of one class.
fn are_one(classes: &Classes, s: Slot, t: Slot) -> bool
    ensures { IsTrue result → (x : Assignment) → AreClasses classes.now x → IsTrue (is_same x s t) }
{
    classes[s.number()] == classes[t.number()]
}

/// The classes with what the relation says to be the same.
fn with_rel(classes: &Classes, rel: &Rel) -> Classes
    ensures { (op : Op) (x : Assignment) → AreClasses classes.now x → IsTrue (holds op x rel.now) → AreClasses result x }
{
    match rel {
        Rel::Same(s, t) => joined(classes, *s, *t),
        _ => *classes,
    }
}

/// The classes of the variables that the relations say to be the same.
fn same_classes(rels: &[Rel]) -> Classes
    ensures { (op : Op) (x : Assignment) → AllHold op rels.now x → AreClasses result x }
{
    let mut classes = [0, 1, 2, 3, 4, 5, 6, 7, 8, 9, 10, 11, 12, 13];
    for rel in rels {
        classes = with_rel(&classes, rel);
    }
    classes
}

/// Whether one register has one value, and both registers are of one class.
pub fn is_one_register(rels: &[Rel]) -> bool
    ensures { IsTrue result → (op : Op) (x : Assignment) → AllHold op rels.now x → IsTrue (is_same x slots.A slots.B) }
{
    some_links(rels) && are_one(&same_classes(rels), Slot::Rs1, Slot::Rs2)
}

/// The classes of the variables that the relations make equal.
fn classes_of(rels: &[Rel]) -> Classes
    ensures { (op : Op) (x : Assignment) → AllHold op rels.now x → AreClasses result x }
{
    let classes = same_classes(rels);
    if is_one_register(rels) {
        return joined(&classes, Slot::A, Slot::B);
    }
    classes
}

/// Whether the relation says that variables of one class have two values.
fn is_denied(rel: &Rel, classes: &Classes) -> bool
    ensures { IsTrue result → (op : Op) (x : Assignment) → AreClasses classes.now x → IsTrue (holds op x rel.now) → ⊥ }
{
    match rel {
        Rel::Differ(s, t) => are_one(classes, *s, *t),
        _ => false,
    }
}

/// Whether one of the relations says of variables that others make equal that they have two values.
pub fn are_contradictory(rels: &[Rel]) -> bool
    ensures { IsTrue result → (op : Op) (x : Assignment) → AllHold op rels.now x → ⊥ }
{
    let classes = classes_of(rels);
    for rel in rels {
        if is_denied(rel, &classes) {
            return true;
        }
    }
    false
}
